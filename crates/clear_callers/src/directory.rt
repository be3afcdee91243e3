//! The keys of all callers.
ghost use Rattle.std.specs.Prelude.{◌≡◌, [], codes, Contains, IfOk, Ok, Err, Some};
ghost use Rattle.clear_money.specs.Numbers.{IsEmployerNo};
ghost use Rattle.clear_book.specs.declared.calls.Caller.TheVariants.{Firm};
ghost use Rattle.clear_callers.specs.CallerFile.{directory_of, sample_text, Gives, KeysAreMembers};
ghost use Rattle.clear_callers.specs.Callers.{caller_of, sample_keys};
ghost use Rattle.clear_callers.specs.declared.caller_file.DirectoryFault.TheVariants.{Text, Entry};

use crate::caller_file::{DirectoryFault, add_key, callers_in};
use clear_book::calls::Caller;
use clear_money::numbers::EmployerNo;
use clear_toml::documents::read_document;
use std::alloc::{AllocError, Global};
use std::collections::BTreeMap;
use std::marker::Model;

/// The keys of all callers. A contract sees a list of keys with their callers.
#[derive(Drop)]
pub struct Directory {
    callers: BTreeMap<Vec<u8>, Caller>,
}

impl Model for Directory {
    ghost use Rattle.std.specs.Prelude.{List, map};
    ghost use Rattle.clear_callers.specs.Callers.{KeyOf, key_of};

    ghost Value = { List KeyOf };

    ghost view = { λ a. map key_of a.callers.entries };
}

impl Directory {
    /// Reads a caller file: a TOML document in which each member of the top level is a key of 1 to
    /// 64 bytes from 0x21 to 0x7E. Its value is 0 for a clerk, and 1 to 99,999,999 for the firm of
    /// this number. An empty document is a directory without keys.
    ///
    /// A key in which other bytes stand than letters, digits, `_` and `-` is written in quotes. The
    /// directory lists the keys in the order of their bytes, wherever they stand in the text. The
    /// first fault, in this order: Text, Entry.
    #[tactic(auto, unfolding(crate::specs::CallerFile::directory_of))]
    pub fn read(alloc: Global, bytes: &[u8]) -> Result<Directory, DirectoryFault>
        ensures { Gives (λ directory. directory) result (directory_of bytes.now) }
    {
        let Ok(document) = read_document(alloc, bytes) else {
            return Err(DirectoryFault::Memory);
        };
        let Some(document) = document else {
            return Err(DirectoryFault::Text);
        };
        let callers = callers_in(alloc, &document)?;
        Ok(Directory { callers })
    }

    /// The callers of the example: the clerk's key `desk`, and the keys `k1001` and `k1002` of the
    /// firms with these numbers.
    pub fn sample(alloc: Global) -> Result<Directory, AllocError>
        ensures { IfOk result (λ directory. directory ≡ sample_keys) }
    {
        let mut callers = BTreeMap::new(alloc);
        add_key(&mut callers, alloc, b"desk", Caller::Clerk)?;
        add_key(&mut callers, alloc, b"k1001", firm(1001))?;
        add_key(&mut callers, alloc, b"k1002", firm(1002))?;
        Ok(Directory { callers })
    }

    /// Who calls with the key. None if it is nobody's. The whole key counts, and not its place.
    pub fn find(&self, key: &[u8]) -> Option<Caller>
        ensures value { result ≡ caller_of key.now self.now }
        ensures anywhere { (caller : Caller)
            → Contains self.now (key.now, caller) → result ≡ Some caller }
    {
        // No effect at run time: the proof reads from this call that the keys rise.
        let _in_order = self.callers.iter();
        self.callers.get(key).copied()
    }
}

/// A law of the definitions, without effect: what short caller files say.
pub fn law_examples_are_read()
    ensures empty { directory_of [] ≡ Ok [] }
    ensures sample { directory_of sample_text ≡ Ok sample_keys }
    ensures repeated_key { directory_of (codes "desk = 0\ndesk = 0\n") ≡ Err Text }
    ensures past_64_bits { directory_of (codes "k = 9223372036854775808\n") ≡ Err Text }
    ensures past_the_range { directory_of (codes "k = 100000000\n") ≡ Err Entry }
    ensures key_with_space { directory_of (codes "\"k 1\" = 1\n") ≡ Err Entry }
{}

/// A law of the definitions, without effect: who calls with a key of a caller file is who the
/// member of this name says, wherever it stands.
pub fn law_keys_are_members()
    ensures { KeysAreMembers }
{}

fn firm(number: u64) -> Caller
    requires { IsEmployerNo number }
    ensures { result ≡ Firm number }
{
    match EmployerNo::new(number) {
        Some(employer) => Caller::Firm(employer),
        None => unreachable!(),
    }
}
