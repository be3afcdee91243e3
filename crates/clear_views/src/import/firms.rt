//! The firms that a file names.
ghost use Rattle.std.specs.Prelude.{◌≡◌, ℕ, ⊤, IfOk};
ghost use Rattle.std.specs.List.{list_any};
ghost use Rattle.clear_book.specs.Keyed.{AreOnce};
ghost use Rattle.clear_debts.specs.Reads.{Reads};
ghost use Rattle.clear_views.specs.Imports.{AreNamed, counted_firm, firm_key, is_among, names};

use super::each::{Asked, found_each};
use super::limits::count_credits;
use clear_bank::lines::{BankLine, Purpose};
use clear_firms::employers::find_employer;
use clear_money::numbers::EmployerNo;
use clear_rules::decide::import::EmployerCredits;
use clear_schema::fault::Fault;
use sqlite::{Alter, Transaction};
use std::alloc::{AllocError, Global};
use std::collections::BTreeSet;

/// The firms that lines name.
#[derive(Drop)]
pub(super) struct NamedFirms {
    /// The registered ones, each once.
    pub(super) registered: Vec<EmployerCredits>,
    /// Whether all of them are registered.
    pub(super) all: bool,
}

/// The firms that these lines name.
pub(super) fn view_firms<S: Alter>(
    alloc: Global,
    tx: &mut Transaction<'_, S>,
    serving: Option<u64>,
    lines: &[BankLine],
) -> Result<NamedFirms, Fault>
    ensures same_reference { tx.new.conn.ghost_name ≡ tx.old.conn.ghost_name }
    ensures reads { Reads S.Store ⊤ tx.old.conn.now tx.new.conn.now result
        (λ t found. AreNamed serving t lines.now found) }
{
    let firms = named_firms(alloc, lines)?;
    let registered = found_each(alloc, tx, &Viewed { serving }, firms.as_slice())?;
    let all = registered.len() == firms.len();
    Ok(NamedFirms { registered, all })
}

// The firms that lines name, each once.
fn named_firms(alloc: Global, lines: &[BankLine]) -> Result<Vec<EmployerNo>, AllocError>
    ensures named { IfOk result (λ firms.
        (e : ℕ) → is_among e firms.items ≡ list_any (names e) lines.now) }
    ensures once { IfOk result (λ firms. AreOnce firm_key firms.items) }
{
    let mut seen = BTreeSet::new(alloc);
    let mut firms = Vec::new(alloc);
    for line in lines {
        if let Some(employer) = line.employer {
            if seen.insert(employer)? {
                firms.push(employer)?;
            }
        }
    }
    Ok(firms)
}

/// A firm as it is viewed, if it is registered.
#[derive(Drop)]
struct Viewed {
    serving: Option<u64>,
}

impl Asked for Viewed {
    ghost use Rattle.clear_views.specs.Imports.{firm_viewed};

    type Item = EmployerNo;

    type Found = EmployerCredits;

    ghost answer = { λ asked. firm_viewed asked.serving };

    fn ask<S: Alter>(
        &self,
        tx: &mut Transaction<'_, S>,
        no: &EmployerNo,
    ) -> Result<Option<EmployerCredits>, Fault> {
        match find_employer(tx, *no)? {
            Some(_) => {
                let firm = count_firm(tx, self.serving, *no)?;
                Ok(Some(firm))
            }
            None => Ok(None),
        }
    }
}

// A registered firm.
fn count_firm<S: Alter>(
    tx: &mut Transaction<'_, S>,
    serving: Option<u64>,
    no: EmployerNo,
) -> Result<EmployerCredits, Fault>
    ensures same_reference { tx.new.conn.ghost_name ≡ tx.old.conn.ghost_name }
    ensures reads { Reads S.Store ⊤ tx.old.conn.now tx.new.conn.now result
        (λ t firm. firm ≡ counted_firm serving t no) }
{
    let contribution_count = count_credits(tx, serving, no, Purpose::Contribution)?;
    let interest_count = count_credits(tx, serving, no, Purpose::Interest)?;
    Ok(EmployerCredits {
        employer: no,
        contribution_count,
        interest_count,
    })
}
