//! An office over a new store in memory.
ghost use Rattle.std.specs.Prelude.{◌≡◌, false, IfSome};
ghost use Rattle.sqlite.specs.Files.{over_files};
ghost use Rattle.clear_book.specs.Book.{first_book};
ghost use Rattle.clear_book.specs.Machine.{IsLawful};
ghost use Rattle.clear_office.specs.Office.{IsHonest, Keeps};

use crate::memory_file::MemoryFile;
use clear_book::ranges::rates_in_range;
use clear_disk::database::open_connection;
use clear_disk::files::store_options;
use clear_money::rates::RateTable;
use clear_office::made::make_office;
use clear_office::office::Office;
use sqlite::{Connection, FileStore, Files};
use std::alloc::Global;

/// An office without requests over a new store in memory, with these opening rates. None where
/// there is no memory for it.
pub fn office_in_memory(alloc: Global, rates: &RateTable) -> Option<Office<FileStore<MemoryFile>>>
    ensures working { IfSome result (λ office. office.failed ≡ false) }
    ensures keeps { IfSome result (λ office.
        Keeps over_files office (first_book rates.now)) }
    ensures lawful { IsLawful (first_book rates.now) }
{
    // No effect at run time: the proof reads from this call that the rates are lawful.
    rates_in_range(rates);
    let connection = connection_in_memory(alloc)?;
    match make_office(alloc, connection, rates) {
        Ok(office) => Some(office),
        Err(_) => None,
    }
}

/// A file in memory returns what was written to it. So an office over a store in memory is honest,
/// always, and what is promised of an honest one holds of it without that premise.
pub fn law_honest_in_memory(office: &Office<FileStore<MemoryFile>>)
    ensures { IsHonest over_files office.now }
{}

// A connection on two new files in memory. The log's salts need no secret there, so their number is
// fixed.
fn connection_in_memory(alloc: Global) -> Option<Connection<FileStore<MemoryFile>>>
    ensures mode { IfSome result (λ conn. conn.in_transaction ≡ false) }
{
    let files = Files {
        log: MemoryFile::new(alloc),
        db: MemoryFile::new(alloc),
    };
    match open_connection(alloc, files, store_options(7)) {
        Ok(conn) => Some(conn),
        Err(_) => None,
    }
}
