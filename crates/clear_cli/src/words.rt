//! What the words of a command line say, and why they say nothing.

use clear_book::numbers::RequestNo;
use clear_money::days::Day;
use clear_money::numbers::EmployerNo;

/// What the program is to do. Each `store`, and each of `rates`, `callers` and `file`, is the path
/// of a file; `rates` and `callers` of `Stream` may be the word `sample` instead.
#[derive(Clone, Copy)]
pub enum Words<'a> {
    /// Makes a store in a new file, with the rates of a rate file.
    Init {
        store: &'a str,
        rates: &'a str,
    },
    /// Answers the requests of standard input, by an office in memory.
    Stream {
        rates: &'a str,
        callers: &'a str,
        day: Day,
    },
    /// Serves `count` connections, 1 to 1,000,000, on `port`, 1 to 65,535, of this machine.
    Serve {
        store: &'a str,
        callers: &'a str,
        day: Day,
        port: u16,
        count: u32,
    },
    /// Imports a bank file as the request of this number.
    Import {
        store: &'a str,
        day: Day,
        number: RequestNo,
        file: &'a str,
    },
    /// Writes the statement of a firm.
    Statement {
        store: &'a str,
        day: Day,
        employer: EmployerNo,
    },
    /// Says whether a store has this program's schema.
    Migrate {
        store: &'a str,
    },
    /// Tells what stands in a store, and changes nothing.
    Look {
        store: &'a str,
    },
    /// Reads a file of this kind, and touches no store.
    Check {
        kind: FileKind,
        file: &'a str,
    },
    /// Copies a store into a new file.
    Backup {
        store: &'a str,
        file: &'a str,
    },
}

/// A kind of file.
#[derive(Clone, Copy)]
pub enum FileKind {
    /// A rate file.
    Rates,
    /// A caller file.
    Callers,
    /// A bank file.
    Bank,
}

/// Why the words of a command line say nothing.
#[derive(Drop)]
pub enum LineFault {
    /// Help was asked for. The text is that of `clap`.
    Help(String),
    /// The line isn't understood.
    Line,
    /// An allocation failed, which says nothing of the words.
    Memory,
}
