//! Why the program ends before its work is done: the line that it tells, and its status.
ghost use Rattle.std.specs.Prelude.{◌≡◌, ◌++◌, IfOk, string_bytes};
ghost use Rattle.clear_server.specs.Told.{written_by};
ghost use Rattle.clear_work.specs.Stops.{behind_space, by_store, by_stream};
ghost use Rattle.clear_work.specs.Stops.{rule_line, status_by, status_of, Tells};

use clear_book::carried::carried_text;
use clear_book::rules::{Rule, StoreCause};
use clear_files::fault::FileFault;
use clear_http::serve::Fault;
use clear_schema::fault::{Fault as StoreFault, OpenFault};
use clear_server::told::write_front;
use clear_wire::counted::Counted;
use std::alloc::{AllocError, Global};
use std::io::Write;

/// Why the program ends before its work is done.
#[derive(Clone, Copy)]
pub enum Stop {
    /// A request or the store is refused, or there was no memory.
    Rule(Rule),
    /// The command line isn't understood.
    Line,
    /// A rate, caller or bank file can't be read, is too large, or is no such file, or a copy of a
    /// store can't be made, or where a store is to be made a log was left alone.
    File,
    /// The port can't be bound, or the system gives no more connections.
    Net,
    /// Standard input or output failed, or a stream took all reads that it may make.
    Stream,
}

/// There was no memory.
pub const NO_MEMORY: Stop = Stop::Rule(Rule::Memory);

impl Stop {
    /// The status with which the program ends: 1 for a refused request, 2 for the command line and
    /// its files, and 3 for a fault of the store, of memory, of the port or of a stream.
    pub fn status(&self) -> u8
        ensures { result ≡ status_of self.now }
    {
        match self {
            Stop::Rule(rule) => status_by(*rule),
            Stop::Line | Stop::File => 2,
            Stop::Net | Stop::Stream => 3,
        }
    }
}

/// Tells why the program ends, and gives its status. What can't be written is lost. Where there is no
/// memory for the line of a rule, want of memory is told.
pub fn tell<E: Write>(alloc: Global, errors: &mut Counted<E>, stop: &Stop) -> u8
    ensures { Tells (written_by E.contents errors.old) (written_by E.contents errors.new)
        stop.now result }
{
    match stop {
        Stop::Rule(rule) => return tell_rule(alloc, errors, rule),
        Stop::Line => write_front(errors, b"fault command line\n"),
        Stop::File => write_front(errors, b"fault file\n"),
        Stop::Net => write_front(errors, b"fault net\n"),
        Stop::Stream => write_front(errors, b"fault stream\n"),
    }
    stop.status()
}

fn tell_rule<E: Write>(alloc: Global, errors: &mut Counted<E>, rule: &Rule) -> u8
    ensures { Tells (written_by E.contents errors.old) (written_by E.contents errors.new)
        (Stop.Rule rule.now) result }
{
    match rule_line(alloc, rule) {
        Ok(line) => {
            write_front(errors, line.as_bytes());
            status_by(*rule)
        }
        Err(AllocError) => {
            write_front(errors, b"rule 40 Memory\n");
            NO_MEMORY.status()
        }
    }
}

impl From<Rule> for Stop {
    fn from(rule: Rule) -> Stop
        ensures { result ≡ Stop.Rule rule }
    {
        Stop::Rule(rule)
    }
}

impl From<AllocError> for Stop {
    ghost use Rattle.std.specs.Prelude.{◌≡◌};
    ghost use Rattle.clear_work.specs.Stops.{no_memory};

    ghost from_gives = { λ _ why. why ≡ no_memory };

    fn from(_: AllocError) -> Stop {
        NO_MEMORY
    }
}

impl From<FileFault> for Stop {
    ghost use Rattle.std.specs.Prelude.{◌≡◌};
    ghost use Rattle.clear_work.specs.Stops.{IsOfFile, by_file};

    ghost from_gives = { λ fault why. (why ≡ by_file fault) × IsOfFile why };

    fn from(fault: FileFault) -> Stop {
        match fault {
            FileFault::Unusable => Stop::File,
            FileFault::Memory => NO_MEMORY,
        }
    }
}

impl From<OpenFault> for Stop {
    fn from(fault: OpenFault) -> Stop
        ensures { result ≡ by_store fault }
    {
        match fault {
            OpenFault::WrongVersion(found) => Stop::Rule(Rule::WrongVersion(found)),
            OpenFault::Failed(StoreFault::Memory) => NO_MEMORY,
            OpenFault::Failed(StoreFault::Store(cause)) => Stop::Rule(Rule::Store(cause)),
        }
    }
}

impl From<Fault> for Stop {
    fn from(fault: Fault) -> Stop
        ensures { result ≡ by_stream fault }
    {
        match fault {
            Fault::Memory => NO_MEMORY,
            Fault::Read | Fault::Write | Fault::Reads => Stop::Stream,
        }
    }
}

/// Why the program ends where the records hold an answer of another kind than was asked for.
pub fn stop_at_records() -> Stop
    ensures { result ≡ Stop.Rule (Rule.Store StoreCause.Row) }
{
    Stop::Rule(Rule::Store(StoreCause::Row))
}

// The rules from 40 on are those of memory and of the store.
fn status_by(rule: Rule) -> u8
    ensures { result ≡ status_by rule }
{
    if rule.number() < 40 { 1 } else { 3 }
}

// A rule by its number and its name, and what it carries.
#[tactic(auto, unfolding(crate::specs::Stops::rule_line))]
fn rule_line(alloc: Global, rule: &Rule) -> Result<String, AllocError>
    ensures { IfOk result (λ line. string_bytes line ≡ rule_line rule.now) }
{
    let carried = carried_text(alloc, rule.carried())?;
    let mut line = String::from_str(alloc, "rule ")?;
    line.push_str(rule.number().to_string(alloc)?.as_str())?;
    line.push_str(" ")?;
    line.push_str(rule.name())?;
    push_carried(&mut line, carried.as_str())?;
    line.push_str("\n")?;
    Ok(line)
}

// Appends what a rule carries, behind a space, where it carries something.
fn push_carried(line: &mut String, carried: &str) -> Result<(), AllocError>
    ensures { IfOk result (λ _. string_bytes line.new
        ≡ string_bytes line.old ++ behind_space carried.now) }
{
    if carried.is_empty() {
        return Ok(());
    }
    line.push_str(" ")?;
    line.push_str(carried)?;
    Ok(())
}
