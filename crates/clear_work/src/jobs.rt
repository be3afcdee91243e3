//! What is done with the store of an office that was just opened, whatever keeps it.
ghost use Rattle.std.specs.Prelude.{◌≡◌, string_bytes};
ghost use Rattle.clear_office.specs.Office.{AtOffice};
ghost use Rattle.clear_server.specs.Told.{written_by};
ghost use Rattle.clear_work.specs.Looks.{DoesJob, Looks};
ghost use Rattle.clear_work.specs.Works.{Works};

use crate::stop::Stop;
use crate::work::{Work, do_work};
use clear_book::rules::{Rule, StoreCause};
use clear_database::store::SCHEMA;
use clear_files::named::StoreFile;
use clear_host::offices::Opened;
use clear_reading::look::look;
use clear_schema::fault::OpenFault;
use clear_texts::look::look_text;
use clear_wire::counted::Counted;
use sqlite::{Alter, Connection};
use std::alloc::Global;
use std::io::Write;

/// What is done with a store before it is closed.
#[derive(Drop)]
pub enum Job<'a> {
    /// Nothing, and nothing is said.
    Nothing,
    /// It is said what stands in it.
    Look,
    /// The work that the words ask for, on the store in this file.
    Work(StoreFile<'a>, Work<'a>),
}

/// A job that was done: what is to be said of it, and the connection, which is still to be closed.
#[derive(Drop)]
pub struct Done<S: Alter> {
    pub said: Result<String, Stop>,
    pub connection: Connection<S>,
}

/// Does a job on the store of an office, and gives what is to be said of it. That connections are taken,
/// and why one ended early, is told on `errors`.
pub fn do_job<S: Alter + Drop, E: Write>(
    rt: &HostRuntime,
    opened: Opened<S>,
    job: Job<'_>,
    errors: &mut Counted<E>,
) -> Done<S>
    ensures { DoesJob string_bytes S.Store result.said opened.ledger_day opened.office
        result.connection
        (written_by E.contents errors.old) (written_by E.contents errors.new) job.entry }
{
    match job {
        Job::Nothing => Done {
            said: Ok(String::new(rt.alloc())),
            connection: opened.into_connection(),
        },
        Job::Look => look_into(rt.alloc(), opened),
        Job::Work(file, work) => work_on(rt, opened, &file, work, errors),
    }
}

fn look_into<S: Alter>(alloc: Global, opened: Opened<S>) -> Done<S>
    ensures { Looks string_bytes S.Store result.said opened.office.conn result.connection }
{
    let mut connection = opened.into_connection();
    let said = look_over(alloc, &mut connection);
    Done { said, connection }
}

fn work_on<S: Alter + Drop, E: Write>(
    rt: &HostRuntime,
    opened: Opened<S>,
    file: &StoreFile<'_>,
    work: Work<'_>,
    errors: &mut Counted<E>,
) -> Done<S>
    ensures { (then : AtOffice _) × Works string_bytes S.Store opened.office then result.said
        opened.ledger_day
        (written_by E.contents errors.old) (written_by E.contents errors.new) work.entry
        × (result.connection ≡ then.conn) }
{
    let mut opened = opened;
    let said = do_work(rt, &mut opened, file, work, errors);
    let connection = opened.into_connection();
    Done { said, connection }
}

// What stands in the store of a connection, in words. Nothing is changed.
fn look_over<S: Alter>(alloc: Global, connection: &mut Connection<S>) -> Result<String, Stop>
    ensures { Looks string_bytes S.Store result connection.old connection.new }
{
    if !connection.is_autocommit() {
        return Err(Stop::Rule(Rule::Store(StoreCause::Other)));
    }
    match look(connection) {
        Ok(found) => Ok(look_text(alloc, SCHEMA, &found)?),
        Err(fault) => Err(Stop::from(OpenFault::Failed(fault))),
    }
}
