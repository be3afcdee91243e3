//! A new store.
ghost use Rattle.std.specs.Prelude.{◌≡◌, IfErr, IfOk, Ok, Err, string_bytes};
ghost use Rattle.sqlite.specs.Files.{over_files};
ghost use Rattle.sqlite_wal.specs.Files.{image_at};
ghost use Rattle.clear_cli.specs.Ready.{schema_line};
ghost use Rattle.clear_schema.specs.Held.{this_schema};
ghost use Rattle.clear_work.specs.Works.{IsSaid};
ghost use Rattle.clear_program.specs.Ends.{MaySay};
ghost use Rattle.clear_program.specs.Made.{Makes};
ghost use Rattle.clear_program.specs.declared.tasks.Task.TheVariants.{Init};

use crate::opening::{close_office, why_unopened};
use clear_cli::ready::schema_line;
use clear_database::store::SCHEMA;
use clear_files::logs::is_left_log;
use clear_host::offices::Opened;
use clear_host::stores::create_office;
use clear_money::rates::RateTable;
use clear_work::stop::Stop;
use sqlite::FileStore;
use sqlite_disk::Start;
use sqlite_std_file::FileFrom;

/// Makes the store at a path, closes it, and says its schema; or ends for why none was made.
pub(crate) fn make_at<S: Start>(
    rt: &HostRuntime,
    store: &str,
    rates: &RateTable,
    start: S,
) -> Result<String, Stop>
    ensures { MaySay string_bytes (Init store.entry rates.now) result }
{
    let left = is_left_log(rt, store)?;
    let made = create_at(rt, left, store, rates, start);
    say_made(rt, made)
}

// Makes the store at a path, unless a log was left alone there.
fn create_at<S: Start>(
    rt: &HostRuntime,
    left: bool,
    store: &str,
    rates: &RateTable,
    start: S,
) -> Result<Opened<FileStore<FileFrom<S>>>, Stop>
    ensures { Makes over_files (image_at S.Start) left rates.now result }
{
    if left {
        return Err(Stop::File);
    }
    match create_office(rt, store, rates, start) {
        Ok(opened) => Ok(opened),
        Err(refused) => Err(Stop::from(why_unopened(refused).fault)),
    }
}

// Closes a store that was made, and says its schema; or says why none was made.
fn say_made<S: Start>(
    rt: &HostRuntime,
    made: Result<Opened<FileStore<FileFrom<S>>>, Stop>,
) -> Result<String, Stop>
    ensures made { IfOk made (λ _.
        IsSaid string_bytes (Ok (schema_line this_schema)) result) }
    ensures refused { IfErr made (λ why. result ≡ Err why) }
{
    match made {
        Ok(opened) => {
            close_office(rt, opened);
            Ok(schema_line(rt.alloc(), SCHEMA)?)
        }
        Err(why) => Err(why),
    }
}
