//! Whether a store has this program's schema.
ghost use Rattle.std.specs.Prelude.{◌≡◌, IfErr, IfOk, Ok, Err, string_bytes};
ghost use Rattle.sqlite.specs.Files.{over_files};
ghost use Rattle.sqlite_wal.specs.Files.{image_at};
ghost use Rattle.clear_cli.specs.Ready.{schema_line};
ghost use Rattle.clear_schema.specs.Held.{this_schema};
ghost use Rattle.clear_work.specs.Stops.{IsOfStore, by_store};
ghost use Rattle.clear_work.specs.Works.{IsSaid};
ghost use Rattle.clear_program.specs.Made.{Brings};

use crate::opening::{Unopened, close_store, why_unopened};
use crate::reasons::refused_path;
use clear_cli::ready::schema_line;
use clear_database::store::SCHEMA;
use clear_files::paths::{PathKind, path_kind};
use clear_host::migrations::{Brought, bring_to_current};
use clear_migrate::schemas::Migration;
use clear_work::stop::Stop;
use sqlite::FileStore;
use sqlite_disk::Start;
use sqlite_std_file::FileFrom;
use std::alloc::Global;

/// Says which schema the store at a path has, and closes it; a store of another one is refused.
pub(crate) fn migrate_at<S: Start>(rt: &HostRuntime, store: &str, start: S) -> Result<String, Stop>
    ensures said { IfOk result (λ said. string_bytes said ≡ schema_line this_schema) }
    ensures why { IfErr result IsOfStore }
{
    let kind = path_kind(rt, store);
    let brought = bring_at(rt, kind, store, start);
    say_brought(rt.alloc(), brought)
}

// Brings the store at a path of this kind to this program's schema. A path that can hold no store is
// refused before it is opened, so that an empty file stays empty.
fn bring_at<S: Start>(
    rt: &HostRuntime,
    kind: PathKind,
    store: &str,
    start: S,
) -> Result<Brought<FileStore<FileFrom<S>>>, Unopened>
    ensures { Brings over_files (image_at S.Start) kind result }
{
    match refused_path(kind) {
        Some(fault) => Err(Unopened {
            kind,
            fault,
            hindrance: None,
        }),
        None => match bring_to_current(rt, store, start) {
            Ok(brought) => Ok(brought),
            Err(refused) => Err(why_unopened(refused)),
        },
    }
}

// Closes a store that is current, and says its schema; or says why it isn't opened.
fn say_brought<S: Start>(
    alloc: Global,
    brought: Result<Brought<FileStore<FileFrom<S>>>, Unopened>,
) -> Result<String, Stop>
    ensures current { IfOk brought (λ _.
        IsSaid string_bytes (Ok (schema_line this_schema)) result) }
    ensures refused { IfErr brought (λ why. result ≡ Err (by_store why.fault)) }
{
    match brought {
        Ok(brought) => {
            close_store(brought.connection);
            match brought.migration {
                Migration::AlreadyCurrent => Ok(schema_line(alloc, SCHEMA)?),
            }
        }
        Err(refused) => Err(Stop::from(refused.fault)),
    }
}
