//! The connections of a listener, served one after another.
//!
//! A line tells of each connection that wasn't served to its end, and one that the office has
//! failed.
//!
//! No contract can say what a socket gives or takes, nor time. So none says that a connection was
//! accepted, which bytes came, that an answer arrived, that a slow or silent peer loses its
//! connection, or when an idle one is ended for another: that what was taken and written is the
//! items of a stream and their answers is said where the bytes are known, of the serve loop. Here
//! they stand in a list of talks, one for each connection, which is empty where none was accepted.
//! Nor does one say which connection a line tells of, or what a path names.
ghost use Rattle.std.specs.Prelude.{◌≡◌, ◌≢◌, ◌<◌, ◌≤◌, ◌+◌, ◌-◌, true, Err, OnErr, OnOk};
ghost use Rattle.clear_office.specs.Office.{IsHonest};
ghost use Rattle.clear_routes.specs.Reading.{Reads};
ghost use Rattle.clear_http.specs.Desk.{MayServe};
ghost use Rattle.clear_server.specs.Talks.{AreServed, most_failures};
ghost use Rattle.clear_server.specs.Told.{AreTold, TellsRefused, written_by};

use crate::peer::{Peer, Taker, close_after_answer};
use crate::told::tell;
use clear_callers::directory::Directory;
use clear_files::named::NamedStore;
use clear_http::desk::serve;
use clear_http::serve::Fault;
use clear_money::days::Day;
use clear_office::office::Office;
use clear_wire::counted::Counted;
use sqlite::Alter;
use std::io::Write;
use std::net::{TcpListener, TcpStream};
use std::time::Duration;
use std::{io, thread};

/// How serving ended.
#[derive(Clone, Copy)]
pub enum Ended {
    /// As many connections as were asked for were served.
    Served,
    /// Before one of them the store didn't stand any more.
    StoreGone,
    /// Before that, the system refused a connection too often in turn.
    NoConnections,
}

// How often the system may refuse a connection, one time after another.
const FAILURES: u32 = 100;

// How many milliseconds pass after each of these times.
const PAUSE: u64 = 100;

// Why a connection ended early, if it did, and the one for which it was ended.
#[derive(Drop)]
struct Talked {
    end: Result<(), Fault>,
    next: Option<TcpStream>,
}

/// Serves so many connections, one after another. A connection whose stream isn't served to its end
/// is told on the error writer, and ends alone: `rule 40 Memory` for want of memory, else
/// `fault net`. Where the office fails, `rule 41 Store` tells so, behind the connection in which it
/// did.
///
/// Whatever peers connect and send: whatever lawful book the office keeps, what is said on the
/// connections is what the clearing machine says over it, and the office then keeps the book that
/// it leaves, so far as its disk returned what was written. Whatever the records hold, a request
/// that reads as a call for which access says no is turned away, and the office stays but for a
/// call that access allows. An office that has failed stays as it is.
///
/// Each connection that is taken counts. Before it is served, the store has to stand at its path, with
/// its log beside it: where one has gone, nothing more is served. One that the system refuses, as for
/// want of descriptors, counts, too, is told, and takes a tenth of a second; after more than a hundred
/// in turn nothing more is served. Where not all are served, fewer lines tell of connections than were
/// to be served.
///
/// A peer has 30 seconds for a request, and 10 for each read and each write. Without a request its
/// connection may stay open for 30 seconds, or until another one waits; a new one is left a second
/// for its first byte, and the last one isn't ended for others.
///
/// The connections are served whether or not the error writer takes its lines. Nothing else is
/// written to it, and of a line whose write fails a front.
pub fn serve_connections<S: Alter, E: Write>(
    rt: &HostRuntime,
    listener: &TcpListener,
    count: u32,
    office: &mut Office<S>,
    directory: &Directory,
    day: Day,
    store: &NamedStore<'_>,
    errors: &mut Counted<E>,
) -> Ended
    ensures served { AreServed S.Store (Reads directory.now day) result count
        office.old office.new }
    ensures failed { office.old.failed ≡ true → office.new ≡ office.old }
    ensures clean { IsHonest S.Store office.new → IsHonest S.Store office.old }
    ensures told { AreTold count office.old.failed office.new.failed
        (written_by E.contents errors.old) (written_by E.contents errors.new) }
    ensures fewer { result ≢ Ended.Served
        → AreTold (count - 1) office.old.failed office.new.failed
        (written_by E.contents errors.old) (written_by E.contents errors.new) }
    ensures refused { result ≡ Ended.NoConnections → TellsRefused most_failures
        (written_by E.contents errors.old) (written_by E.contents errors.new) }
{
    let mut next = None;
    let mut failures = 0;
    for served in 0..count {
        let accepted = accept(rt, listener, next);
        if !store.stands() {
            return Ended::StoreGone;
        }
        failures = failures_with(&accepted, failures);
        if failures > FAILURES {
            return Ended::NoConnections;
        }
        let had_failed = office.failed();
        let others = others_of(listener, served, count);
        let talked = serve_next(rt, accepted, others, office, directory, day);
        tell(errors, &talked.end, had_failed, office.failed());
        next = talked.next;
    }
    Ended::Served
}

// The connection that was taken already, or else the next one that comes. Where the system refuses it at
// once, some time passes, in which it may find what it wants.
fn accept(
    rt: &HostRuntime,
    listener: &TcpListener,
    taken: Option<TcpStream>,
) -> io::Result<TcpStream> {
    match taken {
        Some(stream) => Ok(stream),
        None => match listener.accept() {
            Ok((stream, _peer)) => Ok(stream),
            Err(error) => {
                thread::sleep(rt, Duration::from_millis(PAUSE));
                Err(error)
            }
        },
    }
}

// How many connections the system has refused in turn, with this one.
fn failures_with(accepted: &io::Result<TcpStream>, before: u32) -> u32
    ensures one { result ≤ before + 1 }
    ensures anew { OnOk accepted.now (result ≡ 0) }
{
    match accepted {
        Ok(_) => 0,
        Err(_) => before.saturating_add(1),
    }
}

// Where others wait for whom a connection may be ended, if so many were served before it.
fn others_of(listener: &TcpListener, served: u32, count: u32) -> Option<&TcpListener>
    requires { served < count }
{
    if served < count - 1 {
        Some(listener)
    } else {
        None
    }
}

// Serves a connection that was taken.
fn serve_next<S: Alter>(
    rt: &HostRuntime,
    accepted: io::Result<TcpStream>,
    others: Option<&TcpListener>,
    office: &mut Office<S>,
    directory: &Directory,
    day: Day,
) -> Talked
    ensures said { MayServe S.Store directory.now day office.old office.new }
    ensures silent { OnErr accepted (office.new ≡ office.old) }
    ensures broken { OnErr accepted (result.end ≡ Err Fault.Read) }
    ensures failed { office.old.failed ≡ true → office.new ≡ office.old }
{
    match accepted {
        Ok(stream) => talk(rt, &stream, others, office, directory, day),
        Err(_) => broken(),
    }
}

// A connection on which nothing was said, since the system refused something.
fn broken() -> Talked
    ensures { result.end ≡ Err Fault.Read }
{
    Talked {
        end: Err(Fault::Read),
        next: None,
    }
}

// Serves a stream. Its reader and its writer have two shared references to it.
fn talk<S: Alter>(
    rt: &HostRuntime,
    stream: &TcpStream,
    others: Option<&TcpListener>,
    office: &mut Office<S>,
    directory: &Directory,
    day: Day,
) -> Talked
    ensures said { MayServe S.Store directory.now day office.old office.new }
    ensures failed { office.old.failed ≡ true → office.new ≡ office.old }
{
    let taker = match Taker::new(stream) {
        Ok(taker) => taker,
        Err(_) => return broken(),
    };
    let mut peer = Peer::new(rt, stream, others);
    let mut reader = Counted::new(&mut peer);
    let mut writer = Counted::new(taker);
    let served = serve(rt.alloc(), office, directory, day, &mut reader, &mut writer);
    let next = peer.into_next();
    match served {
        Ok(served) => {
            if next.is_none() {
                let _ = close_after_answer(rt, stream, served.by_rule);
            }
            Talked { end: Ok(()), next }
        }
        Err(stopped) => Talked {
            end: Err(stopped.fault),
            next,
        },
    }
}
