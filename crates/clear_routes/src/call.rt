//! What a request calls for.
ghost use Rattle.std.specs.Prelude.{◌≡◌};
ghost use Rattle.clear_routes.specs.Faults.{Gives};
ghost use Rattle.clear_wire.specs.Parsed.{heading};
ghost use Rattle.clear_routes.specs.Called.{number_spelled, number_of, called_for};
ghost use Rattle.clear_routes.specs.Called.{command_for, query_for};
ghost use Rattle.clear_routes.specs.Reading.{caller_at, Reads};

use crate::bodies::{
    read_assignment, read_claim, read_correction, read_end, read_nothing, read_rate,
    read_registration, read_report,
};
use crate::faults::{BodyFault, Member};
use crate::methods::Action;
use crate::parameters::Parameters;
use crate::refused::Refused;
use crate::route::Route;
use crate::routes::Routes;
use crate::table::{CommandKind, QueryKind};
use clear_book::calls::{Call, Caller, Command, Query, Withdrawal};
use clear_book::files::BankFile;
use clear_book::numbers::RequestNo;
use clear_book::rules::Rule;
use clear_callers::directory::Directory;
use clear_money::days::Day;
use clear_money::numbers::read_number;
use clear_wire::head::RequestHead;
use clear_wire::request::Request;
use std::alloc::Global;

/// What a request calls for on a day, or the first of these that refuses it: no route has its
/// target (`NoRoute`); none that has it has the method (`BadMethod`, with the methods that are
/// allowed); its key is missing, stands twice or is nobody's (`UnknownKey`); or a part of it is
/// wrong (`BadBody`, with this part).
///
/// Of a command the number is judged first, 1 to 999,999,999,999,999,999 in decimal without
/// leading zeros, and then the body. A query needs no number, and its body isn't looked at. Want
/// of memory is refused as `Memory`, whatever else is wrong.
pub fn find_call(
    alloc: Global,
    routes: &Routes,
    directory: &Directory,
    day: Day,
    request: &Request,
) -> Result<Call, Refused>
    ensures { Reads directory.now day (heading request.now.head) request.now.body.items result }
{
    let route = match routes.find(request.head.method, request.head.target.as_slice()) {
        Ok(route) => route,
        Err(unrouted) => return Err(Refused::by_route(unrouted)),
    };
    let Some(caller) = caller_at(directory, &request.head) else {
        return Err(Refused::by(Rule::UnknownKey));
    };
    match called_for(alloc, route, caller, day, request) {
        Ok(call) => Ok(call),
        Err(BodyFault::Bad(member)) => Err(Refused::by_member(member)),
        Err(BodyFault::Memory) => Err(Refused::by(Rule::Memory)),
    }
}

/// Who calls, if the key stands just once and is somebody's.
fn caller_at(directory: &Directory, head: &RequestHead) -> Option<Caller>
    ensures { result ≡ caller_at directory.now (heading head.now) }
{
    match &head.office_key {
        Some(key) => directory.find(key.as_slice()),
        None => None,
    }
}

/// What a request of this route and this caller calls for, or the first part of it that is wrong.
fn called_for(
    alloc: Global,
    route: Route,
    caller: Caller,
    day: Day,
    request: &Request,
) -> Result<Call, BodyFault>
    ensures { Gives result
        (called_for route caller day (heading request.now.head) request.now.body.items) }
{
    let at = route.parameters;
    match route.action {
        Action::Do(kind) => {
            let number = number_of(&request.head)?;
            let command = command_for(alloc, kind, at, request.body.as_slice())?;
            Ok(Call::Do {
                caller,
                number,
                day,
                command,
            })
        }
        Action::Ask(kind) => {
            let query = query_for(kind, at);
            Ok(Call::Ask { caller, day, query })
        }
    }
}

/// The command of this kind that the path's parameters and the body make.
fn command_for(
    alloc: Global,
    kind: CommandKind,
    at: Parameters,
    body: &[u8],
) -> Result<Command, BodyFault>
    ensures { Gives result (command_for kind at body.now) }
{
    let (employer, month, claim) = (at.employer, at.month, at.claim);
    match kind {
        CommandKind::AddRate => Ok(Command::AddRate(read_rate(alloc, body)?)),
        CommandKind::Register => Ok(Command::Register(read_registration(alloc, body)?)),
        CommandKind::EndMembership => Ok(Command::EndMembership(read_end(alloc, employer, body)?)),
        CommandKind::Report => Ok(Command::Report(read_report(alloc, employer, month, body)?)),
        CommandKind::Correct => {
            let correction = read_correction(alloc, employer, month, body)?;
            Ok(Command::Correct(correction))
        }
        CommandKind::Claim => Ok(Command::Claim(read_claim(alloc, employer, body)?)),
        CommandKind::Withdraw => {
            read_nothing(body)?;
            Ok(Command::Withdraw(Withdrawal { employer, claim }))
        }
        CommandKind::Release => {
            read_nothing(body)?;
            Ok(Command::Release(claim))
        }
        CommandKind::PayoutList => {
            read_nothing(body)?;
            Ok(Command::PayoutList)
        }
        CommandKind::RemindRun => {
            read_nothing(body)?;
            Ok(Command::RemindRun)
        }
        CommandKind::ImportBank => {
            let bytes = Vec::from_slice(alloc, body)?;
            Ok(Command::ImportBank(BankFile::new(bytes)))
        }
        CommandKind::Assign => Ok(Command::Assign(read_assignment(alloc, body)?)),
    }
}

/// The query of this kind about the path's parameters.
fn query_for(kind: QueryKind, at: Parameters) -> Query
    ensures { result ≡ query_for kind at }
{
    let employer = at.employer;
    match kind {
        QueryKind::Owed => Query::Owed { employer },
        QueryKind::Statement => Query::Statement { employer },
        QueryKind::Worker => Query::Worker { worker: at.worker },
        QueryKind::Suspense => Query::Suspense,
        QueryKind::Payout => Query::Payout { list: at.list },
        QueryKind::Reminder => Query::Reminder { run: at.run },
    }
}

/// The number of a command.
fn number_of(head: &RequestHead) -> Result<RequestNo, BodyFault>
    ensures { Gives result (number_of (heading head.now)) }
{
    let Some(text) = &head.request_number else {
        return Err(BodyFault::Bad(Member::RequestNumber));
    };
    match number_spelled(text.as_slice()) {
        Some(number) => Ok(number),
        None => Err(BodyFault::Bad(Member::RequestNumber)),
    }
}

/// The number of a request that the text spells.
fn number_spelled(text: &[u8]) -> Option<RequestNo>
    ensures { result ≡ number_spelled text.now }
{
    let Some(number) = read_number(text) else {
        return None;
    };
    RequestNo::new(number)
}
