//! A store: made once, opened again after a stop, and its rows read one at a time.
ghost use Rattle.std.specs.Prelude.{◌≡◌, false, IfErr, IfOk};

use crate::runs::{Case, Desk, Found, Next, Run, is_whole, sample_desk};
use crate::script::{Came, send};
use crate::streams::answers;
use clear_bank::lines::Purpose;
use clear_bank::texts::Reference;
use clear_book::calls::Caller;
use clear_book::numbers::RequestNo;
use clear_book::rules::StoreCause;
use clear_columns::rows::next_row;
use clear_database::store::{Refusal, Store};
use clear_ledger::bank::{Bank, find_line, read_lines};
use clear_ledger::credits::{Credits, read_credits};
use clear_ledger::requests::find_request;
use clear_money::numbers::EmployerNo;
use clear_money::rates::RateTable;
use clear_office::office::Office;
use clear_schema::fault::{Fault, OpenFault};
use sqlite::{Alter, Connection, Rows, Transaction};
use std::alloc::Global;

// The number of another schema that a database tells, where it is not taken as a store for that, and the
// connection on it.
fn wrong_version<S: Alter>(tried: Result<Store<S>, Refusal<S>>) -> (Option<u64>, Connection<S>)
    requires made { IfOk tried (λ store. store.conn.in_transaction ≡ false) }
    requires left { IfErr tried (λ left. left.connection.in_transaction ≡ false) }
    ensures { result.1.in_transaction ≡ false }
{
    match tried {
        Ok(store) => (None, store.into_connection()),
        Err(Refusal { fault, connection }) => match fault {
            OpenFault::WrongVersion(number) => (Some(number), connection),
            OpenFault::Failed(_) => (Some(u64::MAX), connection),
        },
    }
}

// Whether a store is made in an empty database, which is no store, and not made again, and the connection
// on it.
fn made_once<S: Alter>(rates: &RateTable, conn: Connection<S>) -> (bool, Connection<S>)
    requires { conn.in_transaction ≡ false }
{
    let (none, conn) = wrong_version(Store::open(conn));
    let (made, conn) = wrong_version(Store::create(conn, rates));
    let (again, conn) = wrong_version(Store::create(conn, rates));
    let (found, conn) = wrong_version(Store::open(conn));
    let is_right = match (none, made, again, found) {
        (Some(0), None, Some(1), None) => true,
        _ => false,
    };
    (is_right, conn)
}

// A firm pays twice, and the later payment comes first.
const IMPORT: &str = "POST /bank HTTP/1.1\r\nHost: office\r\nOffice-Key: desk\r\n\
    Request-Number: 2\r\nContent-Length: 107\r\n\r\n\
    reference,value_date,employer,cents,purpose,note\n\
    B2,2024-04-21,1001,200000,C,\nB1,2024-02-25,1001,150000,C,\n";

const IMPORTED: &str = "HTTP/1.1 200 OK\r\nContent-Type: application/json\r\n\
    Content-Length: 21\r\n\r\n{\"new\":2,\"repeats\":0}";

// Whether an office registers the firm and adds its lines and credits.
fn adds_rows<S: Alter>(desk: &Desk, office: &mut Office<S>) -> bool {
    if !matches!(send(desk, office, 0), Came::Reply) {
        return false;
    }
    match answers(desk, office, IMPORT) {
        Some(taken) => taken.as_slice() == IMPORTED.as_bytes(),
        None => false,
    }
}

// The serial of the next credit, and 0 past the last.
fn next_credit<S: Alter>(rows: &mut Rows<'_, S>) -> Option<u64> {
    match next_row::<Credits, S>(rows) {
        Ok(Some(credit)) => Some(credit.serial),
        Ok(None) => Some(0),
        Err(_) => None,
    }
}

// The serial of the next line, and 0 past the last.
fn next_line<S: Alter>(rows: &mut Rows<'_, S>) -> Option<u64> {
    match next_row::<Bank, S>(rows) {
        Ok(Some(line)) => Some(line.serial),
        Ok(None) => Some(0),
        Err(_) => None,
    }
}

// Whether the credits come by day, one at a time.
fn reads_credits<S: Alter>(conn: &mut Connection<S>) -> bool {
    let Some(employer) = EmployerNo::new(1001) else {
        return false;
    };
    match read_credits(conn, employer, Purpose::Contribution) {
        Ok(mut rows) => {
            next_credit(&mut rows) == Some(2)
                && next_credit(&mut rows) == Some(1)
                && next_credit(&mut rows) == Some(0)
        }
        Err(_) => false,
    }
}

// Whether the lines come by their references, one at a time.
fn reads_lines<S: Alter>(conn: &mut Connection<S>) -> bool {
    match read_lines(conn) {
        Ok(mut rows) => {
            next_line(&mut rows) == Some(2)
                && next_line(&mut rows) == Some(1)
                && next_line(&mut rows) == Some(0)
        }
        Err(_) => false,
    }
}

// Whether a line is told whose day is out of the calendar.
fn tells_bad_line<S: Alter>(tx: &mut Transaction<'_, S>, reference: &Reference) -> bool {
    let put = tx.execute(
        "INSERT INTO bank (reference, serial, value, cents, purpose, note) \
         VALUES ('B1', 1, 84371, 5, 'C', '')",
        &[],
    );
    put.is_ok() && matches!(find_line(tx, reference), Err(Fault::Store(StoreCause::Row)))
}

// Whether a request is told whose reply is of no kind.
fn tells_bad_request<S: Alter>(tx: &mut Transaction<'_, S>, number: RequestNo) -> bool {
    let put = tx.execute(
        "INSERT INTO requests (caller, number, day, command, kind, a, b, c) \
         VALUES (0, 7, 19800, x'00', 9, 0, 0, 0)",
        &[],
    );
    let found = find_request(tx, Caller::Clerk, number);
    put.is_ok() && matches!(found, Err(Fault::Store(StoreCause::Row)))
}

// Both are put in a transaction that isn't committed.
fn tells_bad_rows<S: Alter>(alloc: Global, conn: &mut Connection<S>) -> bool {
    let Some(number) = RequestNo::new(7) else {
        return false;
    };
    let Ok(text) = String::from_str(alloc, "B1") else {
        return false;
    };
    let Some(reference) = Reference::of_text(text) else {
        return false;
    };
    if !conn.is_autocommit() {
        return false;
    }
    let mut tx = conn.transaction();
    tells_bad_line(&mut tx, &reference) && tells_bad_request(&mut tx, number)
}

// A store tells bad rows, and reads those that an office adds.
fn is_sound<S: Alter + Drop>(desk: &Desk, store: Store<S>) -> bool {
    let mut conn = store.into_connection();
    if !tells_bad_rows(desk.alloc, &mut conn) || !conn.is_autocommit() {
        return false;
    }
    let mut office = Office::open(desk.alloc, Store { conn });
    if !adds_rows(desk, &mut office) {
        return false;
    }
    let mut conn = office.into_store().into_connection();
    reads_credits(&mut conn) && reads_lines(&mut conn)
}

// A store that is made once, and opened once more after the machine has stopped.
#[derive(Drop)]
struct MadeOnce;

impl Case for MadeOnce {
    fn begin<S: Alter + Drop>(&mut self, desk: &Desk, conn: Connection<S>) -> Next<S> {
        match made_once(&desk.rates, conn) {
            (true, conn) => Next::Reopen(conn),
            (false, _) => Next::Done(Run::Wrong),
        }
    }

    fn after<S: Alter + Drop>(&mut self, desk: &Desk, found: Found<S>) -> Run {
        match found {
            Found::Store(store) => {
                if is_sound(desk, store) {
                    Run::Whole
                } else {
                    Run::Wrong
                }
            }
            Found::NoStore(_) => Run::Wrong,
            Found::Sent(_, _) => Run::Wrong,
        }
    }
}

fn holds(alloc: Global) -> bool {
    match sample_desk(alloc) {
        Some(desk) => is_whole(&desk, &mut MadeOnce),
        None => false,
    }
}

#[test]
fn a_store_is_made_once_and_opened_again(rt: HostRuntime) {
    assert!(rt; holds(rt.alloc()));
}
