//! The table of accepted requests.
ghost use Rattle.std.specs.Borrow.{sem, RestsIfErr};
ghost use Rattle.std.specs.Prelude.{◌≡◌, ◌≢◌, IfErr, IfOk};
ghost use Rattle.std.specs.Option.{option_map, option_to_list};
ghost use Rattle.sqlite.specs.contracts.connection.Connection.{the_row};
ghost use Rattle.clear_columns.specs.Columns.{ReadsColumn};
ghost use Rattle.clear_columns.specs.Reading.{IsLeftOn, ReadsOn};
ghost use Rattle.clear_schema.specs.Frame.{Finds, Writes};
ghost use Rattle.sqlite.specs.Values.{bound};
ghost use Rattle.clear_values.specs.Keyed.{find_row, is_held, with_row};
ghost use Rattle.clear_values.specs.Numbers.{IsRequestNo};
ghost use Rattle.clear_values.specs.RowRanges.{IsReply};
ghost use Rattle.clear_values.specs.Tables.{request_key, request_number};
ghost use Rattle.clear_schema.specs.Values as stored;
ghost use Rattle.clear_ledger.specs.Kept.{IsKept, Kept, greatest_number, kept_of, row_of};
ghost use Rattle.clear_ledger.specs.Shown.{kept_shown, number_shown};

use crate::replies::{is_reply, reply_numbers, reply_of};
use clear_columns::columns::{bytes_at, day_at, number_at};
use clear_columns::parameters::{bytes, caller as calling, day, request_no};
use clear_columns::queries::find;
use clear_columns::rows::{StoredTable, begin_rows};
use clear_money::days::Day;
use clear_schema::columns::ReplyNumbers;
use clear_schema::fault::Fault;
use clear_schema::statement::put;
use clear_schema::values::number as count;
use clear_values::callers::Caller;
use clear_values::causes::StoreCause;
use clear_values::numbers::RequestNo;
use clear_values::replies::Reply;
use sqlite::{Alter, Connection, Error, Row, Rows, Transaction};
use sqlite_value::value::ValueRef;
use std::marker::Model;

/// What is kept of an accepted request: the day on which it was accepted, the bytes of its command,
/// whatever they are, and what it was answered. A contract sees a `Kept` of `specs/Kept`.
#[derive(Drop)]
pub struct KeptRequest {
    day: Day,
    command: Vec<u8>,
    reply: Reply,
}

impl Model for KeptRequest {
    ghost use Rattle.clear_ledger.specs.Kept.{Kept};

    ghost Value = { Kept };

    ghost view = { λ a. record { day = a.day; command = a.command.items; reply = a.reply } };
}

impl KeptRequest {
    /// A request of this day, these bytes and this reply, whatever that is: `insert_request` judges it.
    pub fn new(day: Day, command: Vec<u8>, reply: Reply) -> KeptRequest
        ensures { result ≡ record { day = day; command = command.items; reply = reply } }
    {
        KeptRequest {
            day,
            command,
            reply,
        }
    }

    /// The bytes of its command.
    pub fn command(&self) -> &[u8]
        ensures { result.now ≡ self.now.command }
    {
        self.command.as_slice()
    }

    /// What it was answered: of a request that is found, a version from 1 to 10,000 and a charge of
    /// at most 5,000,000,000 cents, at most 10,000 new lines and as many repeats, the number of a
    /// claim from 1 to 50,000,000, a settlement of 1 to 100,000,000,000 cents, a payout list (a number
    /// and a count of claims from 1 to 50,000,000, at most 5,000,000,000,000,000,000 cents), or a
    /// reminder run (a number from 1 to 50,000,000, of 1 to 10,000 firms).
    pub fn reply(&self) -> Reply
        ensures { result ≡ self.now.reply }
    {
        self.reply
    }
}

/// Adds a request whose caller has none of this number yet. A reply out of its ranges is refused as
/// `Row`, and nothing is done then.
pub fn insert_request<S: Alter>(
    tx: &mut Transaction<'_, S>,
    caller: Caller,
    number: RequestNo,
    request: &KeptRequest,
) -> Result<(), Fault>
    ensures same_reference { tx.new.conn.ghost_name ≡ tx.old.conn.ghost_name }
    ensures writes { Writes S.Store tx.old.conn.now tx.new.conn.now result
        (IsReply request.now.reply)
        (λ t. is_held request_key (row_of caller number request.now) t.requests)
        (λ t. record t {
          requests = with_row request_key t.requests (row_of caller number request.now);
        }) }
{
    if !is_reply(&request.reply) {
        return Err(Fault::Store(StoreCause::Row));
    }
    put(
        tx,
        "INSERT INTO requests (caller, number, day, command, kind, a, b, c) \
         VALUES (?1, ?2, ?3, ?4, ?5, ?6, ?7, ?8)",
        &request_values(caller, number, request),
    )
}

/// What is kept of the request of this caller and number, if there is one. All clerks are one
/// caller, and who of them called is not kept.
pub fn find_request<S: Alter>(
    tx: &mut Transaction<'_, S>,
    caller: Caller,
    number: RequestNo,
) -> Result<Option<KeptRequest>, Fault>
    ensures same_reference { tx.new.conn.ghost_name ≡ tx.old.conn.ghost_name }
    ensures looks { Finds S.Store tx.old.conn.now tx.new.conn.now result IsKept
        (λ t. option_map kept_of
        (find_row request_key t.requests (request_number caller number))) }
{
    find::<S, Requests>(
        tx,
        "SELECT day, command, kind, a, b, c FROM requests WHERE caller = ?1 AND number = ?2",
        &[calling(caller), request_no(number)],
    )
}

/// The greatest number of a caller's requests, as the one row of a query, if it has made any:
/// `next_row` reads it. It is found by one search.
pub fn read_greatest<S: Alter>(
    conn: &mut Connection<S>,
    caller: Caller,
) -> Result<Rows<'_, S>, Error>
    ensures* refused { sem 𝓛 (RestsIfErr (the_row S.row S.Store) conn.entry
        (λ rows. rows.conn.ghost_name) result (IsLeftOn S.Store conn.old result)) }
    ensures same_reference { IfOk result (λ rows. rows.conn.ghost_name ≡ conn.entry.ghost_name) }
    ensures begun { IfOk result (λ rows. ReadsOn S.Store conn.old rows.conn.now number_shown
        (λ t. option_to_list (greatest_number caller t.requests))) }
{
    begin_rows::<RequestNumbers, S>(
        conn,
        "SELECT number FROM requests WHERE caller = ?1 ORDER BY number DESC LIMIT 1",
        &[calling(caller)],
    )
}

/// The table of accepted requests, of which a query shows the numbers alone.
pub struct RequestNumbers;

impl StoredTable for RequestNumbers {
    type Row = RequestNo;

    ghost shown = { number_shown };

    ghost is_in_range = { IsRequestNo };

    fn read(row: &Row) -> Result<RequestNo, Fault> {
        request_no_at(row, 0)
    }
}

// The number of a request in a column.
fn request_no_at(row: &Row, at: usize) -> Result<RequestNo, Fault>
    ensures reads { ReadsColumn row.now at result stored.number IsRequestNo }
{
    RequestNo::new(number_at(row, at)?).ok_or(Fault::Store(StoreCause::Row))
}

/// The table of accepted requests, of which a query shows all but the key.
pub struct Requests;

impl StoredTable for Requests {
    type Row = KeptRequest;

    ghost shown = { kept_shown };

    ghost is_in_range = { IsKept };

    fn read(row: &Row) -> Result<KeptRequest, Fault> {
        let reply = read_reply(row)?;
        Ok(KeptRequest {
            day: day_at(row, 0)?,
            command: bytes_at(row, 1)?,
            reply,
        })
    }
}

// The reply that a row shows.
fn read_reply(row: &Row) -> Result<Reply, Fault>
    ensures read { IfOk result (λ reply. (x : Kept) → row.now ≡ kept_shown x
        → reply ≡ x.reply) }
    ensures good { IfOk result IsReply }
    ensures cause { IfErr result (λ fault. fault ≢ Fault.Store StoreCause.Constraint) }
    ensures range { IfErr result (λ fault. fault ≡ Fault.Store StoreCause.Row
        → (x : Kept) → row.now ≡ kept_shown x → ¬ IsReply x.reply) }
{
    let numbers = read_numbers(row)?;
    match reply_of(numbers) {
        Some(reply) => Ok(reply),
        None => Err(Fault::Store(StoreCause::Row)),
    }
}

// The numbers of the reply that a row shows.
fn read_numbers(row: &Row) -> Result<ReplyNumbers, Fault>
    ensures read { IfOk result (λ numbers. (x : Kept) → row.now ≡ kept_shown x
        → numbers ≡ stored.numbers_of x.reply) }
    ensures cause { IfErr result (λ fault. fault ≢ Fault.Store StoreCause.Constraint) }
    ensures range { IfErr result (λ fault. fault ≡ Fault.Store StoreCause.Row
        → (x : Kept) → row.now ≢ kept_shown x) }
{
    Ok(ReplyNumbers {
        kind: number_at(row, 2)?,
        first: number_at(row, 3)?,
        second: number_at(row, 4)?,
        third: number_at(row, 5)?,
    })
}

// The parameters of the statement that writes a request.
fn request_values(caller: Caller, number: RequestNo, request: &KeptRequest) -> [ValueRef<'_>; 8]
    requires { IsReply request.now.reply }
    ensures { bound result ≡ stored.request_shown (row_of caller number request.now) }
{
    let reply = reply_numbers(&request.reply);
    [
        calling(caller),
        request_no(number),
        day(request.day),
        bytes(&request.command),
        count(reply.kind),
        count(reply.first),
        count(reply.second),
        count(reply.third),
    ]
}
