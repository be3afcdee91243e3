//! The bytes of an answer.
ghost use Rattle.std.specs.Prelude.{◌≡◌, ◌++◌, codes, false, true, IfOk, is_ok, if◌then◌else◌, string_bytes};
ghost use Rattle.clear_book.specs.declared.outcomes.Answer.TheVariants.{Owed};
ghost use Rattle.clear_book.specs.declared.outcomes.Reply.TheVariants.{Listed, Released, Reminded};
ghost use Rattle.clear_book.specs.declared.rules.Rule.TheVariants.{Memory, Failed};
ghost use Rattle.clear_answers.specs.Said.{refused_by};
ghost use Rattle.clear_answers.specs.Answer.{framing_status, status_by, status_of};
ghost use Rattle.clear_answers.specs.Answer.{detail_of, quoted, refused_body, reply_body};
ghost use Rattle.clear_answers.specs.Answer.{query_body, body_of, content_type, allow_field};
ghost use Rattle.clear_answers.specs.Answer.{further_field, first_lines};
ghost use Rattle.clear_answers.specs.Answer.{answer_of, head_of};

use crate::said::{Extra, Refused, Said};
use clear_book::carried::carried_text;
use clear_book::numbers::{ListNo, RunNo};
use clear_book::outcomes::{Answer, Reply, Settlement};
use clear_money::bytes::append_number;
use clear_wire::rule::FramingStatus;
use serde_json::Value;
use std::alloc::{AllocError, Global};

/// The status of a body whose length isn't clear.
fn framing_status(extra: &Extra) -> &'static [u8]
    ensures { result.now ≡ framing_status extra.now }
{
    match extra {
        Extra::Status(FramingStatus::NotImplemented) => b"501 Not Implemented",
        Extra::Status(FramingStatus::ExpectationFailed) => b"417 Expectation Failed",
        Extra::Status(FramingStatus::LengthRequired) => b"411 Length Required",
        Extra::Status(FramingStatus::BadRequest) => b"400 Bad Request",
        Extra::Nothing | Extra::Allow(_) | Extra::Member(_) => b"400 Bad Request",
    }
}

/// The status of a refusal, by the number of its rule.
fn status_by(number: u8, extra: &Extra) -> &'static [u8]
    ensures { result.now ≡ status_by number extra.now }
{
    match number {
        1 | 8 => b"400 Bad Request",
        2 => b"413 Content Too Large",
        3 => framing_status(extra),
        4 => b"404 Not Found",
        5 => b"405 Method Not Allowed",
        6 => b"401 Unauthorized",
        7 => b"403 Forbidden",
        9..=39 => b"409 Conflict",
        40 => b"503 Service Unavailable",
        _ => b"500 Internal Server Error",
    }
}

fn status_of(said: &Said) -> &'static [u8]
    ensures { result.now ≡ status_of said.now }
{
    match said {
        Said::Reply(_) | Said::Answer(_) => b"200 OK",
        Said::No(refused) => status_by(refused.rule.number(), &refused.extra),
    }
}

fn detail_of(alloc: Global, refused: &Refused) -> Result<String, AllocError>
    ensures { IfOk result (λ text. string_bytes text ≡ detail_of refused.now) }
{
    match &refused.extra {
        Extra::Member(member) => String::from_str(alloc, member.word()),
        Extra::Nothing | Extra::Status(_) | Extra::Allow(_) => {
            carried_text(alloc, refused.rule.carried())
        }
    }
}

/// A text as JSON writes it, with its quotation marks.
fn quoted(alloc: Global, text: String) -> Result<Vec<u8>, AllocError>
    ensures { IfOk result (λ bytes. bytes.items ≡ quoted (string_bytes text)) }
{
    Value::String(text).to_vec(alloc)
}

#[tactic(auto, unfolding(crate::specs::Answer::refused_body))]
fn refused_body(alloc: Global, refused: &Refused) -> Result<Vec<u8>, AllocError>
    ensures { IfOk result (λ body. body.items ≡ refused_body refused.now) }
{
    let detail = quoted(alloc, detail_of(alloc, refused)?)?;
    let mut body = Vec::from_slice(alloc, b"{\"detail\":")?;
    body.extend_from_slice(detail.as_slice())?;
    body.extend_from_slice(b",\"name\":\"")?;
    body.extend_from_slice(refused.rule.name().as_bytes())?;
    append_number(&mut body, b"\",\"rule\":", u64::from(refused.rule.number()))?;
    body.extend_from_slice(b"}")?;
    Ok(body)
}

#[tactic(auto, unfolding(crate::specs::Answer::reply_body))]
fn reply_body(alloc: Global, reply: &Reply) -> Result<Vec<u8>, AllocError>
    ensures { IfOk result (λ body. body.items ≡ reply_body reply.now) }
{
    match reply {
        Reply::Done => Vec::from_slice(alloc, b"{\"done\":true}"),
        Reply::Reported { version, charge } => {
            let mut body = Vec::new(alloc);
            append_number(&mut body, b"{\"charge\":", *charge)?;
            append_number(&mut body, b",\"version\":", u64::from(*version))?;
            body.extend_from_slice(b"}")?;
            Ok(body)
        }
        Reply::Imported { new, repeats } => {
            let mut body = Vec::new(alloc);
            append_number(&mut body, b"{\"new\":", *new)?;
            append_number(&mut body, b",\"repeats\":", *repeats)?;
            body.extend_from_slice(b"}")?;
            Ok(body)
        }
        Reply::Claimed { claim } => {
            let mut body = Vec::new(alloc);
            append_number(&mut body, b"{\"claim\":", u64::from(claim.number()))?;
            body.extend_from_slice(b"}")?;
            Ok(body)
        }
        Reply::Released(settlement) => settlement_body(alloc, settlement),
        Reply::Listed { list, items, total } => list_body(alloc, *list, *items, *total),
        Reply::Reminded { run, firms } => run_body(alloc, *run, *firms),
    }
}

#[tactic(auto, unfolding(crate::specs::Answer::reply_body))]
fn settlement_body(alloc: Global, settlement: &Settlement) -> Result<Vec<u8>, AllocError>
    ensures { IfOk result (λ body. body.items ≡ reply_body (Released settlement.now)) }
{
    let mut body = Vec::new(alloc);
    append_number(&mut body, b"{\"paid\":", settlement.paid)?;
    append_number(
        &mut body,
        b",\"to_contributions\":",
        settlement.to_contributions,
    )?;
    append_number(&mut body, b",\"to_interest\":", settlement.to_interest)?;
    body.extend_from_slice(b"}")?;
    Ok(body)
}

#[tactic(auto, unfolding(crate::specs::Answer::reply_body))]
fn list_body(alloc: Global, list: ListNo, items: u64, total: u64) -> Result<Vec<u8>, AllocError>
    ensures { IfOk result (λ body. body.items ≡ reply_body (Listed list items total)) }
{
    let mut body = Vec::new(alloc);
    append_number(&mut body, b"{\"items\":", items)?;
    append_number(&mut body, b",\"list\":", u64::from(list.number()))?;
    append_number(&mut body, b",\"total\":", total)?;
    body.extend_from_slice(b"}")?;
    Ok(body)
}

#[tactic(auto, unfolding(crate::specs::Answer::reply_body))]
fn run_body(alloc: Global, run: RunNo, firms: u64) -> Result<Vec<u8>, AllocError>
    ensures { IfOk result (λ body. body.items ≡ reply_body (Reminded run firms)) }
{
    let mut body = Vec::new(alloc);
    append_number(&mut body, b"{\"firms\":", firms)?;
    append_number(&mut body, b",\"run\":", u64::from(run.number()))?;
    body.extend_from_slice(b"}")?;
    Ok(body)
}

#[tactic(auto, unfolding(crate::specs::Answer::query_body))]
fn owed_body(
    alloc: Global,
    charged: u64,
    credited: u64,
    arrears: u64,
    prepaid: u64,
) -> Result<Vec<u8>, AllocError>
    ensures { IfOk result (λ body. body.items
        ≡ query_body (Owed charged credited arrears prepaid)) }
{
    let mut body = Vec::new(alloc);
    append_number(&mut body, b"{\"arrears\":", arrears)?;
    append_number(&mut body, b",\"charged\":", charged)?;
    append_number(&mut body, b",\"credited\":", credited)?;
    append_number(&mut body, b",\"prepaid\":", prepaid)?;
    body.extend_from_slice(b"}")?;
    Ok(body)
}

/// What the body of an answer is.
fn content_type(said: &Said) -> &'static [u8]
    ensures { result.now ≡ content_type said.now }
{
    match said {
        Said::Answer(Answer::Text(_)) => b"text/plain; charset=utf-8",
        Said::Answer(Answer::Owed { .. }) | Said::Reply(_) | Said::No(_) => b"application/json",
    }
}

/// The field that lists the methods of a path, where they are told.
fn allow_field(alloc: Global, extra: &Extra) -> Result<Vec<u8>, AllocError>
    ensures { IfOk result (λ field. field.items ≡ allow_field extra.now) }
{
    match extra {
        Extra::Allow(allow) => {
            let mut field = Vec::from_slice(alloc, b"Allow: ")?;
            field.extend_from_slice(allow.text().as_bytes())?;
            field.extend_from_slice(b"\r\n")?;
            Ok(field)
        }
        Extra::Nothing | Extra::Status(_) | Extra::Member(_) => Ok(Vec::new(alloc)),
    }
}

/// The field that asks for a key where none was known, or lists the methods of a path.
fn further_field(alloc: Global, said: &Said) -> Result<Vec<u8>, AllocError>
    ensures { IfOk result (λ field. field.items ≡ further_field said.now) }
{
    match said {
        Said::No(refused) => {
            if refused.rule.number() == 6 {
                Vec::from_slice(alloc, b"WWW-Authenticate: Office-Key\r\n")
            } else {
                allow_field(alloc, &refused.extra)
            }
        }
        Said::Reply(_) | Said::Answer(_) => Ok(Vec::new(alloc)),
    }
}

/// The lines up to the length of the body.
#[tactic(auto, unfolding(crate::specs::Answer::first_lines))]
fn first_lines(alloc: Global, said: &Said, length: usize) -> Result<Vec<u8>, AllocError>
    ensures { IfOk result (λ text. text.items ≡ first_lines said.now length) }
{
    let mut text = Vec::from_slice(alloc, b"HTTP/1.1 ")?;
    text.extend_from_slice(status_of(said))?;
    text.extend_from_slice(b"\r\nContent-Type: ")?;
    text.extend_from_slice(content_type(said))?;
    append_number(&mut text, b"\r\nContent-Length: ", length as u64)?;
    text.extend_from_slice(b"\r\n")?;
    Ok(text)
}

/// The lines up to the empty one, which ends them.
#[tactic(auto, unfolding(crate::specs::Answer::head_of))]
fn head_of(alloc: Global, said: &Said, length: usize, close: bool) -> Result<Vec<u8>, AllocError>
    ensures { IfOk result (λ head. head.items ≡ head_of said.now length close) }
{
    let further = further_field(alloc, said)?;
    let mut head = first_lines(alloc, said, length)?;
    head.extend_from_slice(further.as_slice())?;
    let closing: &[u8] = if close { b"Connection: close\r\n" } else { b"" };
    head.extend_from_slice(closing)?;
    head.extend_from_slice(b"\r\n")?;
    Ok(head)
}

/// Appends the answer: its head, and the body as it is. `close`: the answer says that the stream
/// ends. `bare`: it has no body. A document is copied once, from where it was made. An `Err` leaves
/// the bytes as they were.
#[tactic(auto, unfolding(crate::specs::Answer::query_body))]
pub fn answer_bytes(
    said: &Said,
    close: bool,
    bare: bool,
    out: &mut Vec<u8>,
) -> Result<(), AllocError>
    ensures { out.new.items ≡ (if is_ok result
        then out.old.items ++ answer_of said.now close bare else out.old.items) }
{
    match said {
        Said::Answer(Answer::Text(document)) => {
            append_answer(said, close, bare, document.as_str().as_bytes(), out)
        }
        Said::Answer(
            Answer::Owed {
                charged,
                credited,
                arrears,
                prepaid,
            },
        ) => {
            let body = owed_body(*out.allocator(), *charged, *credited, *arrears, *prepaid)?;
            append_answer(said, close, bare, body.as_slice(), out)
        }
        Said::Reply(reply) => {
            let body = reply_body(*out.allocator(), reply)?;
            append_answer(said, close, bare, body.as_slice(), out)
        }
        Said::No(refused) => {
            let body = refused_body(*out.allocator(), refused)?;
            append_answer(said, close, bare, body.as_slice(), out)
        }
    }
}

/// Appends the answer, whose body is this. An `Err` leaves the bytes as they were.
fn append_answer(
    said: &Said,
    close: bool,
    bare: bool,
    body: &[u8],
    out: &mut Vec<u8>,
) -> Result<(), AllocError>
    requires { body.now ≡ body_of said.now }
    ensures { out.new.items ≡ (if is_ok result
        then out.old.items ++ answer_of said.now close bare else out.old.items) }
{
    let head = head_of(*out.allocator(), said, body.len(), close)?;
    let before = out.len();
    out.extend_from_slice(head.as_slice())?;
    if bare {
        return Ok(());
    }
    match out.extend_from_slice(body) {
        Ok(()) => Ok(()),
        Err(error) => {
            out.truncate(before);
            Err(error)
        }
    }
}

/// The answer for want of memory, as a fixed text, which takes none.
pub fn memory_text(close: bool, bare: bool) -> &'static [u8]
    ensures { result.now ≡ answer_of (refused_by Memory) close bare }
{
    match (close, bare) {
        (false, false) => {
            b"HTTP/1.1 503 Service Unavailable\r\nContent-Type: application/json\r\n\
                Content-Length: 39\r\n\r\n{\"detail\":\"\",\"name\":\"Memory\",\"rule\":40}"
        }
        (false, true) => {
            b"HTTP/1.1 503 Service Unavailable\r\nContent-Type: application/json\r\n\
                Content-Length: 39\r\n\r\n"
        }
        (true, false) => {
            b"HTTP/1.1 503 Service Unavailable\r\nContent-Type: application/json\r\n\
                Content-Length: 39\r\nConnection: close\r\n\
                \r\n{\"detail\":\"\",\"name\":\"Memory\",\"rule\":40}"
        }
        (true, true) => {
            b"HTTP/1.1 503 Service Unavailable\r\nContent-Type: application/json\r\n\
                Content-Length: 39\r\nConnection: close\r\n\r\n"
        }
    }
}

/// The answer of an office that had failed before, which ends the stream: a fixed text, which takes
/// no memory.
pub fn failed_text() -> &'static [u8]
    ensures { result.now ≡ answer_of (refused_by Failed) true false }
{
    b"HTTP/1.1 500 Internal Server Error\r\nContent-Type: application/json\r\n\
        Content-Length: 39\r\nConnection: close\r\n\
        \r\n{\"detail\":\"\",\"name\":\"Failed\",\"rule\":42}"
}
