//! What a stream goes on with: its requests and its end.
ghost use Rattle.std.specs.Prelude.{◌≡◌, ◌+◌, ◌<◌, true, false, [], IfOk, IsOkAnd, Ok, Err, length, max};
ghost use Rattle.std.specs.Io.KnownBytes.{IsAtEnd};
ghost use Rattle.clear_wire.specs.Input.{reader_of, unused_of, reads_made, has_ended};
ghost use Rattle.clear_wire.specs.Input.{unread, stream};
ghost use Rattle.clear_wire.specs.Input.{NotesFault, CountsReads, KeepsBorrow};
ghost use Rattle.clear_wire.specs.Known.{Leads};
ghost use Rattle.clear_wire.specs.Request.{next_item, is_last, held_limit};
ghost use Rattle.clear_wire.specs.Stream.{left_behind, Next};

use crate::counted::NotedRead;
use crate::head::RequestHead;
use crate::input::{Input, Place, ReadFault};
use crate::limits::MAX_READS;
use crate::rule::StreamRule;

/// A request with its body.
#[derive(Drop)]
pub struct Request {
    pub head: RequestHead,
    pub body: Vec<u8>,
}

/// What a stream goes on with.
#[derive(Drop)]
pub enum Item {
    /// A request, all of whose bytes came.
    Whole(Request),
    /// The rule that ends the stream. `bare`: the head was read whole and its method is `HEAD`, so
    /// that the answer has no body.
    Bad { rule: StreamRule, bare: bool },
    /// The end of the input, with no byte of a further head before it.
    End,
}

/// Whether the stream ends with this: only behind a whole request it goes on.
fn is_last(next: &Result<Item, ReadFault>) -> bool
    ensures { result ≡ is_last next.now }
{
    !matches!(next, Ok(Item::Whole(_)))
}

/// What the stream goes on with, reading as far as it needs: behind a request fewer bytes are held
/// than one read asks for, or no more than before.
///
/// After all but a whole request the stream has ended: a further call reads nothing and gives
/// `Item::End`. The fault `Read` comes just if a call of the reader failed, and `Reads` only once
/// all reads that a stream may make were made; then it always comes where no byte is held.
pub fn read_request<R: NotedRead>(input: &mut Input<R>) -> Result<Item, ReadFault>
    ensures next { IfOk result (λ item. Leads (λ bytes rest. Next bytes (next_item item) rest)
        (stream R.remaining input.old) (stream R.remaining input.new)) }
    ensures ends { has_ended input.new ≡ is_last result }
    ensures over { has_ended input.old ≡ true
        → (result ≡ Ok Item.End) × (input.new ≡ input.old) }
    ensures end { has_ended input.old ≡ false → IsOkAnd result (λ item. item ≡ Item.End)
        → IsAtEnd (R.remaining (reader_of input.new)) }
    ensures ahead { IfOk result (λ item. length (unused_of input.new)
        < max (length (unused_of input.old) + 1) (held_limit item)) }
    ensures limit { result ≡ Err ReadFault.Reads → reads_made input.new ≡ MAX_READS }
    ensures spent { has_ended input.old ≡ false → reads_made input.old ≡ MAX_READS
        → unused_of input.old ≡ [] → result ≡ Err ReadFault.Reads }
    ensures fault { NotesFault R.noted input.old input.new result }
    ensures reads { CountsReads R.noted input.old input.new }
    ensures borrow { KeepsBorrow R.noted input.old input.new }
{
    if input.has_ended() {
        return Ok(Item::End);
    }
    let next = read_item(input);
    input.set_ended(is_last(&next));
    next
}

/// What a stream that hasn't ended goes on with.
fn read_item<R: NotedRead>(input: &mut Input<R>) -> Result<Item, ReadFault>
    ensures next { IfOk result (λ item. Leads (λ bytes rest.
        Next bytes (next_item item) (left_behind (next_item item) rest))
        (unread R.remaining input.old) (unread R.remaining input.new)) }
    ensures end { IsOkAnd result (λ item. item ≡ Item.End)
        → IsAtEnd (R.remaining (reader_of input.new)) }
    ensures ahead { IfOk result (λ item. length (unused_of input.new)
        < max (length (unused_of input.old) + 1) (held_limit item)) }
    ensures limit { result ≡ Err ReadFault.Reads → reads_made input.new ≡ MAX_READS }
    ensures spent { reads_made input.old ≡ MAX_READS → unused_of input.old ≡ []
        → result ≡ Err ReadFault.Reads }
    ensures fault { NotesFault R.noted input.old input.new result }
    ensures reads { CountsReads R.noted input.old input.new }
    ensures borrow { KeepsBorrow R.noted input.old input.new }
{
    match input.find_head()? {
        Place::Head(len) => input.take_request(len),
        Place::Nothing => Ok(Item::End),
        Place::Unended => Ok(Item::Bad {
            rule: StreamRule::BadHead,
            bare: false,
        }),
        Place::TooLong => Ok(Item::Bad {
            rule: StreamRule::TooLarge,
            bare: false,
        }),
    }
}
