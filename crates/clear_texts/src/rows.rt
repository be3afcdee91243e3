//! The rows of documents, one at a time.
ghost use Rattle.std.specs.Prelude.{IfErr, IfOk};

use clear_book::documents::{ChargeState, Payment};
use clear_values::causes::Fault;

/// The rows of an account: 100,000 credits, and twice 2,400 months.
pub const MAX_ROWS: u32 = 104_800;

/// The charge of a month, and at most one piece of a credit that pays it. A charge with several
/// pieces is as many rows, one after the other.
#[derive(Drop)]
pub struct ChargeRow {
    pub state: ChargeState,
    pub piece: Option<Payment>,
}

/// A source of the rows of a document.
pub trait RowSource {
    ghost use Rattle.std.specs.Prelude.{Option};
    ghost use Rattle.clear_values.specs.declared.causes.Fault.{Fault};

    /// What the document tells one after another.
    type Row: Drop;

    /// A call at the first source gives this, and leaves the second.
    ghost next_gives: { Self → Option Self.Row → Self → Type 0 };

    /// A call at the first source is refused for this, and leaves the second.
    ghost next_refuses: { Self → Fault → Self → Type 0 };

    /// The next row, and none past the last.
    fn next(&mut self) -> Result<Option<Self::Row>, Fault>
        ensures gives { IfOk result (λ found. next_gives self.old found self.new) }
        ensures refuses { IfErr result (λ fault. next_refuses self.old fault self.new) };
}
