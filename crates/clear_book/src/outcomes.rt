//! What a call is answered: a reply, an answer, or the rule that refuses it.

use crate::documents::Document;
use crate::rules::Rule;
pub use clear_values::replies::{Reply, Settlement};

/// What a query is answered.
#[derive(Drop)]
pub enum Answer {
    /// All contributions, all payments of contributions, what is in arrears, and what is prepaid,
    /// in cents.
    Owed {
        charged: u64,
        credited: u64,
        arrears: u64,
        prepaid: u64,
    },
    /// A document's text.
    Text(Document),
}

/// What a call of a run is answered.
#[derive(Drop)]
pub enum Outcome {
    /// The command is accepted.
    Replied(Reply),
    /// The query is answered.
    Answered(Answer),
    /// The rule that refuses it; the book stays as it was.
    Refused(Rule),
}
