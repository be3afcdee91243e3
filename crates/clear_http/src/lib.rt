//! The serve loop, and the desk that it serves: the requests in a stream's bytes are answered one
//! after another.
//!
//! What was written is the answers to the items of the stream, which its bytes alone decide. After
//! a fault it is those to the first items, whole, and a front of the next one's that isn't all of
//! it: an answer that went out whole is counted. `Read` and `Write` come just where a call of this
//! reader or writer failed, `Reads` only after all reads that a stream may make. Where a rule ended
//! the stream it is told so, since bytes behind it weren't read. The loop knows nothing of the trade:
//! it goes by what a `Responder` may say.
//!
//! `desk::serve` is that loop over an office, with the keys of its callers, on one day. Whatever
//! lawful book the store stands for, what is said to the requests of a stream are the answers of
//! the clearing machine over that book, and the store then stands for the book that the machine
//! leaves. Whatever the store holds, what access doesn't allow is refused for that.
//!
//! What a stream needs, and what its requests are answered with, can be named by this crate, too.
#![tactic(auto)]

pub mod desk;
pub mod serve;

pub use clear_answers::{answer, said};
pub use clear_callers::directory;
pub use clear_routes::call::find_call as to_command;
pub use clear_routes::routes;
pub use clear_wire::{counted, input, request};
