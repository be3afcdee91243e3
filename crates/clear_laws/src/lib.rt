//! The laws of the book: what follows from the definitions of `clear_book` alone.
//!
//! Runs keep a book lawful, no sum over a lawful book leaves its type, no cent of it is lost, and
//! one table stands for it. `examples` shows what the definitions come to in small cases, and `limits`
//! where rules begin. There is no code here: a law has no parameters and no effect, and its contract is what it says.
#![tactic(auto)]

pub mod examples;
pub mod laws;
pub mod limits;
