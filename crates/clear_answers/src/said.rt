//! What is said to a request.

use clear_book::outcomes::{Answer, Reply};
pub use clear_routes::refused::{Extra, Refused};

/// What is said to a request.
#[derive(Drop)]
pub enum Said {
    Reply(Reply),
    Answer(Answer),
    No(Refused),
}
