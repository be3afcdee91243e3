//! The words of the program's command line: one subcommand, with a word for each of its places.
//!
//! The lines are read by `clap`, which also writes the text of help. Which words say what is stated
//! by `Lines` in `specs/`, without a word of `clap`: `read_words` answers what the words say, and a
//! fault just if they say nothing or memory runs out. `ready` has what is told once connections are
//! taken, and of work that was done, as `Ready` says.
#![tactic(auto)]

mod command;
pub mod line;
mod places;
pub mod ready;
mod subcommands;
pub mod words;
