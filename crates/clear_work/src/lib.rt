//! What is done with an office that was opened, whatever keeps its records: the work that the words of a
//! command line ask for, a look at its store, and the requests of a stream; what is said of it, and why
//! the program ends before that is told in one line, with a status.
//!
//! Contracts say what work does to the office, what is said of it and told meanwhile, and the status and
//! the line of each reason to stop. Of sockets tests compare what no contract says.
#![tactic(auto)]

pub mod jobs;
pub mod says;
pub mod stop;
pub mod stream;
pub mod work;
