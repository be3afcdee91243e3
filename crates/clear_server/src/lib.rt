//! The connections of a listener, served one after another, and the time that a peer has.
//!
//! No contract knows what a socket gives or takes. Whatever peers connect and send, the office goes from
//! call to call as the clearing machine does, and access guards each request.
#![tactic(auto)]

pub mod connections;
mod peer;
pub mod told;
