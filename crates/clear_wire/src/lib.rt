//! The wire: the bytes of an HTTP/1.1 connection as requests.
//!
//! `read_request` gives what a stream goes on with: a request with its body, the rule that ends
//! it, or the end of the input. It goes by the bytes alone, however a reader cuts them, and
//! `law_one_cut` says that they determine the requests of the stream. No bytes are required to be
//! good: bad ones end in a rule, within the limits of `limits`. A fault names its cause: `Read`
//! comes just if a call of the reader failed, `Reads` only once a million reads didn't, else
//! `Memory`. After all but a request the stream has ended, and nothing more is read. A reader is told
//! when a request is awaited, so that it can tell how long one takes, and a counted writer flushes the
//! writer that it holds; that either is done, no contract says: tests of slow peers show the one, and a
//! writer whose flush fails shows the other.
#![tactic(auto)]

pub mod counted;
mod fields;
mod framing;
pub mod head;
pub mod input;
pub mod laws;
pub mod limits;
mod lines;
pub mod method;
pub mod request;
pub mod rule;
