//! The answers: what is said to a request, and its bytes.
//!
//! `Said` is a reply, an answer to a query, or the rule that refuses the request and what is told
//! beside it. `answer_bytes` appends exactly the bytes of its answer, or, for want of memory,
//! leaves what was there. The status of a refusal goes by the number of its rule. Its detail is
//! the part of the request that is wrong, or what the rule carries, as JSON writes a text. Where a
//! path lacks the method, the field `Allow` lists those that it has. A document is sent as it is,
//! as `text/plain`, and all other bodies are `application/json`. `memory_text` and `failed_text`
//! are two answers as fixed texts, which take no memory.
#![tactic(auto)]

pub mod answer;
pub mod said;
