//! The rows in which a firm's account is kept, and which of them a change writes anew.
//!
//! A piece is kept with the day of its payment, a charge with what is open of it and with its
//! weight so far: then what a firm owes, its arrears and its interest are read from rows, without a
//! walk along all that it ever paid. A change of a charge or of payments has a place in cents. The
//! laws say that the rows which end at or below it stand, that those beyond it are the pieces of
//! one `refill`, and which rows are to be removed for them; `start` finds the place, `place_pieces`
//! and `settle_from` give the rows to write, and `owing` tells from rows what a firm owes.
//!
//! `place_pieces` and `settle_from` may be refused for want of memory. No contract says that they
//! succeed with ample memory; tests do.
#![tactic(auto)]

pub mod dated;
pub mod laws;
pub mod owing;
pub mod rows;
pub mod settled;
pub mod start;
