//! Money, months, days and rates of the holiday fund.
//!
//! A month is seen as a number, a day as its day number, an amount as its cents and a rate row as
//! its six numbers; a value of these types is always within its range. What a caller learns is
//! exact: a text reads as a value just if it is that value's spelling, and each day, contribution
//! and count of months is its definition in `specs/`. Only a list of rate rows takes memory, and it
//! is left unchanged where a row is refused.
#![tactic(auto)]

pub mod bytes;
pub mod days;
pub mod laws;
pub mod limits;
pub mod months;
pub mod names;
pub mod numbers;
pub mod rates;
