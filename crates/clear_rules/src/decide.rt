//! One module a command: its view, and the decision on it.

pub mod add_rate;
pub mod assign;
pub mod claim;
pub mod correct;
pub mod end;
pub mod import;
mod lines;
pub mod payout;
pub mod register;
pub mod release;
pub mod remind;
pub mod report;
pub mod settle;
pub mod withdraw;
