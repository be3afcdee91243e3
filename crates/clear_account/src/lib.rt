//! A firm's account: what it owes for each month, what it has paid, and which payment pays which
//! month.
//!
//! Payments in order of day and serial pay charges in month order, each cent of the payments the
//! cent of the charges at the same place. A keeper is seen as its two lists; its pieces, open
//! parts, weights and sums are the definitions of `specs/` over these lists, whatever it keeps
//! besides. `Walk` tells what is paid of each charge in one walk along both lists, from any charge
//! on. A change and `pieces` may take memory, and a refusal leaves the keeper as it was. That a call with
//! memory at hand succeeds is shown by tests.
//!
//! `Kept` meets all that `Plain` meets, and keeps its pieces: a change makes anew only those that
//! reach beyond the place in cents at which the account changes, and `turns` bounds its work by the
//! charges and payments there. `refill` gives the pieces of any suffix of an account.
#![tactic(auto)]

pub mod entries;
pub mod keeper;
pub mod kept;
pub mod laws;
mod lists;
pub mod owed;
pub mod places;
pub mod plain;
pub mod refill;
mod rework;
pub mod settled;
pub mod turns;
mod weights;
