//! The pieces that the tables keep of a firm, allocated anew after a change, and what is open of
//! its contributions.
//!
//! A change of a contribution and new credits have a place in a firm's account. What ends at or
//! below it stands; what reaches beyond it is allocated by one `refill`, and its pieces are put
//! in the place of those that stood for it. So are the rows of the contributions from a changed one
//! on, or that reach beyond the place of new credits, each with what is open of it and with its weight
//! so far. So a request allocates what it changes, and no more. New credits that come behind all
//! others pay what is open: of the contributions only those with an open part are taken then, and
//! pieces are only added.
#![tactic(auto)]

mod allocate;
mod behind;
mod charges;
mod credits;
mod firm;
pub mod keep;
mod pieces;
mod stands;
