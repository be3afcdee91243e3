//! What the records of a firm or of a worker say of it on a day, as the documents tell it.
//!
//! `statement_head` tells what the records of a firm say of its statement: each charge as it stands,
//! its credits for interest, the months without a report, and what is prepaid, in arrears and owed in
//! interest. It takes one step for each credit for interest, for each charge a search among the reports
//! and two among the rates, and for each member month before the day's one among the rates and, where
//! its report is overdue, one among the charges. `interest_arrears` and `missing_months` say the same
//! of interest and of reports for a release or a reminder run.
//! `worker_account` tells what the records of a worker say: what it has earned, by firm, then month,
//! the claims for it that aren't withdrawn, and its balance. It takes one step for each line and each
//! claim, and for each line a search among the rates. `earned_cents` and `claimed_cents` say the same
//! of the balance for a claim. Where the records are those of a firm or of a worker in a lawful book,
//! `statement_head` and `worker_account` tell what the book says, and only want of memory refuses them.
#![tactic(auto)]

pub mod arrears;
pub mod balance;
mod charges;
mod firm;
pub mod missing;
pub mod statement;
mod versions;
pub mod worker;
