//! What a change of an account leaves of its rows, and what it writes anew. Each function does
//! nothing: its contract is the law.
ghost use Rattle.clear_kept.specs.Changes.{ChargeLeavesAll, ChargePut, ChargeRewrites};
ghost use Rattle.clear_kept.specs.Changes.{ChargeRowsStand, CreditPut, CreditRowsStand};
ghost use Rattle.clear_kept.specs.Changes.{CreditTaken, CreditsLeaveAll, CreditsRewrite};
ghost use Rattle.clear_kept.specs.Changes.{RemovedReachBeyond};
ghost use Rattle.clear_kept.specs.Dated.{DatedRows, NamesPayments, RowsTellPieces};
ghost use Rattle.clear_kept.specs.Owing.{ArrearsFromRows, ChargedFromRows, CreditedFromRows};
ghost use Rattle.clear_kept.specs.Owing.{InterestFromRows, OpenFromRows, RowsInRange};
ghost use Rattle.clear_kept.specs.Owing.{WeightFromRow};
ghost use Rattle.clear_kept.specs.Weighed.{ToldByRows};

/// A changed charge: the rows of its month or later, of the first payment beyond its place or
/// later, are written anew, and the others stand.
pub fn law_charge_rewrites()
    ensures { ChargeRewrites }
{}

/// A changed charge that no payment reaches changes no piece.
pub fn law_charge_leaves_all()
    ensures { ChargeLeavesAll }
{}

/// The right rows that are removed, from the first charge and the first payment beyond a place on, are
/// those that reach beyond it.
pub fn law_removed_reach_beyond()
    ensures { RemovedReachBeyond }
{}

/// Changed payments: the rows of the first charge beyond their place or later, of the first changed
/// payment or later, are written anew, and the others stand.
pub fn law_credits_rewrite()
    ensures { CreditsRewrite }
{}

/// Changed payments that no charge reaches change no piece.
pub fn law_credits_leave_all()
    ensures { CreditsLeaveAll }
{}

/// A changed charge leaves the rows of charges of earlier months.
pub fn law_charge_rows_stand()
    ensures { ChargeRowsStand }
{}

/// Changed payments leave the rows of charges that end at or below their place.
pub fn law_credit_rows_stand()
    ensures { CreditRowsStand }
{}

/// A charge that is put in its place leaves those before it.
pub fn law_charge_put()
    ensures { ChargePut }
{}

/// A payment that is put in its place leaves those before it, and before any earlier one.
pub fn law_credit_put()
    ensures { CreditPut }
{}

/// Payments that are taken out leave those before them.
pub fn law_credit_taken()
    ensures { CreditTaken }
{}

/// The pieces are those of the rows.
pub fn law_rows_tell_pieces()
    ensures { RowsTellPieces }
{}

/// What is open of a charge, and its weight, are told by the rows of its month.
pub fn law_told_by_rows()
    ensures { ToldByRows }
{}

/// The weight of a charge on a day is that of its row, and what is open once for each month begun.
pub fn law_weight_from_row()
    ensures { WeightFromRow }
{}

/// The pieces of a suffix, each with the day of its payment, are its rows.
pub fn law_dated_rows()
    ensures { DatedRows }
{}

/// The pieces of a suffix name its payments.
pub fn law_names_payments()
    ensures { NamesPayments }
{}

/// What is open of the charges due before a day is the arrears.
pub fn law_arrears_from_rows()
    ensures { ArrearsFromRows }
{}

/// The rows of an account lie in their ranges.
pub fn law_rows_in_range()
    ensures { RowsInRange }
{}

/// They tell what is charged.
pub fn law_charged_from_rows()
    ensures { ChargedFromRows }
{}

/// What is open in all is what is charged, less all payments.
pub fn law_open_from_rows()
    ensures { OpenFromRows }
{}

/// Where some part is open, the payments are what is charged less what is open, and nothing is
/// prepaid.
pub fn law_credited_from_rows()
    ensures { CreditedFromRows }
{}

/// The interest of all charges on a day that no payment comes after is told by their rows.
pub fn law_interest_from_rows()
    ensures { InterestFromRows }
{}
