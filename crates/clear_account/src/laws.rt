//! Laws of accounts, over the definitions alone. Each function does nothing: its contract is the
//! law.
ghost use Rattle.clear_account.specs.Laws.{CreditsKept, FewPieces, InterestByCharge};
ghost use Rattle.clear_account.specs.Laws.{InterestPerHundred, InterestRoundedOnce, OnePiece, PiecesSum};
ghost use Rattle.clear_account.specs.Laws.{SharesSum, WeightByPieces};

/// The shares of a charge sum to what the payments reach of it.
pub fn law_shares_sum()
    ensures { SharesSum }
{}

/// The pieces sum to the lesser of all charges and all payments.
pub fn law_pieces_sum()
    ensures { PiecesSum }
{}

/// The pieces and what is prepaid sum to the payments.
pub fn law_credits_kept()
    ensures { CreditsKept }
{}

/// The weight month by month is the weight piece by piece, and that of the open part.
pub fn law_weight_by_pieces()
    ensures { WeightByPieces }
{}

/// Each charge and each payment with a share have one piece, and no other piece names the two.
pub fn law_one_piece()
    ensures { OnePiece }
{}

/// There are at most as many pieces as charges and payments together.
pub fn law_few_pieces()
    ensures { FewPieces }
{}

/// Interest is rounded down once for a charge, and not for its pieces or months.
pub fn law_interest_rounded_once()
    ensures { InterestRoundedOnce }
{}

/// It is rounded down for each charge by itself, at the rate of the charge's own month.
pub fn law_interest_by_charge()
    ensures { InterestByCharge }
{}

/// Of a charge that stays open, each 100.00 euros bear for each begun month as many cents as the rate
/// has hundredths of a percent.
pub fn law_interest_per_hundred()
    ensures { InterestPerHundred }
{}
