//! What a release is judged by.
ghost use Rattle.std.specs.Prelude.{◌≡◌, ◌∷◌, [], None, IfErr, IfOk, IfSome, IsSome};
ghost use Rattle.std.specs.Option.{option_map};
ghost use Rattle.clear_bank.specs.declared.lines.Purpose.TheVariants.{Contribution};
ghost use Rattle.clear_book.specs.Allocated.{StandsWeighed};
ghost use Rattle.clear_book.specs.Book.{Book, member_of};
ghost use Rattle.clear_book.specs.Judge.{day_back};
ghost use Rattle.clear_book.specs.Keyed.{find_row};
ghost use Rattle.clear_book.specs.Limits.{most_credits};
ghost use Rattle.clear_book.specs.Lines.{credit_count};
ghost use Rattle.clear_book.specs.Machine.{IsLawful};
ghost use Rattle.clear_book.specs.Own.Release.{debts_of};
ghost use Rattle.clear_book.specs.RowRanges.{AreInRange};
ghost use Rattle.clear_book.specs.Tables.{claim_key};
ghost use Rattle.clear_rules.specs.Views.Release.{AreDebts, IsReleaseView};
ghost use Rattle.clear_schema.specs.Frame.{Leaves};
ghost use Rattle.clear_schema.specs.Faults.{IsOfDisk};
ghost use Rattle.clear_schema.specs.Values.{counts_of};
ghost use Rattle.clear_debts.specs.Overdue.{overdue_told};
ghost use Rattle.clear_debts.specs.Reads.{LeavesOpen, OfTables};
ghost use Rattle.clear_views.specs.Bounds.{bound_or_count};

use clear_bank::lines::Purpose;
use clear_book::limits::MAX_CREDITS;
use clear_book::numbers::{ClaimNo, SerialCount};
use clear_book::rules::StoreCause;
use clear_debts::overdue::{Overdue, read_overdue};
use clear_firms::employers::find_employer;
use clear_firms::rates::rate_table;
use clear_ledger::credits::credit_count;
use clear_money::days::Day;
use clear_money::numbers::EmployerNo;
use clear_payouts::claims::find_claim;
use clear_rules::decide::release::{FirmDebts, OwingClaim, ReleaseView};
use clear_schema::counts::Counts;
use clear_schema::fault::Fault;
use sqlite::{Alter, Transaction};
use std::alloc::Global;

/// What a release is judged by on a day that isn't before the ledger day, where these counts stand:
/// the claim of the number, if there is one, with what its firm owes on the day and how many credits
/// it has, however the claim stands; and how many serials were given.
///
/// It takes one search for the claim and one for its firm, reads the rates, each contribution that
/// is kept of the firm and the amount of each of its credits for interest once, and takes one step,
/// with a search among the rates, for each member month before that of the day. The firm's credits
/// for contributions are read only once 100,000 serials were given: while there are fewer, their
/// number serves for that of the credits. What no book holds is refused with
/// `Fault::Store(StoreCause::Row)`: a value out of its range, more contributions or credits than an
/// account has, and a claim of a firm that isn't registered.
pub fn release_view<S: Alter>(
    alloc: Global,
    tx: &mut Transaction<'_, S>,
    counts: &Counts,
    day: Day,
    claim: ClaimNo,
) -> Result<ReleaseView, Fault>
    ensures same_reference { tx.new.conn.ghost_name ≡ tx.old.conn.ghost_name }
    ensures claim { OfTables S.Store tx.old.conn.now tx.new.conn.now (λ t.
        IfOk result (λ view. option_map (λ found. found.claim) view.found
        ≡ find_row claim_key t.claims (claim ∷ []))) }
    ensures view { OfTables S.Store tx.old.conn.now tx.new.conn.now (λ t.
        counts.now ≡ counts_of t → day_back t.day day ≡ None → (b : Book) → IsLawful b
        → StandsWeighed b t → IfOk result (IsReleaseView b day claim)) }
    // While the serials serve, the limit is judged by their number, not by how many credits there are.
    ensures count { OfTables S.Store tx.old.conn.now tx.new.conn.now (λ t.
        IfOk result (λ view. IfSome view.found
        (λ owing. owing.debts.contribution_count
        ≡ bound_or_count counts.now.serial most_credits
        (credit_count t.credits owing.claim.employer Contribution)))) }
    ensures fault { OfTables S.Store tx.old.conn.now tx.new.conn.now (λ t.
        (b : Book) → IsLawful b → StandsWeighed b t → IfErr result IsOfDisk) }
    ensures leaves { Leaves S.Store tx.old.conn.now tx.new.conn.now result }
{
    let serials = counts.serial;
    let found = find_owing(alloc, tx, serials, day, claim)?;
    Ok(ReleaseView { found, serials })
}

// The claim of a number, if there is one, and what its firm owes on a day that is not before the
// ledger day, where so many serials were given.
fn find_owing<S: Alter>(
    alloc: Global,
    tx: &mut Transaction<'_, S>,
    serials: SerialCount,
    day: Day,
    claim: ClaimNo,
) -> Result<Option<OwingClaim>, Fault>
    ensures same_reference { tx.new.conn.ghost_name ≡ tx.old.conn.ghost_name }
    ensures claim { OfTables S.Store tx.old.conn.now tx.new.conn.now (λ t.
        IfOk result (λ found. option_map (λ owing. owing.claim) found
        ≡ find_row claim_key t.claims (claim ∷ []))) }
    ensures debts { OfTables S.Store tx.old.conn.now tx.new.conn.now (λ t.
        serials ≡ t.serial → day_back t.day day ≡ None → (b : Book) → IsLawful b → StandsWeighed b t
        → IfOk result (λ found. IfSome found
        (λ owing. AreDebts (debts_of b day owing.claim.employer) owing.debts))) }
    ensures count { OfTables S.Store tx.old.conn.now tx.new.conn.now (λ t.
        IfOk result (λ found. IfSome found
        (λ owing. owing.debts.contribution_count
        ≡ bound_or_count serials most_credits
        (credit_count t.credits owing.claim.employer Contribution)))) }
    ensures fault { OfTables S.Store tx.old.conn.now tx.new.conn.now (λ t.
        (b : Book) → IsLawful b → StandsWeighed b t → IfErr result IsOfDisk) }
    ensures leaves { Leaves S.Store tx.old.conn.now tx.new.conn.now result }
{
    let Some(row) = find_claim(tx, claim)? else {
        return Ok(None);
    };
    let debts = firm_debts(alloc, tx, serials, day, row.employer)?;
    Ok(Some(OwingClaim { claim: row, debts }))
}

// What a firm owes on a day that is not before the ledger day, and how many credits it has, where
// so many serials were given.
fn firm_debts<S: Alter>(
    alloc: Global,
    tx: &mut Transaction<'_, S>,
    serials: SerialCount,
    day: Day,
    employer: EmployerNo,
) -> Result<FirmDebts, Fault>
    ensures same_reference { tx.new.conn.ghost_name ≡ tx.old.conn.ghost_name }
    ensures debts { OfTables S.Store tx.old.conn.now tx.new.conn.now (λ t.
        serials ≡ t.serial → day_back t.day day ≡ None → (b : Book) → IsLawful b → StandsWeighed b t
        → IfOk result (AreDebts (debts_of b day employer))) }
    ensures count { OfTables S.Store tx.old.conn.now tx.new.conn.now (λ t.
        IfOk result (λ debts. debts.contribution_count
        ≡ bound_or_count serials most_credits (credit_count t.credits employer Contribution))) }
    ensures fault { OfTables S.Store tx.old.conn.now tx.new.conn.now (λ t.
        (b : Book) → IsLawful b → StandsWeighed b t → IsSome (member_of b.entries employer)
        → IfErr result IsOfDisk) }
    ensures leaves { Leaves S.Store tx.old.conn.now tx.new.conn.now result }
{
    let overdue = find_overdue(alloc, tx, day, employer)?;
    let contribution_count = count_contributions(tx, serials, employer)?;
    Ok(FirmDebts {
        first_missing: overdue.first,
        arrears: overdue.arrears,
        interest_arrears: overdue.interest,
        contribution_count,
        interest_count: overdue.interest_count,
    })
}

// What a firm has overdue on a day that is not before the ledger day.
fn find_overdue<S: Alter>(
    alloc: Global,
    tx: &mut Transaction<'_, S>,
    day: Day,
    employer: EmployerNo,
) -> Result<Overdue, Fault>
    ensures same_reference { tx.new.conn.ghost_name ≡ tx.old.conn.ghost_name }
    ensures overdue { OfTables S.Store tx.old.conn.now tx.new.conn.now (λ t.
        day_back t.day day ≡ None → (b : Book) → IsLawful b → StandsWeighed b t
        → IfOk result (λ overdue. overdue ≡ overdue_told b day employer)) }
    ensures fault { OfTables S.Store tx.old.conn.now tx.new.conn.now (λ t.
        (b : Book) → IsLawful b → StandsWeighed b t → IsSome (member_of b.entries employer)
        → IfErr result IsOfDisk) }
    ensures leaves { Leaves S.Store tx.old.conn.now tx.new.conn.now result }
{
    let Some(member) = find_employer(tx, employer)? else {
        return Err(Fault::Store(StoreCause::Row));
    };
    let rates = rate_table(tx)?;
    read_overdue(alloc, tx, &rates, &member, day)
}

// A number that serves for that of a firm's credits for contributions, where so many serials were
// given: these, while they are fewer than the credits that a firm may have. Then nothing is read.
fn count_contributions<S: Alter>(
    tx: &mut Transaction<'_, S>,
    serials: SerialCount,
    employer: EmployerNo,
) -> Result<u64, Fault>
    ensures same_reference { tx.new.conn.ghost_name ≡ tx.old.conn.ghost_name }
    ensures count { OfTables S.Store tx.old.conn.now tx.new.conn.now (λ t.
        IfOk result (λ count. count
        ≡ bound_or_count serials most_credits (credit_count t.credits employer Contribution))) }
    ensures fault { OfTables S.Store tx.old.conn.now tx.new.conn.now (λ t.
        AreInRange t → IfErr result IsOfDisk) }
    ensures leaves { LeavesOpen S.Store tx.old.conn.now tx.new.conn.now result }
{
    let given = serials.count();
    if given < MAX_CREDITS {
        return Ok(given);
    }
    credit_count(tx, employer, Purpose::Contribution)
}
