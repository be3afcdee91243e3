//! Where the rules of commands begin: the last value that passes, and the first that is refused. Each
//! is a law without parameters.
ghost use Rattle.std.specs.Prelude.{◌≡◌, ◌+◌, ◌-◌, ◌∷◌, [], None, Some, ℕ, List, false, true};
ghost use Rattle.clear_money.specs.Calendar.{month_of};
ghost use Rattle.clear_money.specs.Rates.{Rate, last_first};
ghost use Rattle.clear_values.specs.declared.rows.ClaimState.TheVariants.{Open, Withdrawn};
ghost use Rattle.clear_values.specs.Members.{is_member_in};
ghost use Rattle.clear_book.specs.declared.rules.Limit.TheVariants.{Credits, Employers, Suspense};
ghost use Rattle.clear_book.specs.declared.rules.Rule.TheVariants.{ClaimNotOpen, DayBack};
ghost use Rattle.clear_book.specs.declared.rules.Rule.TheVariants.{EmployerExists, EndBeforeReports};
ghost use Rattle.clear_book.specs.declared.rules.Rule.TheVariants.{MissingReport, MonthAhead};
ghost use Rattle.clear_book.specs.declared.rules.Rule.TheVariants.{MonthOutside, NoRate, OverBalance};
ghost use Rattle.clear_book.specs.declared.rules.Rule.TheVariants.{OverLimit, StaleVersion};
ghost use Rattle.clear_book.specs.declared.rules.Rule.TheVariants.{UnknownClaim, UnknownEmployer};
ghost use Rattle.clear_book.specs.declared.rules.Rule.TheVariants.{ValueAhead};
ghost use Rattle.clear_book.specs.Examples.{claim, february, january, line, member};
ghost use Rattle.clear_book.specs.Examples.{wage};
ghost use Rattle.clear_book.specs.Judge.{day_back, is_full as is_full_book};
ghost use Rattle.clear_book.specs.Own.AddRate.{is_early};
ghost use Rattle.clear_book.specs.Own.Assign.{is_full};
ghost use Rattle.clear_book.specs.Own.Claim.{own_claim};
ghost use Rattle.clear_book.specs.Own.Correct.{is_last_version, stale_rule};
ghost use Rattle.clear_book.specs.Own.EndMembership.{own_end};
ghost use Rattle.clear_book.specs.Own.ImportBank.{ahead_rule, is_ahead, is_over, limit_rules};
ghost use Rattle.clear_book.specs.Own.Lines.{has_large_gross, month_rules, worker_twice};
ghost use Rattle.clear_book.specs.Own.Register.{own_register};
ghost use Rattle.clear_book.specs.Own.Release.{is_too_many, missing_rule};
ghost use Rattle.clear_book.specs.Own.Withdraw.{own_withdraw};
ghost use Rattle.clear_book.specs.Checks.{first_of};

/// A request may have the ledger day itself, and be the 50,000,000th that is accepted.
pub fn law_first_days_and_last_entries()
    ensures same_day { day_back (Some 10) 10 ≡ None }
    ensures day_before { day_back (Some 10) 9 ≡ Some (DayBack 10) }
    ensures last_entry { is_full_book 49999999 ≡ false }
    ensures full { is_full_book 50000000 ≡ true }
{}

/// A firm is a member in its first and in its last month. An end is set once, not before the first
/// month, nor before the last month that has a report.
pub fn law_first_and_last_months()
    ensures before { is_member_in (member january (Some february)) (january - 1) ≡ false }
    ensures first { is_member_in (member january (Some february)) january ≡ true }
    ensures last { is_member_in (member january (Some february)) february ≡ true }
    ensures behind { is_member_in (member january (Some february)) (february + 1) ≡ false }
    ensures end_at_start { own_end (Some (member january None)) None january ≡ None }
    ensures end_before { own_end (Some (member january None)) None (january - 1)
        ≡ Some MonthOutside }
    ensures end_twice { own_end (Some (member january (Some february))) None february
        ≡ Some MonthOutside }
    ensures end_at_report { own_end (Some (member january None)) (Some february) february ≡ None }
    ensures end_before_report { own_end (Some (member january None)) (Some february) january
        ≡ Some (EndBeforeReports february) }
    ensures end_of_nobody { own_end None None january ≡ Some UnknownEmployer }
{}

/// The 10,000th firm can be registered, and none after it.
pub fn law_last_employer()
    ensures last { own_register false 9999 true ≡ None }
    ensures full { own_register false 10000 true ≡ Some (OverLimit Employers) }
    ensures there { own_register true 10000 true ≡ Some EmployerExists }
    ensures no_rate { own_register false 0 false ≡ Some NoRate }
{}

/// A row of rates begins after the last one, and after the month of the day; a report is of that month
/// at most.
pub fn law_months_ahead()
    ensures rate_at_last { (rates : List Rate) (t : ℕ) → last_first rates ≡ february
        → month_of t ≡ january → is_early rates t february ≡ true }
    ensures rate_behind_last { (rates : List Rate) (t : ℕ) → last_first rates ≡ february
        → month_of t ≡ january → is_early rates t (february + 1) ≡ false }
    ensures rate_of_this_month { (rates : List Rate) (t : ℕ) → last_first rates ≡ january
        → month_of t ≡ february → is_early rates t february ≡ true }
    ensures rate_of_next_month { (rates : List Rate) (t : ℕ) → last_first rates ≡ january
        → month_of t ≡ february → is_early rates t (february + 1) ≡ false }
    ensures report_of_this_month { (t : ℕ) → month_of t ≡ february
        → first_of (month_rules (Some (member january None)) t february) ≡ None }
    ensures report_of_next_month { (t : ℕ) → month_of t ≡ february
        → first_of (month_rules (Some (member january None)) t (february + 1)) ≡ Some MonthAhead }
{}

/// A line may have 100,000.00 euros. Of lines of one worker the first that stands behind another one is
/// told. A correction names the latest version, and makes the 10,000th at most.
pub fn law_lines_and_versions()
    ensures largest { has_large_gross (wage 7 10000000 ∷ []) ≡ false }
    ensures too_large { has_large_gross (wage 7 10000001 ∷ []) ≡ true }
    ensures once { worker_twice (wage 7 1 ∷ wage 8 1 ∷ []) ≡ None }
    ensures twice { worker_twice (wage 7 1 ∷ wage 8 1 ∷ wage 8 1 ∷ wage 7 1 ∷ []) ≡ Some 8 }
    ensures latest { stale_rule (Some 2) 2 ≡ None }
    ensures older { stale_rule (Some 2) 1 ≡ Some (StaleVersion 2) }
    ensures no_report { stale_rule None 1 ≡ Some (StaleVersion 0) }
    ensures one_more { is_last_version (Some 9999) ≡ false }
    ensures no_more { is_last_version (Some 10000) ≡ true }
{}

/// A payment may come on the request's day, 100,000 lines may be in suspense, and a firm may have
/// 100,000 credits for one purpose: after a file, and before none is added by an assignment.
pub fn law_last_lines()
    ensures on_the_day { is_ahead 0 (1, (line None 1 100).line) ≡ false }
    ensures a_day_later { is_ahead 0 (1, record (line None 1 100).line { value = 1 }) ≡ true }
    ensures record { ahead_rule (Some (1, (line None 1 100).line)) ≡ Some (ValueAhead 3) }
    ensures most_suspense { first_of (limit_rules 100000 (λ _ _. 0) []) ≡ None }
    ensures over_suspense { first_of (limit_rules 100001 (λ _ _. 0) [])
        ≡ Some (OverLimit Suspense) }
    ensures most_credits { first_of (limit_rules 0 (λ _ _. 100000) (line (Some 1001) 1 100 ∷ []))
        ≡ None }
    ensures over_credits { first_of (limit_rules 0 (λ _ _. 100001) (line (Some 1001) 1 100 ∷ []))
        ≡ Some (OverLimit Credits) }
    ensures one_more { is_full (λ _. 99999) (Some (line None 1 100)) ≡ false }
    ensures no_more { is_full (λ _. 100000) (Some (line None 1 100)) ≡ true }
{}

/// A claim may come to the worker's whole balance. A firm takes back an open claim of its own alone. A
/// release is refused for the first missing month, and for a set-off that is above 0 and would be
/// one credit too many.
pub fn law_last_cents()
    ensures whole { own_claim true true 100 100 ≡ None }
    ensures over { own_claim true true 100 101 ≡ Some (OverBalance 100) }
    ensures own { own_withdraw true 1001 (Some (claim 1 100 Open)) ≡ None }
    ensures other { own_withdraw true 1002 (Some (claim 1 100 Open)) ≡ Some UnknownClaim }
    ensures again { own_withdraw true 1001 (Some (claim 1 100 Withdrawn)) ≡ Some ClaimNotOpen }
    ensures missing { missing_rule (january ∷ february ∷ []) ≡ Some (MissingReport january) }
    ensures nothing { is_too_many 0 100000 ≡ false }
    ensures last_credit { is_too_many 1 99999 ≡ false }
    ensures no_credit { is_too_many 1 100000 ≡ true }
{}
