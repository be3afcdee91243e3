//! Laws of months, days and contributions, over the definitions alone. Each function does nothing:
//! its contract is the law.
ghost use Rattle.std.specs.Prelude.{◌≡◌, ℕ, ◌+◌, ◌-◌, ◌/◌, ◌%◌, ◌<◌, ◌≤◌, pos};
ghost use Rattle.jiff_core.specs.Calendar.{days_in_month};
ghost use Rattle.clear_money.specs.Calendar.{IsDay, IsMonth, begun_months, day_in, day_of_month};
ghost use Rattle.clear_money.specs.Calendar.{month_of, months_after};
ghost use Rattle.clear_money.specs.Rates.{IsDayOfEachMonth, IsRate, Rate, contribution_of};
ghost use Rattle.clear_money.specs.Rates.{due_day_of, report_day_of};
ghost use Rattle.clear_money.specs.Texts.{date_text, day_text};

/// 2000-01-01 is day 10957, each month from then on begins as many days behind the one before it as
/// that one has, 2024-02-29 is day 19782, and the last day, 2200-12-31, is day 84370.
pub fn law_months_follow()
    ensures first { day_in 24000 1 ≡ 10957 }
    ensures leap { day_in 24289 29 ≡ 19782 }
    ensures last { day_in 26411 31 ≡ 84370 }
    ensures next { (m : ℕ) → 24000 ≤ m
        → day_in (m + 1) 1 ≡ day_in m 1 + days_in_month (pos (m / 12)) (m % 12 + 1) }
{}

/// A day lies in its month: from that month's first day on, and before the following month's.
pub fn law_month_of()
    ensures from { (t : ℕ) → IsDay t → day_in (month_of t) 1 ≤ t }
    ensures to { (t : ℕ) → IsDay t → t < day_in (month_of t + 1) 1 }
{}

/// Different days are spelled differently.
pub fn law_day_text()
    ensures { (t u : ℕ) → IsDay t → IsDay u → day_text t ≡ day_text u → t ≡ u }
{}

/// Each day of a month from 2000-01 to 2200-12 is a day of the calendar, lies in that month, at its
/// place there, and is spelled so.
pub fn law_day_in_month()
    ensures day { (m d : ℕ) → 24000 ≤ m → m ≤ 26411
        → 1 ≤ d → d ≤ days_in_month (pos (m / 12)) (m % 12 + 1) → IsDay (day_in m d) }
    ensures month { (m d : ℕ) → 24000 ≤ m → m ≤ 26411
        → 1 ≤ d → d ≤ days_in_month (pos (m / 12)) (m % 12 + 1) → month_of (day_in m d) ≡ m }
    ensures place { (m d : ℕ) → 24000 ≤ m → m ≤ 26411
        → 1 ≤ d → d ≤ days_in_month (pos (m / 12)) (m % 12 + 1) → day_of_month (day_in m d) ≡ d }
    ensures text { (m d : ℕ) → 24000 ≤ m → m ≤ 26411
        → 1 ≤ d → d ≤ days_in_month (pos (m / 12)) (m % 12 + 1)
        → day_text (day_in m d) ≡ date_text (m / 12) (m % 12 + 1) d }
{}

/// The contribution and the report of a month are due in the following month, each at the place
/// that the month's rate row has for it.
pub fn law_due_days()
    ensures due_month { (m : ℕ) (r : Rate) → IsMonth m → IsRate r
        → month_of (due_day_of m r) ≡ m + 1 }
    ensures due_place { (m : ℕ) (r : Rate) → IsMonth m → IsRate r
        → day_of_month (due_day_of m r) ≡ r.due_day }
    ensures report_month { (m : ℕ) (r : Rate) → IsMonth m → IsRate r
        → month_of (report_day_of m r) ≡ m + 1 }
    ensures report_place { (m : ℕ) (r : Rate) → IsMonth m → IsRate r
        → day_of_month (report_day_of m r) ≡ r.report_day }
{}

/// A due day of a month from 2000-01 to 2200-12 comes again in each later month, at the same place.
pub fn law_months_after()
    ensures { (m d k : ℕ) → 24000 ≤ m → m ≤ 26411 → IsDayOfEachMonth d
        → months_after (day_in m d) k ≡ day_in (m + k) d }
{}

/// From a due day at a place that each month has, to any day of the calendar: none is begun where
/// that day lies in an earlier month; else as many months are begun as lie between the months of
/// the two days, and one more where the day stands at a later place in its month.
pub fn law_begun_months()
    ensures none { (due t : ℕ) → IsDay due → IsDay t → day_of_month due ≤ 28
        → month_of t < month_of due
        → begun_months due t ≡ 0 }
    ensures up_to { (due t : ℕ) → IsDay due → IsDay t → day_of_month due ≤ 28
        → month_of due ≤ month_of t → day_of_month t ≤ day_of_month due
        → begun_months due t ≡ month_of t - month_of due }
    ensures behind { (due t : ℕ) → IsDay due → IsDay t → day_of_month due ≤ 28
        → month_of due ≤ month_of t → day_of_month due < day_of_month t
        → begun_months due t ≡ month_of t - month_of due + 1 }
{}

/// A contribution is rounded half up to whole cents: half a cent is one, and less is none.
pub fn law_contribution_rounded()
    ensures whole { contribution_of 1000000 2000 ≡ 200000 }
    ensures half { contribution_of 25 200 ≡ 1 }
    ensures less { contribution_of 24 200 ≡ 0 }
{}
