//! Days from 2000-01-01 to 2200-12-31, over the calendar of `jiff`.
ghost use Rattle.std.specs.Prelude.{◌≡◌, ◌≢◌, ℕ, ◌≤◌, ◌<◌, ◌+◌, ◌*◌, ◌-◌, ◌/◌, ◌%◌, ◌↔◌, pos};
ghost use Rattle.std.specs.Prelude.{IsSome, IfSome, IfNone};
ghost use Rattle.jiff_core.specs.Calendar.{IsCivilDate};
ghost use Rattle.clear_money.specs.Calendar.{IsDay, begun_months, day_in, day_of_month, first_day, month_of};
ghost use Rattle.clear_money.specs.Rates.{due_day_of, report_day_of, IsDayOfEachMonth};
ghost use Rattle.clear_money.specs.Texts.{date_text, day_text};

use crate::months::{Month, read_four, read_two, write_four, write_two};
use crate::rates::RateRow;
use jiff::civil::Date;
use jiff_core::civil::Date as PlainDate;
use std::marker::Model;

/// A day from 2000-01-01 to 2200-12-31.
///
/// A contract sees its day number, 1970-01-01 being 0.
#[derive(Clone, Copy, PartialEq, Eq, PartialOrd, Ord)]
pub struct Day {
    number: u32,
}

impl Model for Day {
    ghost use Rattle.std.specs.Prelude.{ℕ};

    ghost Value = { ℕ };

    ghost use Rattle.clear_money.specs.Calendar.{IsDay};

    ghost view = { λ a. a.number };

    ghost invariant = { λ a. IsDay a.number };

    ghost inverse = { λ t. record { number = t } };
}

// Three numbers, of which there may be no date.
#[derive(Clone, Copy)]
struct WrittenDate {
    year: u16,
    month: u16,
    day: u16,
}

impl Day {
    /// The first day number, that of 2000-01-01.
    pub const MIN: u64 = 10_957;
    /// The last day number, that of 2200-12-31.
    pub const MAX: u64 = 84_370;

    /// None outside 10,957 to 84,370, 1970-01-01 being 0.
    pub fn new(number: u64) -> Option<Day>
        ensures some { IsSome result ↔ IsDay number }
        ensures value { IfSome result (λ t. t ≡ number) }
    {
        if number < Self::MIN || number > Self::MAX {
            return None;
        }
        Some(Day {
            number: number as u32,
        })
    }

    /// 2000-01-01.
    pub fn first() -> Day
        ensures { result ≡ first_day }
    {
        Day {
            number: Self::MIN as u32,
        }
    }

    /// Reads exactly `YYYY-MM-DD`. None for any other text, for a date that the calendar lacks,
    /// and outside the range.
    pub fn read(bytes: &[u8]) -> Option<Day>
        ensures found { IfSome result (λ t. IsDay t × (bytes.now ≡ day_text t)) }
        ensures only { IfNone result ((t : ℕ) → IsDay t → bytes.now ≢ day_text t) }
    {
        let date = read_date(bytes)?;
        day_on(date.year, date.month, date.day)
    }

    /// `YYYY-MM-DD`.
    pub fn text(self) -> [u8; 10]
        ensures { result ≡ day_text self }
    {
        let month = self.month_number();
        let [a, b, c, d] = write_four(month / 12);
        let [e, f] = write_two(month % 12 + 1);
        let [g, h] = write_two(u16::from(self.day_of_month()));
        [a, b, c, d, b'-', e, f, b'-', g, h]
    }

    /// The day number, 1970-01-01 being 0.
    pub fn number(self) -> u32
        ensures value { result ≡ self }
        ensures range { IsDay result }
    {
        self.number
    }

    /// The number of the day's month, as `Month::number` has it; a day of 2200 has one too.
    pub fn month_number(self) -> u16
        ensures value { result ≡ month_of self }
        ensures range { (24000 ≤ result) × (result ≤ 26411) }
        ensures day { IsDay self }
    {
        let date = self.date();
        12 * date.year as u16 + (u16::from(date.month) - 1)
    }

    /// The place of the day in its month, from 1.
    pub fn day_of_month(self) -> u8
        ensures value { result ≡ day_of_month self }
        ensures range { (1 ≤ result) × (result ≤ 31) }
    {
        self.date().day
    }

    // The date of the calendar.
    fn date(self) -> PlainDate
        ensures year { result.year ≡ pos (month_of self / 12) }
        ensures month { result.month ≡ month_of self % 12 + 1 }
        ensures day { result.day ≡ day_of_month self }
        ensures range { IsDay self }
    {
        match PlainDate::from_unix_epoch_day(i64::from(self.number)) {
            Ok(date) => date,
            Err(_) => unreachable!(),
        }
    }
}

/// The day on which the contribution of a month is due, at the month's rate row.
pub fn due_day(month: Month, row: &RateRow) -> Day
    ensures value { result ≡ due_day_of month row.now }
    ensures place { day_of_month result ≤ 28 }
{
    day_at(month.number() + 1, row.due_day())
}

/// The day by which the report of a month is to be in, at the month's rate row.
pub fn report_day(month: Month, row: &RateRow) -> Day
    ensures { result ≡ report_day_of month row.now }
{
    day_at(month.number() + 1, row.report_day())
}

/// How many months a contribution that is due on a day of month of at most 28 is late on a day,
/// each begun one counted: how many of the days due, due plus 1 month, due plus 2 months, .. lie
/// strictly before it.
pub fn begun_months(due: Day, day: Day) -> u16
    requires { day_of_month due ≤ 28 }
    ensures value { result ≡ begun_months due day }
    ensures range { result ≤ 2412 }
{
    let (from, to) = (due.month_number(), day.month_number());
    if to < from {
        return 0;
    }
    let whole = to - from;
    if due.day_of_month() < day.day_of_month() {
        whole + 1
    } else {
        whole
    }
}

// The numbers of a text `YYYY-MM-DD`.
fn read_date(bytes: &[u8]) -> Option<WrittenDate>
    ensures found { IfSome result (λ date.
        (bytes.now ≡ date_text date.year date.month date.day)
        × (date.year < 10_000) × (date.month < 100) × (date.day < 100)) }
    ensures only { IfNone result ((y m d : ℕ) →
        y < 10_000 → m < 100 → d < 100 → bytes.now ≢ date_text y m d) }
{
    let [a, b, c, d, dash, e, f, dash2, g, h] = bytes else {
        return None;
    };
    if *dash != b'-' || *dash2 != b'-' {
        return None;
    }
    let year = read_four(*a, *b, *c, *d)?;
    let month = read_two(*e, *f)?;
    let day = read_two(*g, *h)?;
    Some(WrittenDate { year, month, day })
}

// A day of a month that has at least 28, by jiff.
fn day_at(month: u16, day: u8) -> Day
    requires month { (24000 ≤ month) × (month ≤ 26400) }
    requires day { IsDayOfEachMonth day }
    ensures value { result ≡ day_in month day }
    ensures place { day_of_month result ≡ day }
{
    match Date::new((month / 12) as i16, (month % 12 + 1) as i8, day as i8) {
        Ok(date) => {
            let number = date.to_plain().to_unix_epoch_day();
            Day {
                number: number as u32,
            }
        }
        Err(_) => unreachable!(),
    }
}

// A date of the years from 2000 to 2200, by jiff.
fn day_on(year: u16, month: u16, day: u16) -> Option<Day>
    requires month { month < 100 }
    requires day { day < 100 }
    ensures some { IsSome result
        ↔ ((2000 ≤ year) × (year ≤ 2200) × IsCivilDate (pos year) month day) }
    ensures value { IfSome result (λ t.
        (t ≡ day_in (12 * year + (month - 1)) day)
        × (2000 ≤ year) × (year ≤ 2200) × IsCivilDate (pos year) month day) }
{
    if year < 2000 || year > 2200 {
        return None;
    }
    let Ok(date) = Date::new(year as i16, month as i8, day as i8) else {
        return None;
    };
    let number = date.to_plain().to_unix_epoch_day();
    Some(Day {
        number: number as u32,
    })
}
