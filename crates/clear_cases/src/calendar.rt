//! Months, days and numbers: their texts and ranges, and the days and delays that follow from them.
use clear_money::days::{Day, begun_months, due_day, report_day};
use clear_money::months::Month;
use clear_money::numbers::{Amount, EmployerNo, WorkerNo, read_number};
use clear_money::rates::{RateRow, contribution};

// Months, and the year, the place in it, and the number of each.
const MONTHS: [(&str, u16, u16, u16); 3] = [
    ("2000-01", 2000, 1, 24_000),
    ("2024-04", 2024, 4, 24_291),
    ("2199-12", 2199, 12, 26_399),
];

const NO_MONTHS: [&str; 10] = [
    "1999-12", "2200-01", "2024-00", "2024-13", "2024-1", "2024-001", "2024/01", "2024-01 ",
    "+024-01", "",
];

// Years and places in them.
const NOWHERE: [(u16, u16); 4] = [(1999, 12), (2200, 1), (2024, 0), (2024, 13)];

// Days, and the number, the number of the month, and the place in it of each.
const DAYS: [(&str, u32, u16, u8); 5] = [
    ("2000-01-01", 10_957, 24_000, 1),
    ("2000-02-29", 11_016, 24_001, 29),
    ("2024-04-30", 19_843, 24_291, 30),
    ("2100-02-28", 47_540, 25_201, 28),
    ("2200-12-31", 84_370, 26_411, 31),
];

const NO_DAYS: [&str; 11] = [
    "2100-02-29",
    "1999-12-31",
    "2201-01-01",
    "2024-1-01",
    "2024-04-31",
    "2024-04-30 ",
    "2024-13-01",
    "2024-00-01",
    "2024-04-00",
    "2024/04/30",
    "",
];

// Whether a text reads as the month of these numbers, and the month is written so.
fn is_month(text: &str, year: u16, place: u16, number: u16) -> bool {
    match Month::read(text.as_bytes()) {
        Some(month) => {
            Month::new(year, place) == Some(month)
                && month.year() == year
                && month.month_of_year() == place
                && month.number() == number
                && month.text().as_slice() == text.as_bytes()
        }
        None => false,
    }
}

// Whether a text reads as the day of these numbers, and the day is written so.
fn is_day(text: &str, number: u32, month: u16, place: u8) -> bool {
    match Day::read(text.as_bytes()) {
        Some(day) => {
            day.number() == number
                && day.month_number() == month
                && day.day_of_month() == place
                && day.text().as_slice() == text.as_bytes()
        }
        None => false,
    }
}

#[test]
fn months_and_days_have_one_text(rt: HostRuntime) {
    assert!(rt;
        MONTHS.iter().all(|(text, year, place, number)| is_month(text, *year, *place, *number))
    );
    assert!(rt;
        NO_MONTHS
            .iter()
            .all(|text| Month::read(text.as_bytes()).is_none())
    );
    assert!(rt;
        NOWHERE
            .iter()
            .all(|(year, place)| Month::new(*year, *place).is_none())
    );
    assert!(rt;
        DAYS.iter().all(|(text, number, month, place)| is_day(text, *number, *month, *place))
    );
    assert!(rt;
        NO_DAYS
            .iter()
            .all(|text| Day::read(text.as_bytes()).is_none())
    );
}

// A month, the day on which its contribution is due, and the day by which its report is to be in,
// where these are the 20th and the 15th.
const DUE: [(&str, &str, &str); 3] = [
    ("2024-12", "2025-01-20", "2025-01-15"),
    ("2024-01", "2024-02-20", "2024-02-15"),
    ("2199-12", "2200-01-20", "2200-01-15"),
];

// A day due, another day, and how many months late that is.
const DELAYS: [(&str, &str, u16); 7] = [
    ("2024-02-20", "2023-12-31", 0),
    ("2024-02-20", "2024-02-20", 0),
    ("2024-02-20", "2024-02-21", 1),
    ("2024-02-20", "2024-03-20", 1),
    ("2024-02-20", "2024-03-21", 2),
    ("2024-02-20", "2024-04-21", 3),
    ("2000-02-01", "2200-12-31", 2_411),
];

// A base, a rate in hundredths of a percent, and the contribution.
const CONTRIBUTIONS: [(u64, u16, u64); 7] = [
    (10, 1500, 2),
    (12_345, 2080, 2_568),
    (500_050, 2000, 100_010),
    (1, 4_999, 0),
    (1, 5_000, 1),
    (0, 10_000, 0),
    (5_000_000_000, 10_000, 5_000_000_000),
];

fn is_due(month: &str, due: &str, report: &str) -> bool {
    let Some(month) = Month::read(month.as_bytes()) else {
        return false;
    };
    match RateRow::new(month, 2000, 15, 20, 100, 1425) {
        Some(row) => {
            due_day(month, &row).text().as_slice() == due.as_bytes()
                && report_day(month, &row).text().as_slice() == report.as_bytes()
        }
        None => false,
    }
}

fn is_late(due: &str, day: &str, months: u16) -> bool {
    match (Day::read(due.as_bytes()), Day::read(day.as_bytes())) {
        (Some(due), Some(day)) => due.day_of_month() <= 28 && begun_months(due, day) == months,
        _ => false,
    }
}

fn is_contribution(base: u64, rate: u16, cents: u64) -> bool {
    base <= 5_000_000_000 && rate <= 10_000 && contribution(base, rate) == cents
}

#[test]
fn contributions_are_due_and_late(rt: HostRuntime) {
    assert!(rt;
        DUE.iter()
            .all(|(month, due, report)| is_due(month, due, report))
    );
    assert!(rt;
        DELAYS
            .iter()
            .all(|(due, day, months)| is_late(due, day, *months))
    );
    assert!(rt;
        CONTRIBUTIONS.iter().all(|(base, rate, cents)| is_contribution(*base, *rate, *cents))
    );
}

// Texts of numbers, with the number where it is one.
const NUMBERS: [(&str, Option<u64>); 12] = [
    ("0", Some(0)),
    ("7", Some(7)),
    ("18446744073709551615", Some(18_446_744_073_709_551_615)),
    ("18446744073709551616", None),
    ("", None),
    ("00", None),
    ("07", None),
    ("+7", None),
    ("-7", None),
    (" 7", None),
    ("7 ", None),
    ("1a", None),
];

const EMPLOYERS: [(u64, Option<u32>); 5] = [
    (0, None),
    (1, Some(1)),
    (99_999_999, Some(99_999_999)),
    (100_000_000, None),
    (4_294_967_297, None),
];

const WORKERS: [(u64, Option<u32>); 5] = [
    (0, None),
    (1, Some(1)),
    (999_999_999, Some(999_999_999)),
    (1_000_000_000, None),
    (4_294_967_297, None),
];

const AMOUNTS: [(u64, Option<u64>); 4] = [
    (0, None),
    (1, Some(1)),
    (100_000_000_000, Some(100_000_000_000)),
    (100_000_000_001, None),
];

fn employer(number: u64) -> Option<u32> {
    Some(EmployerNo::new(number)?.number())
}

fn worker(number: u64) -> Option<u32> {
    Some(WorkerNo::new(number)?.number())
}

fn amount(cents: u64) -> Option<u64> {
    Some(Amount::new(cents)?.cents())
}

#[test]
fn numbers_have_one_text_and_a_range(rt: HostRuntime) {
    assert!(rt;
        NUMBERS
            .iter()
            .all(|(text, number)| read_number(text.as_bytes()) == *number)
    );
    assert!(rt;
        EMPLOYERS
            .iter()
            .all(|(number, found)| employer(*number) == *found)
    );
    assert!(rt;
        WORKERS
            .iter()
            .all(|(number, found)| worker(*number) == *found)
    );
    assert!(rt;
        AMOUNTS
            .iter()
            .all(|(cents, found)| amount(*cents) == *found)
    );
}
