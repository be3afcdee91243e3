//! Rate rows, the tables that they make, and rate files.
use clear_money::months::Month;
use clear_money::rates::{PushFault, RateRow, RateTable};
use clear_toml::rate_file::RateFault::{self, Empty, Field, Memory, Order, Range, Text};
use clear_toml::rate_file::{law_written_rates, read_rates};
use std::alloc::Global;

// The contribution rate, the day of the report, the day due, the interest rate and the entitlement
// rate of a row.
type Numbers = (u16, u8, u8, u16, u16);

const FIRST_NUMBERS: Numbers = (2000, 15, 20, 100, 1425);

const SECOND_NUMBERS: Numbers = (1900, 15, 20, 90, 1425);

const ROWS: [Numbers; 2] = [(0, 1, 1, 0, 0), (10_000, 28, 28, 1_000, 10_000)];

const NO_ROWS: [Numbers; 7] = [
    (10_001, 15, 20, 100, 1425),
    (2000, 0, 20, 100, 1425),
    (2000, 29, 20, 100, 1425),
    (2000, 15, 0, 100, 1425),
    (2000, 15, 29, 100, 1425),
    (2000, 15, 20, 1_001, 1425),
    (2000, 15, 20, 100, 10_001),
];

// Months, and the contribution rates in force.
const IN_FORCE: [(&str, Option<u16>); 6] = [
    ("2000-01", None),
    ("2023-12", None),
    ("2024-01", Some(2000)),
    ("2024-12", Some(2000)),
    ("2025-01", Some(1900)),
    ("2199-12", Some(1900)),
];

fn row(first: &str, numbers: Numbers) -> Option<RateRow> {
    let (contribution, report, due, interest, entitlement) = numbers;
    let first = Month::read(first.as_bytes())?;
    RateRow::new(first, contribution, report, due, interest, entitlement)
}

fn is_row(row: &RateRow, first: &str, numbers: Numbers) -> bool {
    let (contribution, report, due, interest, entitlement) = numbers;
    row.first().text().as_slice() == first.as_bytes()
        && row.contribution_rate() == contribution
        && row.report_day() == report
        && row.due_day() == due
        && row.interest_rate() == interest
        && row.entitlement_rate() == entitlement
}

fn is_made(numbers: Numbers) -> bool {
    match row("2024-01", numbers) {
        Some(row) => is_row(&row, "2024-01", numbers),
        None => false,
    }
}

// 20 percent from 2024-01 on, and 19 percent from 2025-01 on.
fn sample(alloc: Global) -> Option<RateTable> {
    let first = row("2024-01", FIRST_NUMBERS)?;
    match RateTable::first(alloc, first) {
        Ok(table) => with_row(table, "2025-01"),
        Err(_) => None,
    }
}

fn with_row(table: RateTable, first: &str) -> Option<RateTable> {
    let mut table = table;
    match table.push(row(first, SECOND_NUMBERS)?) {
        Ok(()) => Some(table),
        Err(_) => None,
    }
}

fn rate_in(table: &RateTable, month: &str) -> Option<u16> {
    let row = table.in_force(Month::read(month.as_bytes())?)?;
    Some(row.contribution_rate())
}

// Whether a row from a month on is refused for its order.
fn is_early(table: &mut RateTable, first: &str) -> bool {
    match row(first, SECOND_NUMBERS) {
        Some(row) => matches!(table.push(row), Err(PushFault::RateOrder)),
        None => false,
    }
}

// Whether the table has the rows of the sample, and so many further ones from 2025-02 on.
fn has_sample(table: &RateTable, further: usize) -> bool {
    match table.as_slice() {
        [first, second, rest @ ..] => {
            is_row(first, "2024-01", FIRST_NUMBERS)
                && is_row(second, "2025-01", SECOND_NUMBERS)
                && rest.len() == further
                && rest
                    .iter()
                    .all(|row| is_row(row, "2025-02", SECOND_NUMBERS))
        }
        _ => false,
    }
}

// Whether an early row is refused and changes nothing, and a later one is added.
fn rises(table: RateTable) -> bool {
    let mut table = table;
    let is_refused = is_early(&mut table, "2024-01") && is_early(&mut table, "2025-01");
    if !is_refused || !has_sample(&table, 0) {
        return false;
    }
    match with_row(table, "2025-02") {
        Some(table) => has_sample(&table, 1),
        None => false,
    }
}

#[test]
fn rows_have_ranges_and_rise(rt: HostRuntime) {
    assert!(rt; ROWS.iter().all(|numbers| is_made(*numbers)));
    assert!(rt;
        NO_ROWS
            .iter()
            .all(|numbers| row("2024-01", *numbers).is_none())
    );
    let table = sample(rt.alloc()).expect(&rt, "no table");
    assert!(rt;
        IN_FORCE
            .iter()
            .all(|(month, rate)| rate_in(&table, month) == *rate)
    );
    assert!(rt; rises(table));
}

const FIRST: &str = "[[rate]]
from = \"2024-01\"
contribution = 2000
report_day = 15
due_day = 20
interest = 100
entitlement = 1425
";

const SECOND: &str = "[[rate]]
from = \"2025-01\"
contribution = 1900
report_day = 15
due_day = 20
interest = 90
entitlement = 1425
";

const BAD_TEXTS: [(&str, RateFault); 7] = [
    ("", Empty),
    ("rate = []", Empty),
    ("rate = ", Text),
    ("rate = 1", Field(0)),
    ("[rate]", Field(0)),
    ("x = 1\nrate = [1]", Field(0)),
    ("rate = [1]", Field(1)),
];

// A part of the sample, what stands in its place where it first stood, and the fault.
const BAD_ROWS: [(&str, &str, RateFault); 11] = [
    ("due_day = 20", "due_day = 29", Range(1)),
    ("2024-01", "2024-13", Range(1)),
    ("contribution = 2000", "contribution = -1", Range(1)),
    ("contribution = 2000", "contribution = 2000.0", Field(1)),
    ("contribution = 2000", "contribution = '2000'", Field(1)),
    (
        "contribution = 2000",
        "contribution = 99999999999999999999",
        Text,
    ),
    (
        "entitlement = 1425",
        "entitlement = 1425\nnote = ''",
        Field(1),
    ),
    ("interest = 90", "", Field(2)),
    ("2025-01", "2024-01", Order(2)),
    // Two faults at once: Field is told before Range, and Range before Order.
    ("report_day = 15\ndue_day = 20", "due_day = 29", Field(1)),
    (
        "2025-01\"\ncontribution = 1900",
        "2024-01\"\ncontribution = 10001",
        Range(2),
    ),
];

fn is_same(a: RateFault, b: RateFault) -> bool {
    match (a, b) {
        (Text, Text) | (Empty, Empty) | (Memory, Memory) => true,
        (Field(a), Field(b)) | (Range(a), Range(b)) | (Order(a), Order(b)) => a == b,
        _ => false,
    }
}

// Whether a text is refused for this fault.
fn is_refused(alloc: Global, text: &[u8], fault: RateFault) -> bool {
    match read_rates(alloc, text) {
        Ok(_) => false,
        Err(found) => is_same(found, fault),
    }
}

// Whether texts laid end to end are refused for this fault.
fn are_refused(alloc: Global, texts: &[&str], fault: RateFault) -> bool {
    match texts.concat(alloc) {
        Ok(text) => is_refused(alloc, text.as_bytes(), fault),
        Err(_) => false,
    }
}

// Whether the sample with one part replaced is refused for this fault.
fn is_edit_refused(alloc: Global, old: &str, new: &str, fault: RateFault) -> bool {
    if let Some((before, after)) = FIRST.split_once(old) {
        return are_refused(alloc, &[before, new, after, SECOND], fault);
    }
    match SECOND.split_once(old) {
        Some((before, after)) => are_refused(alloc, &[FIRST, before, new, after], fault),
        None => false,
    }
}

fn reads_sample(alloc: Global) -> bool {
    let Ok(text) = [FIRST, SECOND].concat(alloc) else {
        return false;
    };
    match read_rates(alloc, text.as_bytes()) {
        Ok(table) => has_sample(&table, 0),
        Err(_) => false,
    }
}

// A part of the sample, and the fault of the file where it ends within that part or with it.
type Part = (&'static str, RateFault);

// What stands in front of the last number of the first row, and of the second.
const FIRST_PARTS: [Part; 13] = [
    ("[[rate]", Text),
    ("]\n", Field(1)),
    ("from = \"2024-01", Text),
    ("\"\n", Field(1)),
    ("contribution = ", Text),
    ("2000\n", Field(1)),
    ("report_day = ", Text),
    ("15\n", Field(1)),
    ("due_day = ", Text),
    ("20\n", Field(1)),
    ("interest = ", Text),
    ("100\n", Field(1)),
    ("entitlement = ", Text),
];

const SECOND_PARTS: [Part; 13] = [
    ("[[rate]", Text),
    ("]\n", Field(2)),
    ("from = \"2025-01", Text),
    ("\"\n", Field(2)),
    ("contribution = ", Text),
    ("1900\n", Field(2)),
    ("report_day = ", Text),
    ("15\n", Field(2)),
    ("due_day = ", Text),
    ("20\n", Field(2)),
    ("interest = ", Text),
    ("90\n", Field(2)),
    ("entitlement = ", Text),
];

// The bytes of a row's last number and of its line end, and the entitlement rate up to each.
const LAST_BYTES: [(u8, u16); 5] = [
    (b'1', 1),
    (b'4', 14),
    (b'2', 142),
    (b'5', 1_425),
    (b'\n', 1_425),
];

// Whether a file goes on by these parts, and is refused at each of its ends.
fn refuses_ends(alloc: Global, file: &mut Vec<u8>, parts: &[Part]) -> bool {
    for (part, fault) in parts {
        for byte in part.as_bytes() {
            if file.push(*byte).is_err() {
                return false;
            }
            if !is_refused(alloc, file.as_slice(), *fault) {
                return false;
            }
        }
    }
    true
}

// Whether a file goes on by the last number of a row, and has so many rows at each of its ends.
fn reads_ends(alloc: Global, file: &mut Vec<u8>, rows: usize) -> bool {
    for (byte, rate) in &LAST_BYTES {
        if file.push(*byte).is_err() {
            return false;
        }
        if !has_last_rate(alloc, file.as_slice(), rows, *rate) {
            return false;
        }
    }
    true
}

fn has_last_rate(alloc: Global, text: &[u8], rows: usize, rate: u16) -> bool {
    let Ok(table) = read_rates(alloc, text) else {
        return false;
    };
    match table.as_slice().last() {
        Some(row) => row.entitlement_rate() == rate && table.as_slice().len() == rows,
        None => false,
    }
}

fn ends_anywhere(alloc: Global) -> bool {
    let mut file = Vec::new(alloc);
    refuses_ends(alloc, &mut file, &FIRST_PARTS)
        && reads_ends(alloc, &mut file, 1)
        && refuses_ends(alloc, &mut file, &SECOND_PARTS)
        && reads_ends(alloc, &mut file, 2)
}

#[test]
fn a_file_is_read_or_its_first_fault_told(rt: HostRuntime) {
    let alloc = rt.alloc();
    law_written_rates();
    assert!(rt; reads_sample(alloc));
    assert!(rt;
        BAD_TEXTS
            .iter()
            .all(|(text, fault)| is_refused(alloc, text.as_bytes(), *fault))
    );
    assert!(rt; is_refused(alloc, &[0xFF], Text));
    assert!(rt; ends_anywhere(alloc));
    assert!(rt; are_refused(alloc, &[SECOND, FIRST], Order(2)));
    assert!(rt; BAD_ROWS.iter().all(|(old, new, fault)| is_edit_refused(alloc, old, new, *fault)));
}
