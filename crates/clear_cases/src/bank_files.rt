//! Bank files: what their lines say, which of them are new, and why a file is refused.
use clear_bank::fault::BankFault;
use clear_bank::files::read_file;
use clear_bank::lines::{BankLine, Purpose};
use clear_bank::newness::judge_file;
use clear_bank::texts::{Note, Reference};
use std::alloc::{AllocError, Global};

const HEADER: &str = "reference,value_date,employer,cents,purpose,note\n";

// A file of two payments.
const PAYMENTS: &str = "reference,value_date,employer,cents,purpose,note\n\
    B1,2024-02-25,1001,150000,C,\n\
    B2,2024-04-21,1001,200000,,January rest\n";

const QUOTED: &str =
    "reference,\"value_date\",employer,cents,purpose,note\r\n\"B1\",2024-02-25,,1,I,\"a,b\"";

const LIMIT: usize = 10_000;

// What a line says.
struct Said {
    reference: &'static str,
    day: &'static str,
    employer: Option<u32>,
    cents: u64,
    purpose: Purpose,
    note: &'static str,
}

const FIRST: Said = Said {
    reference: "B1",
    day: "2024-02-25",
    employer: Some(1001),
    cents: 150_000,
    purpose: Purpose::Contribution,
    note: "",
};

const SECOND: Said = Said {
    reference: "B2",
    day: "2024-04-21",
    employer: Some(1001),
    cents: 200_000,
    purpose: Purpose::Contribution,
    note: "January rest",
};

const THIRD: Said = Said {
    reference: "B1",
    day: "2024-02-25",
    employer: None,
    cents: 1,
    purpose: Purpose::Interest,
    note: "a,b",
};

fn is_said(line: &BankLine, said: &Said) -> bool {
    line.reference.as_str() == said.reference
        && line.value.text().as_slice() == said.day.as_bytes()
        && line.employer.map(|employer| employer.number()) == said.employer
        && line.cents.cents() == said.cents
        && line.purpose == said.purpose
        && line.note.as_str() == said.note
}

// Whether these are the lines of a file, and a copy of each says the same.
fn has_lines(alloc: Global, file: &str, lines: &[Said]) -> bool {
    match read_file(alloc, file.as_bytes(), LIMIT) {
        Ok(found) => {
            found.len() == lines.len()
                && found.iter().zip(lines).all(|(line, said)| {
                    is_said(line, said) && is_copied(line, said)
                })
        }
        Err(_) => false,
    }
}

fn is_copied(line: &BankLine, said: &Said) -> bool {
    match line.copied() {
        Ok(copy) => is_said(&copy, said),
        Err(_) => false,
    }
}

const REFERENCES: [(&[u8], bool); 6] = [
    (b"", false),
    (b"!", true),
    (b"~", true),
    (b"a b", false),
    (&[b'a'; 35], true),
    (&[b'a'; 36], false),
];

const NOTES: [(&[u8], bool); 6] = [
    (b"", true),
    (b"Stra\xC3\x9Fe", true),
    (b"\xC3", false),
    (b"a\x7F", false),
    (&[b'a'; 140], true),
    (&[b'a'; 141], false),
];

fn is_reference(alloc: Global, bytes: &[u8], good: bool) -> bool {
    match Reference::new(alloc, bytes) {
        Ok(found) => found.is_some() == good,
        Err(_) => false,
    }
}

fn is_note(alloc: Global, bytes: &[u8], good: bool) -> bool {
    match Note::new(alloc, bytes) {
        Ok(found) => found.is_some() == good,
        Err(_) => false,
    }
}

#[test]
fn lines_say_their_fields(rt: HostRuntime) {
    let alloc = rt.alloc();
    assert!(rt; has_lines(alloc, PAYMENTS, &[FIRST, SECOND]));
    assert!(rt; has_lines(alloc, QUOTED, &[THIRD]));
    assert!(rt; payments_end_anywhere(alloc));
    assert!(rt;
        REFERENCES
            .iter()
            .all(|(bytes, good)| is_reference(alloc, bytes, *good))
    );
    assert!(rt;
        NOTES
            .iter()
            .all(|(bytes, good)| is_note(alloc, bytes, *good))
    );
}

// Records behind a header, what is known before, and how many lines are new and how many repeats.
const ADDED: [(&str, &str, usize, usize); 4] = [
    (
        "B1,2024-02-25,1001,150000,C,\nB2,2024-04-21,1001,200000,,January rest\n",
        HEADER,
        2,
        0,
    ),
    (
        "B1,2024-02-25,1001,150000,C,\nB2,2024-04-21,1001,200000,,January rest\n",
        PAYMENTS,
        0,
        2,
    ),
    ("", PAYMENTS, 0, 0),
    (
        "B6,2024-03-01,,10,I,\nB5,2024-03-01,,20,,\nB5,2024-03-01,,20,C,\n",
        HEADER,
        2,
        1,
    ),
];

// Records behind a header, what is known before, and the record whose reference stands earlier with
// another content.
const CONFLICTS: [(&str, &str, usize); 2] = [
    ("B1,2024-02-25,1001,150001,C,\n", PAYMENTS, 2),
    (
        "B6,2024-03-01,,10,I,\nB5,2024-03-01,,20,,\nB5,2024-03-01,,21,,\n",
        HEADER,
        4,
    ),
];

// Records behind a header, the first bad record, and its first bad field.
const BAD_RECORDS: [(&str, usize, u8); 9] = [
    ("B1,2024-02-30,,1,C,\n", 2, 2),
    ("\nB1,2024-02-25,,0,C,\n", 2, 4),
    ("B1,2024-02-25,,1,C,\nB 2,2024-02-25,,1,C,\n", 3, 1),
    ("B1,2024-02-25,0,1,C,\n", 2, 3),
    ("B1,2024-02-25,,01,C,\n", 2, 4),
    ("B1,2024-02-25,,1,c,\n", 2, 5),
    ("B1,2024-02-25,,1,C,\"a\nb\"\n", 2, 6),
    ("B1,2024-02-25,,1,C\n", 2, 0),
    ("B1,2024-02-25,,1,C,a,b\n", 2, 0),
];

// What a file adds to what is known: how many lines are new and how many are repeats.
fn added(alloc: Global, file: &[u8], known: &str) -> Result<(usize, usize), BankFault> {
    let known = read_file(alloc, known.as_bytes(), LIMIT)?;
    let lines = read_file(alloc, file, LIMIT)?;
    let judged = judge_file(alloc, lines.as_slice(), known.as_slice())?;
    Ok((judged.new.len(), judged.repeats))
}

// What becomes of a file: how many lines are new and how many are repeats, or which record is
// refused, and its bad field.
fn becomes(alloc: Global, file: &[u8]) -> (&'static str, usize, usize) {
    match added(alloc, file, HEADER) {
        Ok((new, repeats)) => ("read", new, repeats),
        Err(BankFault::BadCsv { line, fault }) => ("bad", line, usize::from(fault.number())),
        Err(BankFault::RefConflict { line }) => ("conflict", line, 0),
        Err(BankFault::OverLimit) => ("too long", 0, 0),
        Err(BankFault::Memory) => ("no memory", 0, 0),
    }
}

fn is_told(alloc: Global, file: &[u8], word: &str, first: usize, second: usize) -> bool {
    let (told, one, other) = becomes(alloc, file);
    told == word && one == first && other == second
}

// A part of a file, and what becomes of the file where it ends within that part or with it.
type Part = (&'static [u8], &'static str, usize, usize);

// Whether a file that has begun goes on by these parts.
fn ends_so(alloc: Global, begun: &[u8], parts: &[Part]) -> bool {
    let Ok(begun) = Vec::from_slice(alloc, begun) else {
        return false;
    };
    let mut file = begun;
    for (part, word, first, second) in parts {
        for byte in *part {
            if file.push(*byte).is_err() {
                return false;
            }
            if !is_told(alloc, file.as_slice(), word, *first, *second) {
                return false;
            }
        }
    }
    true
}

const MARKED_HEADER: &[u8] = b"\xEF\xBB\xBFreference,value_date,employer,cents,purpose,note\n";

const MARK_PARTS: [Part; 1] = [(b"\xEF\xBB\xBF", "bad", 1, 1)];

const TWO_MARKS_PARTS: [Part; 1] = [(
    b"\xEF\xBB\xBF\xEF\xBB\xBFreference,value_date,employer,cents,purpose,note\n",
    "bad",
    1,
    1,
)];

const HEADER_PARTS: [Part; 3] = [
    (b"reference,value_date,employer,cents,purpose", "bad", 1, 0),
    (b",not", "bad", 1, 6),
    (b"e\n", "read", 0, 0),
];

const SHORT_HEADER_PARTS: [Part; 1] = [(
    b"reference,value_date\nB1,2024-02-25,1001,150000,C,\n",
    "bad",
    1,
    0,
)];

const PAYMENT_PARTS: [Part; 4] = [
    (b"B1,2024-02-25,1001,150000,C", "bad", 2, 0),
    (b",\n", "read", 1, 0),
    (b"B2,2024-04-21,1001,200000,", "bad", 3, 0),
    (b",January rest\n", "read", 2, 0),
];

// Whether each end of a file of two payments is told, with a byte order mark in front or without
// one; two of them are no file.
fn payments_end_anywhere(alloc: Global) -> bool {
    is_told(alloc, b"", "bad", 1, 1)
        && ends_so(alloc, b"", &HEADER_PARTS)
        && ends_so(alloc, HEADER.as_bytes(), &PAYMENT_PARTS)
        && ends_so(alloc, b"", &MARK_PARTS)
        && ends_so(alloc, b"\xEF\xBB\xBF", &HEADER_PARTS)
        && ends_so(alloc, MARKED_HEADER, &PAYMENT_PARTS)
        && ends_so(alloc, b"", &TWO_MARKS_PARTS)
}

// A reference twice, with one content.
const REPEAT_PARTS: [Part; 6] = [
    (b"B6,2024-03-01,,10,I", "bad", 2, 0),
    (b",\n", "read", 1, 0),
    (b"B5,2024-03-01,,20,", "bad", 3, 0),
    (b",\n", "read", 2, 0),
    (b"B5,2024-03-01,,20,C", "bad", 4, 0),
    (b",\n", "read", 2, 1),
];

// With two.
const CONFLICT_PARTS: [Part; 6] = [
    (b"B6,2024-03-01,,10,I", "bad", 2, 0),
    (b",\n", "read", 1, 0),
    (b"B5,2024-03-01,,20,", "bad", 3, 0),
    (b",\n", "read", 2, 0),
    (b"B5,2024-03-01,,21,", "bad", 4, 0),
    (b",\n", "conflict", 4, 0),
];

// No day, and a record behind it.
const DAY_PARTS: [Part; 2] = [
    (b"B1,2024-02-30,1001,150000,C", "bad", 2, 0),
    (b",\nB2,2024-04-21,1001,200000,,January rest\n", "bad", 2, 2),
];

// No cents.
const CENTS_PARTS: [Part; 2] = [
    (b"B1,2024-02-25,1001,0,C", "bad", 2, 0),
    (b",\nB2,2024-04-21,1001,200000,,January rest\n", "bad", 2, 4),
];

// Whether each end of files that are repeated, in conflict or bad is told.
fn refused_files_end_anywhere(alloc: Global) -> bool {
    ends_so(alloc, HEADER.as_bytes(), &REPEAT_PARTS)
        && ends_so(alloc, HEADER.as_bytes(), &CONFLICT_PARTS)
        && ends_so(alloc, b"", &SHORT_HEADER_PARTS)
        && ends_so(alloc, HEADER.as_bytes(), &DAY_PARTS)
        && ends_so(alloc, HEADER.as_bytes(), &CENTS_PARTS)
}

fn with_header(alloc: Global, records: &str) -> Result<String, AllocError> {
    [HEADER, records].concat(alloc)
}

fn adds(alloc: Global, records: &str, known: &str, new: usize, repeats: usize) -> bool {
    match with_header(alloc, records) {
        Ok(file) => matches!(
            added(alloc, file.as_bytes(), known),
            Ok((found, again)) if found == new && again == repeats
        ),
        Err(_) => false,
    }
}

fn conflicts(alloc: Global, records: &str, known: &str, line: usize) -> bool {
    match with_header(alloc, records) {
        Ok(file) => matches!(
            added(alloc, file.as_bytes(), known),
            Err(BankFault::RefConflict { line: found }) if found == line
        ),
        Err(_) => false,
    }
}

fn is_bad(alloc: Global, records: &str, line: usize, field: u8) -> bool {
    match with_header(alloc, records) {
        Ok(file) => matches!(
            read_file(alloc, file.as_bytes(), LIMIT),
            Err(BankFault::BadCsv { line: found, fault }) if found == line && fault.number() == field
        ),
        Err(_) => false,
    }
}

// A file of as many payments as there may be, with references from a number on.
fn long_file(alloc: Global, first: usize) -> Result<String, AllocError> {
    let mut file = String::from_str(alloc, HEADER)?;
    for i in 0..LIMIT {
        let record = format!(in alloc; "B{},2024-02-25,,1,C,\n", first.wrapping_add(i))?;
        file.push_str(record.as_str())?;
    }
    Ok(file)
}

// What a file adds, half of whose lines are those of another.
fn half_added(alloc: Global) -> Result<(usize, usize), BankFault> {
    let known = long_file(alloc, 0)?;
    let file = long_file(alloc, 5_000)?;
    added(alloc, file.as_bytes(), known.as_str())
}

// A file of as many records as there may be, the first of them bad.
fn full_file(alloc: Global) -> Result<String, AllocError> {
    let mut file = String::from_str(alloc, HEADER)?;
    file.push_str("B1,2024-02-30,,1,C,\n")?;
    for _ in 1..LIMIT {
        file.push_str("B2,2024-02-25,,1,C,\n")?;
    }
    Ok(file)
}

const LAST_PARTS: [Part; 1] = [(b"B", "too long", 0, 0)];

// Whether a file is too long as soon as a further record has begun.
fn is_too_long(alloc: Global) -> bool {
    match full_file(alloc) {
        Ok(file) => {
            let front = file.as_bytes();
            is_told(alloc, front, "bad", 2, 2) && ends_so(alloc, front, &LAST_PARTS)
        }
        Err(_) => false,
    }
}

#[test]
fn files_are_judged_or_refused(rt: HostRuntime) {
    let alloc = rt.alloc();
    assert!(rt;
        ADDED.iter().all(|(file, known, new, repeats)| adds(alloc, file, known, *new, *repeats))
    );
    assert!(rt;
        CONFLICTS
            .iter()
            .all(|(file, known, line)| conflicts(alloc, file, known, *line))
    );
    assert!(rt;
        BAD_RECORDS.iter().all(|(records, line, field)| is_bad(alloc, records, *line, *field))
    );
    assert!(rt; refused_files_end_anywhere(alloc));
    assert!(rt; matches!(half_added(alloc), Ok((5_000, 5_000))));
    assert!(rt; is_too_long(alloc));
}
