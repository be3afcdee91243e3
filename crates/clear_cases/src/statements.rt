//! The widths of a statement's amounts, and what a refused row leaves.
use clear_book::documents::{ChargeState, FirmAccount, Payment};
use clear_book::texts::{CreditReference, Name};
use clear_money::days::Day;
use clear_money::months::Month;
use clear_money::numbers::EmployerNo;
use clear_texts::rows::{ChargeRow, RowSource};
use clear_texts::statement::statement;
use clear_values::causes::{Fault, StoreCause};
use std::alloc::Global;

// An amount of one cent, the last one in its column, and the first one that is wider.
fn account(alloc: Global) -> Option<FirmAccount> {
    let name = String::from_str(alloc, "Bau Nord").ok()?;
    Some(FirmAccount {
        employer: EmployerNo::new(1001)?,
        day: Day::read(b"2024-04-30")?,
        name: Name::new(name)?,
        start: Month::read(b"2024-01")?,
        last: None,
        prepaid: 1,
        arrears: 9_999_999_999_999,
        interest: 10_000_000_000_000,
    })
}

const STATEMENT: &str = "before\n\
    statement 1001 2024-04-30\n\
    name Bau Nord\n\
    member 2024-01 -\n\
    prepaid           0.01\n\
    arrears 99999999999.99\n\
    interest 100000000000.00\n";

// A row of the charge of 2024-01.
fn row(alloc: Global) -> Option<ChargeRow> {
    let reference = String::from_str(alloc, "B1").ok()?;
    Some(ChargeRow {
        state: ChargeState {
            month: Month::read(b"2024-01")?,
            due: Day::read(b"2024-02-20")?,
            version: 1,
            contribution: 200_000,
            left: 0,
            interest: 3_000,
        },
        piece: Some(Payment {
            day: Day::read(b"2024-02-25")?,
            cents: 150_000,
            reference: CreditReference::new(reference)?,
        }),
    })
}

// Gives so many rows, and then ends or refuses the next one.
#[derive(Drop)]
struct Rows {
    alloc: Global,
    left: u32,
    refuses: bool,
}

impl RowSource for Rows {
    ghost use Rattle.std.specs.Prelude.{⊤};

    type Row = ChargeRow;

    ghost next_gives = { λ _ _ _. ⊤ };

    ghost next_refuses = { λ _ _ _. ⊤ };

    fn next(&mut self) -> Result<Option<ChargeRow>, Fault> {
        if self.left > 0 {
            self.left -= 1;
            Ok(row(self.alloc))
        } else if self.refuses {
            Err(Fault::Store(StoreCause::Other))
        } else {
            Ok(None)
        }
    }
}

// Whether a statement over these rows is refused by them or not, and what then stands.
fn leaves(mut rows: Rows, wanted: &str) -> bool {
    let alloc = rows.alloc;
    let (Some(account), Ok(mut text)) = (account(alloc), String::from_str(alloc, "before\n")) else {
        return false;
    };
    let outcome = match statement(alloc, &account, &[], &[], &mut rows, &mut text) {
        Ok(()) => !rows.refuses,
        Err(Fault::Store(StoreCause::Other)) => rows.refuses,
        Err(_) => false,
    };
    outcome && text.as_str() == wanted
}

#[test]
fn amounts_have_a_width_and_a_refused_row_leaves_nothing(rt: HostRuntime) {
    let alloc = rt.alloc();
    let none = Rows {
        alloc,
        left: 0,
        refuses: false,
    };
    assert!(rt; leaves(none, STATEMENT));
    for left in 0..4 {
        let some = Rows {
            alloc,
            left,
            refuses: true,
        };
        assert!(rt; leaves(some, "before\n"));
    }
}
