//! Accounts that a person worked out, and the largest ones.
use clear_account::entries::{AccountFault, Charge, Credit, Piece};
use clear_account::keeper::Keeper;
use clear_account::kept::Kept;
use clear_account::owed::{arrears, has_rates, interest};
use clear_account::plain::Plain;
use clear_account::refill::refill;
use clear_account::turns::Turns;
use clear_money::days::Day;
use clear_money::months::Month;
use clear_money::numbers::Amount;
use clear_money::rates::{RateRow, RateTable};
use std::alloc::Global;

// A charge: its month, the day on which it is due, and its cents.
type Owed = (&'static str, &'static str, u64);

// A payment: its serial, its day, and its cents.
type Paid = (u64, &'static str, u64);

// What a payment pays of a charge: the month, the payment's serial, and the cents.
type Part = (&'static str, u64, u64);

const CHARGES: [Owed; 2] = [
    ("2024-01", "2024-02-20", 200_000),
    ("2024-02", "2024-03-20", 100_010),
];

const PAYMENTS: [Paid; 2] = [(1, "2024-02-25", 150_000), (2, "2024-04-21", 200_000)];

// An account, and what it comes to on 2024-04-30 at one percent for each begun month.
struct Worked {
    charges: &'static [Owed],
    payments: &'static [Paid],
    parts: &'static [Part],
    // Months, and the weights of their charges.
    weights: &'static [(&'static str, u64)],
    interest: u64,
    prepaid: u64,
}

const WORKED: [Worked; 3] = [
    Worked {
        charges: &CHARGES,
        payments: &PAYMENTS,
        parts: &[
            ("2024-01", 1, 150_000),
            ("2024-01", 2, 50_000),
            ("2024-02", 2, 100_010),
        ],
        weights: &[("2024-01", 300_000), ("2024-02", 200_020)],
        interest: 5_000,
        prepaid: 49_990,
    },
    // January is charged anew.
    Worked {
        charges: &[
            ("2024-01", "2024-02-20", 200_000),
            ("2024-02", "2024-03-20", 100_010),
            ("2024-01", "2024-02-20", 100_000),
        ],
        payments: &PAYMENTS,
        parts: &[
            ("2024-01", 1, 100_000),
            ("2024-02", 1, 50_000),
            ("2024-02", 2, 50_010),
        ],
        weights: &[("2024-01", 100_000), ("2024-02", 100_020)],
        interest: 2_000,
        prepaid: 149_990,
    },
    // The first payment comes last.
    Worked {
        charges: &CHARGES,
        payments: &[
            (1, "2024-02-25", 150_000),
            (2, "2024-04-21", 200_000),
            (3, "2024-02-20", 60_000),
        ],
        parts: &[
            ("2024-01", 3, 60_000),
            ("2024-01", 1, 140_000),
            ("2024-02", 1, 10_000),
            ("2024-02", 2, 90_010),
        ],
        weights: &[("2024-01", 140_000), ("2024-02", 180_020)],
        interest: 3_200,
        prepaid: 109_990,
    },
];

fn put<K: Keeper>(account: &mut K, charge: &Owed) -> bool {
    let (month, due, cents) = *charge;
    match (Month::read(month.as_bytes()), Day::read(due.as_bytes())) {
        (Some(month), Some(due)) if cents <= Charge::MAX_CENTS && due.day_of_month() <= 28 => {
            account.set_charge(Charge { month, due, cents }).is_ok()
        }
        _ => false,
    }
}

fn pay<K: Keeper>(account: &mut K, payment: &Paid) -> bool {
    let (serial, day, cents) = *payment;
    match (Day::read(day.as_bytes()), Amount::new(cents)) {
        (Some(day), Some(cents)) if !account.holds(serial) => {
            account.add_credit(Credit { day, serial, cents }).is_ok()
        }
        _ => false,
    }
}

// An account with these charges, put one after another, and then these payments.
fn account(alloc: Global, charges: &[Owed], payments: &[Paid]) -> Option<Plain> {
    filled(Plain::new(alloc), charges, payments)
}

// The same, with its pieces kept.
fn kept(alloc: Global, charges: &[Owed], payments: &[Paid]) -> Option<Kept> {
    filled(Kept::new(alloc), charges, payments)
}

fn filled<K: Keeper + Drop>(mut account: K, charges: &[Owed], payments: &[Paid]) -> Option<K> {
    for charge in charges {
        if !put(&mut account, charge) {
            return None;
        }
    }
    for payment in payments {
        if !pay(&mut account, payment) {
            return None;
        }
    }
    Some(account)
}

// One percent for each begun month from a month on.
fn rates(alloc: Global, first: &str, interest: u16) -> Option<RateTable> {
    let first = Month::read(first.as_bytes())?;
    let row = RateRow::new(first, 2_000, 15, 20, interest, 1_425)?;
    RateTable::first(alloc, row).ok()
}

fn interest_on<K: Keeper>(account: &K, rates: &RateTable, day: &str) -> Option<u64> {
    let day = Day::read(day.as_bytes())?;
    if !has_rates(account, rates) || day < account.last_day() {
        return None;
    }
    Some(interest(account, rates, day))
}

fn weight_on<K: Keeper>(account: &K, month: &str, day: &str) -> Option<u64> {
    let day = Day::read(day.as_bytes())?;
    if day < account.last_day() {
        return None;
    }
    account.weight_of(Month::read(month.as_bytes())?, day)
}

fn is_piece(piece: &Piece, part: &Part) -> bool {
    let (month, serial, cents) = *part;
    piece.month.text().as_slice() == month.as_bytes()
        && piece.serial == serial
        && piece.cents == cents
}

fn are_pieces(pieces: &[Piece], parts: &[Part]) -> bool {
    pieces.len() == parts.len()
        && pieces
            .iter()
            .zip(parts)
            .all(|(piece, part)| is_piece(piece, part))
}

fn has_pieces<K: Keeper>(alloc: Global, account: &K, parts: &[Part]) -> bool {
    match account.pieces(alloc) {
        Ok(pieces) => are_pieces(pieces.as_slice(), parts),
        Err(_) => false,
    }
}

fn has_weights<K: Keeper>(account: &K, weights: &[(&str, u64)]) -> bool {
    for (month, weight) in weights {
        if weight_on(account, month, "2024-04-30") != Some(*weight) {
            return false;
        }
    }
    true
}

fn comes_to<K: Keeper + Drop>(alloc: Global, account: Option<K>, worked: &Worked) -> bool {
    match (account, rates(alloc, "2024-01", 100)) {
        (Some(account), Some(rates)) => {
            has_pieces(alloc, &account, worked.parts)
                && has_weights(&account, worked.weights)
                && interest_on(&account, &rates, "2024-04-30") == Some(worked.interest)
                && account.prepaid() == worked.prepaid
        }
        _ => false,
    }
}

// Whether both keepers make of the worked account what it comes to.
fn both_come_to(alloc: Global, worked: &Worked) -> bool {
    let plain = account(alloc, worked.charges, worked.payments);
    let kept = kept(alloc, worked.charges, worked.payments);
    comes_to(alloc, plain, worked) && comes_to(alloc, kept, worked)
}

// February of the first account, charged anew.
const FEBRUARY: Owed = ("2024-02", "2024-03-20", 80_000);

// The charge of February and the second payment, behind January's charge and the first payment.
fn rest() -> Option<(Charge, Credit)> {
    let (month, due, cents) = FEBRUARY;
    let charge = Charge {
        month: Month::read(month.as_bytes())?,
        due: Day::read(due.as_bytes())?,
        cents,
    };
    let (serial, day, cents) = PAYMENTS[1];
    let credit = Credit {
        day: Day::read(day.as_bytes())?,
        serial,
        cents: Amount::new(cents)?,
    };
    Some((charge, credit))
}

// Whether they have one piece, in at most 3 turns.
fn refills_february(alloc: Global) -> bool {
    let Some((charge, credit)) = rest() else {
        return false;
    };
    if charge.cents > Charge::MAX_CENTS {
        return false;
    }
    let mut turns = Turns::new();
    match refill(alloc, 200_000, 150_000, &[charge], &[credit], &mut turns) {
        Ok(pieces) => {
            are_pieces(pieces.as_slice(), &[("2024-02", 2, 80_000)]) && turns.count() <= 3
        }
        Err(_) => false,
    }
}

// Whether a kept account makes only the last piece anew where February is charged anew.
fn keeps_january(alloc: Global) -> bool {
    let Some(mut account) = kept(alloc, &CHARGES, &PAYMENTS) else {
        return false;
    };
    put(&mut account, &FEBRUARY)
        && account.turns() <= 3
        && account.prepaid() == 70_000
        && has_pieces(
            alloc,
            &account,
            &[
                ("2024-01", 1, 150_000),
                ("2024-01", 2, 50_000),
                ("2024-02", 2, 80_000),
            ],
        )
}

#[test]
fn payments_pay_charges_in_order(rt: HostRuntime) {
    let alloc = rt.alloc();
    assert!(rt; WORKED.iter().all(|worked| both_come_to(alloc, worked)));
    assert!(rt; refills_february(alloc));
    assert!(rt; keeps_january(alloc));
}

// The first account above.
fn first(alloc: Global) -> Option<Plain> {
    account(alloc, &CHARGES, &PAYMENTS)
}

fn charged_before(account: &Plain, day: &str) -> Option<u64> {
    Some(account.charged_before(Day::read(day.as_bytes())?))
}

fn open_of(account: &Plain, month: &str) -> Option<u64> {
    account.open_of(Month::read(month.as_bytes())?)
}

fn second_cents(account: &Plain) -> Option<u64> {
    Some(account.charge_at(1)?.cents)
}

fn arrears_on(account: &Plain, day: &str) -> Option<u64> {
    Some(arrears(account, Day::read(day.as_bytes())?))
}

// Whether the first account tells its own lists.
fn tells_lists(alloc: Global) -> bool {
    match first(alloc) {
        Some(account) => {
            account.charged() == 300_010
                && account.credited() == 350_000
                && charged_before(&account, "2024-03-20") == Some(200_000)
                && open_of(&account, "2024-01") == Some(0)
                && open_of(&account, "2024-03").is_none()
                && account.charge_count() == 2
                && second_cents(&account) == Some(100_010)
                && account.last_day().text() == *b"2024-04-21"
        }
        None => false,
    }
}

const NOTHING: [Owed; 2] = [
    ("2024-02", "2024-03-20", 100_010),
    ("2024-01", "2024-02-20", 0),
];

// Whether a charge of nothing takes nothing of a payment, and is then replaced.
fn charges_nothing(alloc: Global) -> bool {
    let Some(mut account) = account(alloc, &NOTHING, &[(1, "2024-03-20", 100_010)]) else {
        return false;
    };
    has_pieces(alloc, &account, &[("2024-02", 1, 100_010)])
        && put(&mut account, &("2024-01", "2024-02-20", 20_000))
        && has_pieces(
            alloc,
            &account,
            &[("2024-01", 1, 20_000), ("2024-02", 1, 80_010)],
        )
        && open_of(&account, "2024-02") == Some(20_000)
        && arrears_on(&account, "2024-03-21") == Some(20_000)
}

// The interest for 2025 is 0.9 percent up to February, and 0.5 percent from March on.
fn rates_of_2025(alloc: Global) -> Option<RateTable> {
    let mut rates = rates(alloc, "2025-01", 90)?;
    let row = RateRow::new(Month::read(b"2025-03")?, 1_900, 15, 20, 50, 1_425)?;
    match rates.push(row) {
        Ok(()) => Some(rates),
        Err(_) => None,
    }
}

// The interest on 2025-04-20 of a charge of January 2025, which bears the rate of its own month.
fn interest_of_january(alloc: Global) -> Option<u64> {
    let rates = rates_of_2025(alloc)?;
    let account = account(alloc, &[("2025-01", "2025-02-20", 100_000)], &[])?;
    interest_on(&account, &rates, "2025-04-20")
}

#[test]
fn an_account_tells_what_is_owed(rt: HostRuntime) {
    let alloc = rt.alloc();
    assert!(rt; tells_lists(alloc));
    assert!(rt; charges_nothing(alloc));
    assert!(rt; interest_of_january(alloc) == Some(1_800));
}

// Whether the largest charge has the largest weight and interest, from the first day to the last.
fn has_largest_weight(alloc: Global) -> bool {
    let Some(mut account) = account(alloc, &[], &[]) else {
        return false;
    };
    let Some(rates) = rates(alloc, "2000-01", 1_000) else {
        return false;
    };
    account.last_day().text() == *b"2000-01-01"
        && put(&mut account, &("2000-01", "2000-02-01", 5_000_000_000))
        && weight_on(&account, "2000-01", "2200-12-31") == Some(12_055_000_000_000)
        && interest_on(&account, &rates, "2200-12-31") == Some(1_205_500_000_000)
}

// An account of 100,000 payments on one day of so many cents, with the serials 0, 1, ..
fn longest(alloc: Global, day: Day, cents: Amount) -> Result<Plain, AccountFault> {
    let mut account = Plain::new(alloc);
    for serial in 0..100_000 {
        account.add_credit(Credit { day, serial, cents })?;
    }
    Ok(account)
}

fn longest_on(alloc: Global, day: &str, cents: u64) -> Option<Plain> {
    longest(alloc, Day::read(day.as_bytes())?, Amount::new(cents)?).ok()
}

// Charges each month of these years 4,166 cents.
fn charge_all(account: &mut Plain, due: Day) -> bool {
    if due.day_of_month() > 28 {
        return false;
    }
    for year in 2_000..2_200 {
        for place in 1..13 {
            let Some(month) = Month::new(year, place) else {
                return false;
            };
            if account
                .set_charge(Charge {
                    month,
                    due,
                    cents: 4_166,
                })
                .is_err()
            {
                return false;
            }
        }
    }
    true
}

// Whether 100,000 payments of 100 cents and 2,400 charges, most of which end within a payment, make
// as many pieces as they should.
fn has_longest_lists(alloc: Global) -> bool {
    let (Some(mut account), Some(due)) = (
        longest_on(alloc, "2024-02-20", 100),
        Day::read(b"2024-02-20"),
    ) else {
        return false;
    };
    if !charge_all(&mut account, due) || account.charge_count() != 2_400 {
        return false;
    }
    match account.pieces(alloc) {
        Ok(pieces) => pieces.len() == 102_336 && account.prepaid() == 10_000_000 - 2_400 * 4_166,
        Err(_) => false,
    }
}

// Whether 100,000 payments of the largest amount are kept, and one more is refused.
fn has_largest_credits(alloc: Global) -> bool {
    let Some(mut account) = longest_on(alloc, "2024-02-20", 100_000_000_000) else {
        return false;
    };
    let (Some(day), Some(cents)) = (Day::read(b"2024-02-20"), Amount::new(1)) else {
        return false;
    };
    if account.credited() != 10_000_000_000_000_000 || account.holds(100_000) {
        return false;
    }
    let credit = Credit {
        day,
        serial: 100_000,
        cents,
    };
    matches!(account.add_credit(credit), Err(AccountFault::OverLimit))
        && account.credited() == 10_000_000_000_000_000
}

#[test]
fn the_largest_accounts(rt: HostRuntime) {
    let alloc = rt.alloc();
    assert!(rt; has_largest_weight(alloc));
    assert!(rt; has_longest_lists(alloc));
    assert!(rt; has_largest_credits(alloc));
}
