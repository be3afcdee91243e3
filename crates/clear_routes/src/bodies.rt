//! What the bodies of commands say, each a JSON object with just the members that are listed. What
//! the path says besides is passed along.
ghost use Rattle.std.specs.Prelude.{◌≡◌, IfErr};
ghost use Rattle.clear_routes.specs.Faults.{Gives};
ghost use Rattle.clear_routes.specs.Bodies.{rate_of, registration_of, end_of, report_of};
ghost use Rattle.clear_routes.specs.Bodies.{correction_of, assignment_of, claim_of, nothing_of};
ghost use Rattle.clear_routes.specs.declared.faults.BodyFault.TheVariants as fault;
ghost use Rattle.clear_routes.specs.declared.faults.Member.TheVariants as member;

use crate::faults::{BodyFault, Member};
use crate::object::read_body;
use crate::within::Within;
use clear_book::calls::{
    Assignment, Correction, HolidayClaim, MembershipEnd, Registration, WageReport,
};
use clear_book::texts::{Name, Reference, WageLines};
use clear_money::months::Month;
use clear_money::numbers::{Amount, EmployerNo, WorkerNo};
use clear_money::rates::RateRow;
use std::alloc::Global;

// The bounds of a rate, of the type that a range of numbers takes.
const MAX_SHARE: u64 = RateRow::MAX_SHARE as u64;

const MAX_INTEREST_RATE: u64 = RateRow::MAX_INTEREST_RATE as u64;

const LAST_DAY: u64 = RateRow::LAST_DAY as u64;

/// A share of wages, in hundredths of a percent.
type Share = Within<0, MAX_SHARE>;

/// An interest rate for each begun month, in hundredths of a percent.
type InterestRate = Within<0, MAX_INTEREST_RATE>;

/// A day that each month has.
type DayOfEachMonth = Within<1, LAST_DAY>;

/// The values of a row of rates, in the order of their members.
type RateValues = (
    Share,
    (
        DayOfEachMonth,
        (Share, (Month, (InterestRate, (DayOfEachMonth, ())))),
    ),
);

/// The version that a correction is to replace.
type Version = Within<1, 4_294_967_295>;

/// The rates from a month on. In hundredths of a percent, `contribution` and `entitlement` are
/// numbers from 0 to 10,000 and `interest`, for each begun month, one from 0 to 1,000; `due_day`
/// and `report_day` are days 1 to 28 of the following month; and `from` is a month, as for a
/// registration.
#[tactic(auto, unfolding(crate::specs::Bodies::rate_of))]
pub fn read_rate(alloc: Global, body: &[u8]) -> Result<RateRow, BodyFault>
    ensures { Gives result (rate_of body.now) }
{
    let (contribution, (due_day, (entitlement, (from, (interest, (report_day, ())))))) =
        read_body::<RateValues>(
            alloc,
            body,
            &[
                "contribution",
                "due_day",
                "entitlement",
                "from",
                "interest",
                "report_day",
            ],
        )?;
    Ok(rate_row(
        from,
        contribution,
        report_day,
        due_day,
        interest,
        entitlement,
    ))
}

/// The row of these rates, each of which is in its range.
fn rate_row(
    first: Month,
    contribution: Share,
    report_day: DayOfEachMonth,
    due_day: DayOfEachMonth,
    interest: InterestRate,
    entitlement: Share,
) -> RateRow
    ensures { result ≡ record {
      first = first;
      contribution_rate = contribution;
      report_day = report_day;
      due_day = due_day;
      interest_rate = interest;
      entitlement_rate = entitlement;
    } }
{
    // No effect at run time: the proof reads the month's range from this call.
    let _number = first.number();
    let row = RateRow::new(
        first,
        contribution.number() as u16,
        report_day.number() as u8,
        due_day.number() as u8,
        interest.number() as u16,
        entitlement.number() as u16,
    );
    match row {
        Some(row) => row,
        None => unreachable!(),
    }
}

/// The registration of a firm: `employer`, a number from 1 to 99,999,999, `name`, a text of 1 to
/// 60 bytes without control characters, and `start`, a month `YYYY-MM` from 2000-01 to 2199-12.
#[tactic(auto, unfolding(crate::specs::Bodies::registration_of))]
pub fn read_registration(alloc: Global, body: &[u8]) -> Result<Registration, BodyFault>
    ensures { Gives result (registration_of body.now) }
{
    let (employer, (name, (start, ()))) = read_body::<(EmployerNo, (Name, (Month, ())))>(
        alloc,
        body,
        &["employer", "name", "start"],
    )?;
    Ok(Registration {
        employer,
        name,
        start,
    })
}

/// The end of an employer's membership: `last`, its last member month, as for a registration.
#[tactic(auto, unfolding(crate::specs::Bodies::end_of))]
pub fn read_end(
    alloc: Global,
    employer: EmployerNo,
    body: &[u8],
) -> Result<MembershipEnd, BodyFault>
    ensures { Gives result (end_of employer body.now) }
{
    let (last, ()) = read_body::<(Month, ())>(alloc, body, &["last"])?;
    Ok(MembershipEnd { employer, last })
}

/// The report of an employer's month: `lines`, an array of objects with just the members `gross`,
/// cents of 64 bits, and `worker`, a number from 1 to 999,999,999.
#[tactic(auto, unfolding(crate::specs::Bodies::report_of))]
pub fn read_report(
    alloc: Global,
    employer: EmployerNo,
    month: Month,
    body: &[u8],
) -> Result<WageReport, BodyFault>
    ensures { Gives result (report_of employer month body.now) }
{
    let (lines, ()) = read_body::<(WageLines, ())>(alloc, body, &["lines"])?;
    Ok(WageReport {
        employer,
        month,
        lines,
    })
}

/// The correction of an employer's month: `lines`, as for a report, and `version`, a number from 1
/// to 4,294,967,295, whatever version the month has.
#[tactic(auto, unfolding(crate::specs::Bodies::correction_of))]
pub fn read_correction(
    alloc: Global,
    employer: EmployerNo,
    month: Month,
    body: &[u8],
) -> Result<Correction, BodyFault>
    ensures { Gives result (correction_of employer month body.now) }
{
    let (lines, (version, ())) = read_body::<(WageLines, (Version, ()))>(
        alloc,
        body,
        &["lines", "version"],
    )?;
    let report = WageReport {
        employer,
        month,
        lines,
    };
    Ok(Correction {
        report,
        version: version.number() as u32,
    })
}

/// A bank line that is given to a firm: `employer`, a number from 1 to 99,999,999, and `reference`,
/// a text of 1 to 35 bytes from 0x21 to 0x7E.
#[tactic(auto, unfolding(crate::specs::Bodies::assignment_of))]
pub fn read_assignment(alloc: Global, body: &[u8]) -> Result<Assignment, BodyFault>
    ensures { Gives result (assignment_of body.now) }
{
    let (employer, (reference, ())) = read_body::<(EmployerNo, (Reference, ()))>(
        alloc,
        body,
        &["employer", "reference"],
    )?;
    Ok(Assignment {
        reference,
        employer,
    })
}

/// The claim of an employer: `cents`, a number from 1 to 100,000,000,000, and `worker`, a number
/// from 1 to 999,999,999.
#[tactic(auto, unfolding(crate::specs::Bodies::claim_of))]
pub fn read_claim(
    alloc: Global,
    employer: EmployerNo,
    body: &[u8],
) -> Result<HolidayClaim, BodyFault>
    ensures { Gives result (claim_of employer body.now) }
{
    let (cents, (worker, ())) = read_body::<(Amount, (WorkerNo, ()))>(
        alloc,
        body,
        &["cents", "worker"],
    )?;
    Ok(HolidayClaim {
        employer,
        worker,
        cents,
    })
}

/// The body of a request that has none: it is empty, or else it is wrong.
pub fn read_nothing(body: &[u8]) -> Result<(), BodyFault>
    ensures read { Gives result (nothing_of body.now) }
    ensures err { IfErr result (λ why. why ≡ fault.Bad member.Body) }
{
    if body.is_empty() {
        Ok(())
    } else {
        Err(BodyFault::Bad(Member::Body))
    }
}
