//! The versions of a firm's reports, and the months of its charges.
ghost use Rattle.std.specs.Prelude.{◌≡◌};
ghost use Rattle.clear_records.specs.Records.{ChargesRise, MonthsRise, has_charge, version_in};

use clear_book::rows::ReportRow;
use clear_kept::rows::WeighedCharge;
use clear_money::months::Month;

/// The version of a month's report, found by a search among reports whose months rise.
pub(crate) fn find_version(reports: &[ReportRow], month: Month) -> Option<u32>
    ensures { MonthsRise reports.now → result ≡ version_in reports.now month }
{
    match reports.binary_search_by_key(&month, |report| report.month) {
        Ok(place) => Some(reports[place].version),
        Err(_place) => None,
    }
}

/// Whether there is a charge for a month, found by a search among charges whose months rise.
pub(crate) fn has_charge(charges: &[WeighedCharge], month: Month) -> bool
    ensures { ChargesRise charges.now → result ≡ has_charge charges.now month }
{
    charges
        .binary_search_by_key(&month, |charge| charge.month)
        .is_ok()
}
