//! What statements on months are given.
ghost use Rattle.std.specs.Prelude.{◌≡◌};
ghost use Rattle.sqlite.specs.Values.{bound};
ghost use Rattle.clear_firms.specs.Shown.{month_given};

use clear_columns::parameters::employer;
use clear_money::months::Month;
use clear_money::numbers::EmployerNo;
use clear_schema::values::month;
use sqlite_value::value::ValueRef;

/// What a query is given of a firm and a month.
pub fn month_values(no: EmployerNo, at: Month) -> [ValueRef<'static>; 2]
    ensures { bound result ≡ month_given no at }
{
    [employer(no), month(at)]
}
