//! Laws: what follows from the definitions alone. A law has no parameters and no effect; its
//! contract is the law.
ghost use Rattle.std.specs.Prelude.{◌≡◌, ◌≢◌, ℕ, List, length, Ok, Err};
ghost use Rattle.sqlite.specs.Held.{state};
ghost use Rattle.sqlite.specs.Order.{Row};
ghost use Rattle.sqlite.specs.State.{HasCleanDisk};
ghost use Rattle.sqlite.specs.declared.error.Error.{Error};
ghost use Rattle.clear_values.specs.declared.causes.StoreCause.TheVariants.{Constraint};
ghost use Rattle.clear_schema.specs.Faults.{fault_of};
ghost use Rattle.clear_schema.specs.Frame.{AnswersJust, CountsAll};
ghost use Rattle.clear_schema.specs.declared.fault.Fault.TheVariants.{Store};
ghost use Rattle.clear_columns.specs.Reading.{HasSomeTables, IsLeftOn};

use sqlite::Alter;

/// A count of what a query answers is the number of its rows.
pub fn law_counted<S: Alter>()
    ensures { (old : _) (new : _) (sql : List ℕ) (params : Row) (rows : List Row) (n : ℕ)
        → CountsAll S.Store old new sql params (Ok n) → HasCleanDisk (state S.Store new)
        → AnswersJust S.Store sql params (state S.Store old).now rows → n ≡ length rows }
{}

/// A query that does not begin may leave its connection as it was. No key is to blame for it where the
/// database has tables, on an honest disk.
pub fn law_left<S: Alter>()
    ensures unchanged { (old : _) (error : Error) → fault_of error ≢ Store Constraint
        → IsLeftOn {A = ℕ} S.Store old (Err error) old }
    ensures no_key { (old : _) (new : _) (error : Error) → IsLeftOn {A = ℕ} S.Store old (Err error) new
        → HasSomeTables (state S.Store old).now → HasCleanDisk (state S.Store new)
        → fault_of error ≢ Store Constraint }
{}
