//! Laws: what follows from the definitions alone. A law has no parameters and no effect; its
//! contract is the law.
ghost use Rattle.std.specs.List.{AllByRecursion};
ghost use Rattle.std.specs.Prelude.{◌≡◌, ◌≤◌, ℕ, List, [], Some, None};
ghost use Rattle.clear_values.specs.declared.callers.Caller.{Caller};
ghost use Rattle.clear_values.specs.Keyed.{AreInOrder};
ghost use Rattle.clear_values.specs.Tables.{RequestRow, request_key};
ghost use Rattle.clear_ledger.specs.Kept.{greatest_number, requests_of};

/// In the order of the keys, no request of a caller has a number above the one that is called the
/// greatest, and there is one wherever the caller has made a request.
pub fn law_greatest_number()
    ensures greatest { (caller : Caller) (rows : List RequestRow) (number : ℕ)
        → AreInOrder request_key rows → greatest_number caller rows ≡ Some number
        → AllByRecursion (λ row. row.number ≤ number) (requests_of caller rows) }
    ensures none { (caller : Caller) (rows : List RequestRow)
        → greatest_number caller rows ≡ None → requests_of caller rows ≡ [] }
{}
