//! A law of the definitions, which is proved and has no effect.
ghost use Rattle.std.specs.Prelude.{◌≡◌, ◌∷◌, [], codes, Some};
ghost use Rattle.toml.specs.Data.{member, no_members, table};
ghost use Rattle.clear_check.specs.RateFound.{outside_found, first_other, row_wrong};

/// What is found at some faults: a row of rates without a member, a member that no row has, and another
/// member beside the rows.
pub fn law_finds_by_example()
    ensures missing { row_wrong (table no_members) ≡ Some (codes "from is missing") }
    ensures other { row_wrong (table (member (codes "duedate") (table no_members) no_members))
        ≡ Some (codes "duedate is no member of a row") }
    ensures beside { outside_found (first_other (codes "rate" ∷ [])
        (member (codes "rates") (table no_members) no_members))
        ≡ codes "rates is no member of a rate file" }
{}
