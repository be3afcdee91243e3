//! Laws of the definitions, which are proved and have no effect.
ghost use Rattle.std.specs.Prelude.{◌≡◌, ◌∷◌, [], true, false, codes, Some};
ghost use Rattle.clear_bank_check.specs.BankFound.{conflict_found};
ghost use Rattle.clear_bank_check.specs.Hints.{has_semicolons, is_amount_field, is_parted_amount};
ghost use Rattle.clear_bank_check.specs.Hints.{is_pointed_day};

/// Which texts are days and amounts as banks write them, and in which files semicolons part the fields.
pub fn law_hints_by_example()
    ensures day { is_pointed_day (codes "01.04.2024") ≡ true }
    ensures short_day { is_pointed_day (codes "01.04.24") ≡ true }
    ensures office_day { is_pointed_day (codes "2024-04-01") ≡ false }
    ensures amount { is_parted_amount (codes "15,00") ≡ true }
    ensures thousands { is_parted_amount (codes "-1.500,00") ≡ true }
    ensures cents { is_parted_amount (codes "1500") ≡ false }
    ensures no_amount { is_amount_field (codes "01.04.24") ≡ false }
    ensures in_header { has_semicolons (codes "a;b\n1,2,3\n") ≡ true }
    ensures in_lines { has_semicolons (codes "a,b\n1;2;3\n") ≡ true }
    ensures by_commas { has_semicolons (codes "a,b\n1;,3\n") ≡ false }
{}

/// What is found at a conflict: the record that a reference stands in already, even where that is the
/// name of its field.
pub fn law_conflict_by_example()
    ensures { conflict_found 3 ((codes "reference" ∷ []) ∷ (codes "reference" ∷ [])
        ∷ (codes "reference" ∷ []) ∷ [])
        ≡ Some (record { here = codes "reference"; other = codes "2" }) }
{}
