//! Laws over the definitions alone: the functions do nothing, and their contracts are proved.
ghost use Rattle.std.specs.Prelude.{◌≡◌, ◌++◌, ◌∷◌, [], codes, Ok, Err};
ghost use Rattle.clear_bank.specs.Files.{file_lines};
ghost use Rattle.clear_bank.specs.Laws.{ConflictsAreWithAny, LinesAreInRange};
ghost use Rattle.clear_bank.specs.Laws.{byte_order_mark, header_text, cent_text, cent_line};
ghost use Rattle.clear_bank.specs.Laws.{interest_text, interest_line};
ghost use Rattle.clear_bank.specs.declared.fault.BankFault.TheVariants.{OverLimit, BadCsv};
ghost use Rattle.clear_bank.specs.declared.fields.BankField.TheVariants.{Cents, Note, Reference};
ghost use Rattle.clear_bank.specs.declared.fields.RecordFault.TheVariants.{FieldCount, Field};

/// A conflict is judged by the first line that bears the reference. Where no two known lines have
/// one reference, that is as if it were judged by every earlier line.
pub fn law_conflicts()
    ensures { ConflictsAreWithAny }
{}

/// Where a file is read, each of its lines has a reference of 1 to 35 visible bytes, a day from
/// 2000-01-01 to 2200-12-31, a firm's number from 1 to 99,999,999 if it names a firm, an amount
/// from 1 to 100,000,000,000 cents, and a note of at most 140 bytes of plain text.
pub fn law_lines_in_range()
    ensures { LinesAreInRange }
{}

/// What short bank files say, byte for byte: a header alone, files of one line and of two, and
/// faulty ones. One byte order mark is passed over. A file of too many records is refused for that,
/// whatever stands in them.
pub fn law_files_by_example()
    ensures no_header { file_lines 10000 [] ≡ Err (BadCsv 1 (Field Reference)) }
    ensures short_header { file_lines 10000 (codes "reference,value_date\n")
        ≡ Err (BadCsv 1 FieldCount) }
    ensures header_alone { file_lines 10000 header_text ≡ Ok [] }
    ensures one { file_lines 10000 (header_text ++ cent_text) ≡ Ok (cent_line ∷ []) }
    ensures two { file_lines 2 (header_text ++ cent_text ++ interest_text)
        ≡ Ok (cent_line ∷ interest_line ∷ []) }
    ensures no_cents { file_lines 10000 (header_text ++ codes "B1,2024-02-25,,0,,\n")
        ≡ Err (BadCsv 2 (Field Cents)) }
    ensures short_record { file_lines 10000 (header_text ++ cent_text ++ codes "B2,2024-02-25\n")
        ≡ Err (BadCsv 3 FieldCount) }
    ensures over_limit { file_lines 0 (header_text ++ cent_text) ≡ Err OverLimit }
    ensures over_and_bad { file_lines 0 (header_text ++ codes "B1\n") ≡ Err OverLimit }
    ensures marked { file_lines 10000 (byte_order_mark ++ header_text) ≡ Ok [] }
    ensures marked_twice { file_lines 10000 (byte_order_mark ++ byte_order_mark ++ header_text)
        ≡ Err (BadCsv 1 (Field Reference)) }
    ensures blank_first { file_lines 10000 (codes "\n" ++ header_text)
        ≡ Err (BadCsv 1 (Field Reference)) }
    ensures quoted { file_lines 10000
        (codes "\"reference\",value_date,employer,cents,purpose,note\n")
        ≡ Err (BadCsv 1 (Field Reference)) }
    ensures misnamed { file_lines 10000 (codes "reference,value_date,employer,cents,purpose,text\n")
        ≡ Err (BadCsv 1 (Field Note)) }
{}
