//! Laws: what follows from the definitions alone. A law has no parameters and no effect; its
//! contract is the law.
ghost use Rattle.std.specs.Prelude.{◌≡◌, ◌==◌, ℕ, List, filter};
ghost use Rattle.std.specs.List.{flat_map};
ghost use Rattle.clear_book.specs.Documents.Statement.{Statement, PaidCharge, charge_text};
ghost use Rattle.clear_book.specs.Documents.Statement.{statement_text};
ghost use Rattle.clear_book.specs.Allocated.{Represents};
ghost use Rattle.clear_book.specs.Book.{Book};
ghost use Rattle.clear_book.specs.Judge.{statement_on};
ghost use Rattle.clear_book.specs.Machine.{IsLawful};
ghost use Rattle.clear_book.specs.Tables.{Tables};
ghost use Rattle.clear_records.specs.declared.statement.StatementHead.{StatementHead};
ghost use Rattle.clear_texts.specs.Charges.{charge_lines};
ghost use Rattle.clear_texts.specs.Laws.{PaidChargesRise, rows_of};
ghost use Rattle.clear_texts.specs.Paid.{ArePiecesOf, statement_paid};
ghost use Rattle.clear_records.specs.Records.{IsHead};
ghost use Rattle.clear_texts.specs.Text.{text_of_rows};

/// Where the rows are those of charges with rising months, the lines are those of the charges: for
/// each its own line, and below it a line for each of its pieces.
pub fn law_charges()
    ensures { (charges : List PaidCharge) → PaidChargesRise charges
        → charge_lines (flat_map rows_of charges) ≡ flat_map charge_text charges }
{}

/// The text over the rows of a statement's charges is that of the statement, where their months
/// rise.
pub fn law_statement()
    ensures { (s : Statement) → PaidChargesRise s.charges
        → text_of_rows s.firm s.interest_credits s.missing (flat_map rows_of s.charges)
        ≡ statement_text s }
{}

/// The pieces that the tables of a lawful book keep of a firm are those of its statement's charges,
/// and the statement over them is the one that the judge answers.
pub fn law_paid_statement()
    ensures text { (b : Book) (t : Tables) (e day : ℕ) (head : StatementHead) → IsLawful b
        → Represents b t → IsHead b e day head
        → statement_paid head
        (filter (λ row. row.employer == head.firm.employer) t.pieces) ≡ statement_on b day e }
    ensures pieces { (b : Book) (t : Tables) (e day : ℕ) (head : StatementHead) → IsLawful b
        → Represents b t → IsHead b e day head
        → ArePiecesOf head
        (filter (λ row. row.employer == head.firm.employer) t.pieces) }
{}
