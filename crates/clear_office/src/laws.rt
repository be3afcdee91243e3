//! Laws: what follows from the definitions alone. A law has no parameters and no effect; its
//! contract is the law.
ghost use Rattle.std.specs.Prelude.{◌≡◌, List, None};
ghost use Rattle.clear_money.specs.Rates.{Rate};
ghost use Rattle.clear_values.specs.declared.rows.Change.{Change};
ghost use Rattle.clear_values.specs.Tables.{request_number};
ghost use Rattle.clear_book.specs.Allocated.{Represents};
ghost use Rattle.clear_book.specs.Book.{Book, Entry, first_book};
ghost use Rattle.clear_values.specs.Keyed.{find_row};
ghost use Rattle.clear_book.specs.Machine.{IsLawful};
ghost use Rattle.clear_values.specs.RowRanges.{IsReply};
ghost use Rattle.clear_values.specs.Tables.{Tables, changed, request_key};
ghost use Rattle.clear_book.specs.Tables.{Stands, noted};
ghost use Rattle.clear_database.specs.First.{first_tables};
ghost use Rattle.clear_schema.specs.Values.{counts_of};
ghost use Rattle.clear_schema.specs.declared.counts.Counts.{Counts};
ghost use Rattle.clear_store.specs.Changes.{IsFree, IsPuttable, IsThere};

/// A change that takes tables to those of a lawful book finds each key that it adds free, and the
/// number of its request, too. The numbers of the reply lie in their ranges, and so do those of its
/// rows and the counts after it, where what the change needs is there.
pub fn law_lawful_change()
    ensures free { (next : Book) (t : Tables) (x : Entry) (change : Change)
        → IsLawful next → Stands next (noted x (changed change t)) → IsFree change t }
    ensures puttable { (next : Book) (t : Tables) (x : Entry) (change : Change) (counts : Counts)
        → IsLawful next → Stands next (noted x (changed change t))
        → counts ≡ counts_of t → IsThere change t → IsPuttable counts change }
    ensures number { (next : Book) (t : Tables) (x : Entry) (change : Change)
        → Stands next (noted x (changed change t))
        → find_row request_key t.requests (request_number x.caller x.number) ≡ None }
    ensures reply { (next : Book) (t : Tables) (x : Entry) (change : Change)
        → IsLawful next → Stands next (noted x (changed change t)) → IsReply x.reply }
{}

/// The first tables are those of the first book, and so are its pieces: there are none.
pub fn law_first_pieces()
    ensures represents { (rates : List Rate) → Represents (first_book rates) (first_tables rates) }
{}
