//! Laws: what follows from the definitions alone. A law has no parameters and no effect; its
//! contract is the law.
ghost use Rattle.std.specs.Prelude.{◌≡◌, ◌≢◌, ◌↔◌, ℕ, ◌+◌, List, ◌∷◌, ◌++◌, Bool, true};
ghost use Rattle.std.specs.Prelude.{◌==◌, ◌≤◌, ◌<◌, ◌⊎◌, [], false};
ghost use Rattle.std.specs.Prelude.{IfSome, IsSome, IsTrue, length, map};
ghost use Rattle.std.specs.Prelude.{Option, None, Some};
ghost use Rattle.std.specs.List.{AllByRecursion, list_any, range_with_len, Contains};
ghost use Rattle.std.specs.Option.{option_map_or};
ghost use Rattle.clear_money.specs.Calendar.{IsMonth, day_in};
ghost use Rattle.clear_money.specs.Rates.{Rate, rate_in_force};
ghost use Rattle.clear_account.specs.Allocation.{right_pieces};
ghost use Rattle.clear_bank.specs.Laws.{HasNoReferenceTwice};
ghost use Rattle.clear_values.specs.First.{first_tables};
ghost use Rattle.clear_values.specs.Keyed.{AreInOrder};
ghost use Rattle.clear_book.specs.declared.calls.Call.{Call};
ghost use Rattle.clear_book.specs.declared.calls.Call.TheVariants.{Ask, Do};
ghost use Rattle.clear_values.specs.declared.callers.Caller.{Caller};
ghost use Rattle.clear_values.specs.declared.lines.Purpose.TheVariants.{Contribution, Interest};
ghost use Rattle.clear_book.specs.declared.calls.Command.{Command};
ghost use Rattle.clear_book.specs.declared.calls.Command.TheVariants.{Correct, ImportBank, Report};
ghost use Rattle.clear_book.specs.declared.calls.Correction.{Correction};
ghost use Rattle.clear_book.specs.declared.calls.Query.{Query};
ghost use Rattle.clear_book.specs.declared.calls.WageReport.{WageReport};
ghost use Rattle.clear_book.specs.declared.outcomes.Outcome.{Outcome};
ghost use Rattle.clear_book.specs.declared.outcomes.Outcome.TheVariants.{Refused};
ghost use Rattle.clear_values.specs.declared.replies.Reply.{Reply};
ghost use Rattle.clear_book.specs.declared.rules.Limit.TheVariants.{Book as BookLimit};
ghost use Rattle.clear_book.specs.declared.rules.Rule.{Rule};
ghost use Rattle.clear_book.specs.declared.rules.Rule.TheVariants.{BadBody, DayBack, Failed};
ghost use Rattle.clear_book.specs.declared.rules.Rule.TheVariants.{NotYours, NumberReused};
ghost use Rattle.clear_book.specs.declared.rules.Rule.TheVariants.{OverLimit, Store};
ghost use Rattle.clear_values.specs.declared.causes.StoreCause.{StoreCause};
ghost use Rattle.clear_values.specs.declared.causes.StoreCause.TheVariants.{Other};
ghost use Rattle.clear_book.specs.Accounts.{charges_of, credit_key, credits_of, credits_standing};
ghost use Rattle.clear_book.specs.Accounts.{is_overdue, missing};
ghost use Rattle.clear_book.specs.Allocated.{AreAllocated, AreSameCharges, Represents, StandsWeighed};
ghost use Rattle.clear_book.specs.Book.{Book, Entry, Member, entry, entry_under, first_book};
ghost use Rattle.clear_book.specs.Book.{latest_lines, ledger_day, member_of, rates_of};
ghost use Rattle.clear_book.specs.Book.{reported_version};
ghost use Rattle.clear_book.specs.Conserved.{firm_cents, interest_cents, pieces_cents};
ghost use Rattle.clear_book.specs.Conserved.{prepaid_cents, set_off_cents, standing_cents};
ghost use Rattle.clear_book.specs.Conserved.{suspense_cents};
ghost use Rattle.clear_book.specs.Judge.{a_refusal, an_answer, answer_to, judge, kept_reply};
ghost use Rattle.clear_book.specs.Judge.{new_reply, own_query, own_rule, reply_to, run_text};
ghost use Rattle.clear_book.specs.Calls.{command_bytes, may_do, may_query, same_command};
ghost use Rattle.clear_book.specs.Laws.{AreCounted, AreEmployers, AreNumbered, AreSorted, IsBy};
ghost use Rattle.clear_book.specs.Laws.{IsSmall};
ghost use Rattle.clear_values.specs.declared.rows.BankRow.{BankRow};
ghost use Rattle.clear_book.specs.Lines.{credits_after, credits_made, line_of, lines_after};
ghost use Rattle.clear_book.specs.Lines.{lines_of_rows, lines_seen, lines_standing};
ghost use Rattle.clear_book.specs.Machine.{Goes, IsLawful, Runs, appended, step};
ghost use Rattle.clear_book.specs.Own.Release.{settlement_of};
ghost use Rattle.clear_book.specs.Pieces.{piece_rows_of, row_piece};
ghost use Rattle.clear_book.specs.Calls.{IsCall, IsCommand};
ghost use Rattle.clear_values.specs.Limits.{most_entries};
ghost use Rattle.clear_values.specs.Ranges.{AreRates};
ghost use Rattle.clear_values.specs.RowRanges.{AreInRange, settled};
ghost use Rattle.clear_values.specs.declared.rows.ClaimRow.{ClaimRow};
ghost use Rattle.clear_values.specs.declared.rows.ClaimState.TheVariants.{Released};
ghost use Rattle.clear_values.specs.declared.rows.PieceRow.{PieceRow};
ghost use Rattle.clear_values.specs.declared.rows.ReleasedClaim.{ReleasedClaim};
ghost use Rattle.clear_book.specs.Tables.{Tables, Stands, table_charges, table_credits};
ghost use Rattle.clear_book.specs.Tables.{list_key, reminder_key, table_claimed, table_entitlement};
ghost use Rattle.clear_book.specs.Tables.{wages_of_worker};
ghost use Rattle.clear_book.specs.Workers.{claimed, claims_of, entitlement_of, is_employed};
ghost use Rattle.clear_book.specs.Workers.{is_on, is_payable, is_released_since};
ghost use Rattle.clear_book.specs.Workers.{claim_of, last_list_day, list_of, lists_of};
ghost use Rattle.clear_book.specs.Listed.{IsListOf};
ghost use Rattle.clear_book.specs.Reached.{IsReached};
ghost use Rattle.clear_book.specs.Reminded.{IsRunOf};
ghost use Rattle.clear_book.specs.Reminders.{last_reminder, reminders_due, reminders_of, run_of};
ghost use Rattle.clear_book.specs.Reminders.{runs_of};
ghost use Rattle.clear_book.specs.Rules.{number_of};
ghost use Rattle.clear_book.specs.Released.{IsReleaseOf, IsSettlement, KeepsList, with_list};

/// A book without entries over a table of rates is lawful.
pub fn law_first_book()
    ensures { (rates : List Rate) → AreRates rates
        → IsLawful (first_book rates) }
{}

/// The tables of an office without requests are those of the book without entries.
pub fn law_first_tables()
    ensures { (rates : List Rate) → Stands (first_book rates) (first_tables rates) }
{}

/// The rates of a lawful book are ones that a `RateTable` allows: there is a row, the first months
/// rise strictly, and each row is in its ranges.
pub fn law_rates()
    ensures { (b : Book) → IsLawful b → AreRates (rates_of b) }
{}

/// The row in force for a month is one of the rows, begins not after the month, and no other row
/// that begins not after the month begins later. Where none is in force, each row begins after it.
pub fn law_in_force()
    ensures found { (rates : List Rate) (m : ℕ) (r : Rate) → rate_in_force rates m ≡ Some r
        → Contains rates r × (r.first ≤ m)
        × AllByRecursion (λ q. q.first ≤ m → q.first ≤ r.first) rates }
    ensures none { (rates : List Rate) (m : ℕ) → rate_in_force rates m ≡ None
        → AllByRecursion (λ q. m < q.first) rates }
{}

/// A rate row is in force for each month of which a lawful book has a report, so a definition that
/// says something of a month without one is never asked for it.
pub fn law_rated()
    ensures { (b : Book) (e m : ℕ) → IsLawful b → IsSome (latest_lines b.entries e m)
        → IsSome (rate_in_force (rates_of b) m) }
{}

/// A run over calls whose values lie in their ranges leads from a lawful book to a lawful one.
pub fn law_lawful()
    ensures { (failed end : Bool) (b : Book) (calls : List Call) (outcomes : List Outcome)
        (last : Book) → Runs failed end b calls outcomes last → AllByRecursion IsCall calls
        → IsLawful b → IsLawful last }
{}

/// And each lawful book is one that such a run leads to, from the book without entries.
pub fn law_reached()
    ensures { (b : Book) → IsLawful b → IsReached b }
{}

/// Once the store has failed, every outcome is that the office has failed, and the book stays.
pub fn law_failed()
    ensures outcomes { (end : Bool) (b : Book) (calls : List Call) (outcomes : List Outcome)
        (last : Book) → Runs true end b calls outcomes last
        → AllByRecursion (λ outcome. outcome ≡ Refused Failed) outcomes }
    ensures book { (end : Bool) (b : Book) (calls : List Call) (outcomes : List Outcome)
        (last : Book) → Runs true end b calls outcomes last → last ≡ b }
{}

/// The judge names only rules on a call that was read: none on how a request is sent or written,
/// which are those up to 6 and `BadBody`, and none on memory or on the store, from 40 on.
pub fn law_judged()
    ensures { (b : Book) (call : Call) (rule : Rule) → judge b call ≡ a_refusal rule
        → (7 ≤ number_of rule) × (number_of rule ≤ 33) × (rule ≢ BadBody) }
{}

/// The checks of a command come in one order, whatever else applies. One that access does not allow
/// is refused for that. Then, where another command stands under its number, the number is used, and
/// where the same one does, its reply is given again, whatever the day. Where nothing does, a day before
/// that of the last request is refused with that day; then a full book refuses; and then the first of
/// the command's own rules that applies. Where none does, it has its reply.
pub fn law_order_for_commands()
    ensures access { (b : Book) (caller : Caller) (number day : ℕ) (command : Command)
        → may_do caller command ≡ false
        → judge b (Do caller number day command) ≡ a_refusal NotYours }
    ensures used { (b : Book) (caller : Caller) (number day : ℕ) (command : Command) (x : Entry)
        → may_do caller command ≡ true → entry_under b.entries caller number ≡ Some x
        → x.command ≢ command
        → judge b (Do caller number day command) ≡ a_refusal NumberReused }
    ensures kept { (b : Book) (caller : Caller) (number day : ℕ) (command : Command) (x : Entry)
        → may_do caller command ≡ true → entry_under b.entries caller number ≡ Some x
        → x.command ≡ command
        → judge b (Do caller number day command) ≡ kept_reply x.reply }
    ensures back { (b : Book) (caller : Caller) (number day last : ℕ) (command : Command)
        → may_do caller command ≡ true → entry_under b.entries caller number ≡ None
        → ledger_day b.entries ≡ Some last → day < last
        → judge b (Do caller number day command) ≡ a_refusal (DayBack last) }
    ensures full { (b : Book) (caller : Caller) (number day : ℕ) (command : Command)
        → may_do caller command ≡ true → entry_under b.entries caller number ≡ None
        → IfSome (ledger_day b.entries) (λ last. last ≤ day) → most_entries ≤ length b.entries
        → judge b (Do caller number day command) ≡ a_refusal (OverLimit BookLimit) }
    ensures own { (b : Book) (caller : Caller) (number day : ℕ) (command : Command) (rule : Rule)
        → may_do caller command ≡ true → entry_under b.entries caller number ≡ None
        → IfSome (ledger_day b.entries) (λ last. last ≤ day) → length b.entries < most_entries
        → own_rule b day command ≡ Some rule
        → judge b (Do caller number day command) ≡ a_refusal rule }
    ensures none { (b : Book) (caller : Caller) (number day : ℕ) (command : Command)
        → may_do caller command ≡ true → entry_under b.entries caller number ≡ None
        → IfSome (ledger_day b.entries) (λ last. last ≤ day) → length b.entries < most_entries
        → own_rule b day command ≡ None
        → judge b (Do caller number day command) ≡ new_reply (reply_to b day command) }
{}

/// The checks of a query come in one order, too: access, the day, the query's own rules. Where none
/// applies, it has its answer.
pub fn law_order_for_queries()
    ensures access { (b : Book) (caller : Caller) (day : ℕ) (query : Query)
        → may_query caller query ≡ false
        → judge b (Ask caller day query) ≡ a_refusal NotYours }
    ensures back { (b : Book) (caller : Caller) (day last : ℕ) (query : Query)
        → may_query caller query ≡ true → ledger_day b.entries ≡ Some last → day < last
        → judge b (Ask caller day query) ≡ a_refusal (DayBack last) }
    ensures own { (b : Book) (caller : Caller) (day : ℕ) (query : Query) (rule : Rule)
        → may_query caller query ≡ true → IfSome (ledger_day b.entries) (λ last. last ≤ day)
        → own_query b query ≡ Some rule → judge b (Ask caller day query) ≡ a_refusal rule }
    ensures none { (b : Book) (caller : Caller) (day : ℕ) (query : Query)
        → may_query caller query ≡ true → IfSome (ledger_day b.entries) (λ last. last ≤ day)
        → own_query b query ≡ None
        → judge b (Ask caller day query) ≡ an_answer (answer_to b day query) }
{}

/// A call that is answered with a fault of the store is so because the store failed: no key that
/// stands already and no value out of its range is ever to blame.
pub fn law_store_fault()
    ensures { (failed then : Bool) (b : Book) (call : Call) (cause : StoreCause) (next : Book)
        → Goes failed then b call (Refused (Store cause)) next → cause ≡ Other }
{}

/// A lawful book has at most 50,000,000 entries, its reports at most 10,000 versions of at most 500
/// lines of at most 10,000,000 cents, a base of at most 5,000,000,000 cents; the charges of a firm
/// come to at most 12,000,000,000,000 cents; a firm has at most 100,000 payments for each purpose,
/// together at most 10,000,000,000,000,000 cents; at most 100,000 lines are in suspense, at most
/// 500,000,000,000 came in, and no more serials than that were given; a worker has earned at most
/// 240,000,000,000,000 cents, and at most 5,000,000,000,000,000,000 are claimed for it: no sum
/// leaves its type. No payment has a day after that of the last request.
pub fn law_small()
    ensures { (b : Book) → IsLawful b → IsSmall b }
{}

/// Each lawful book has tables that represent it: they stand for it, with the pieces of each firm's
/// account, what is open of its contributions, and their weights.
pub fn law_has_tables()
    ensures { (b : Book) → IsLawful b → (t : Tables) × Represents b t }
{}

/// Two tables that stand for one book keep the same contributions, and are equal but for what is
/// paid of these and for the pieces; where what is paid of them is that of the firms' accounts, they
/// are equal but for the pieces; and where the pieces are allocated alike, too, they are equal.
pub fn law_one_table()
    ensures but_paid { (b : Book) (t u : Tables) → Stands b t → Stands b u
        → AreSameCharges t.charges u.charges
        × (record t { pieces = u.pieces; charges = u.charges } ≡ u) }
    ensures but_pieces { (b : Book) (t u : Tables) → StandsWeighed b t → StandsWeighed b u
        → record t { pieces = u.pieces } ≡ u }
    ensures whole { (b : Book) (t u : Tables) (g : PieceRow → PieceRow) → Stands b t → Stands b u
        → AreAllocated g t → AreAllocated g u → t ≡ u }
{}

/// Each row of the tables of a lawful book, its pieces aside, lies in its ranges.
pub fn law_rows_in_range()
    ensures { (b : Book) (t : Tables) → IsLawful b → Stands b t → AreInRange t }
{}

/// After a report or a correction of a firm's month the latest lines of it are those that came, and
/// its version is one more than before, 1 where there was none; those of other firms and months are
/// as before. After another command all are.
pub fn law_latest_lines()
    ensures reported { (xs : List Entry) (caller : Caller) (number day : ℕ) (r : WageReport)
        (reply : Reply) → let after = entry caller number day (Report r) reply ∷ xs in
        (latest_lines after r.employer r.month ≡ Some r.lines)
        × (reported_version after r.employer r.month
        ≡ Some (option_map_or (λ v. v + 1) (reported_version xs r.employer r.month) 1)) }
    ensures corrected { (xs : List Entry) (caller : Caller) (number day : ℕ) (c : Correction)
        (reply : Reply) → let after = entry caller number day (Correct c) reply ∷ xs in
        (latest_lines after c.report.employer c.report.month ≡ Some c.report.lines)
        × (reported_version after c.report.employer c.report.month
        ≡ Some (option_map_or (λ v. v + 1)
        (reported_version xs c.report.employer c.report.month) 1)) }
    ensures others { (xs : List Entry) (x : Entry) (e m : ℕ)
        → ((r : WageReport) → x.command ≡ Report r → (e ≢ r.employer) ⊎ (m ≢ r.month))
        → ((c : Correction) → x.command ≡ Correct c
        → (e ≢ c.report.employer) ⊎ (m ≢ c.report.month))
        → (latest_lines (x ∷ xs) e m ≡ latest_lines xs e m)
        × (reported_version (x ∷ xs) e m ≡ reported_version xs e m) }
{}

/// The report of a month is overdue from the day after its report day on, which is one of the
/// month behind it, at the rate row in force; without such a row it never is.
pub fn law_overdue()
    ensures due { (rates : List Rate) (m t : ℕ) (r : Rate) → rate_in_force rates m ≡ Some r
        → t ≤ day_in (m + 1) r.report_day → is_overdue rates t m ≡ false }
    ensures late { (rates : List Rate) (m t : ℕ) (r : Rate) → rate_in_force rates m ≡ Some r
        → day_in (m + 1) r.report_day < t → is_overdue rates t m ≡ true }
    ensures unrated { (rates : List Rate) (m t : ℕ) → rate_in_force rates m ≡ None
        → is_overdue rates t m ≡ false }
{}

/// A month is missing of a firm just where it is not before the firm's first member month, nor
/// behind its last one, its report is overdue, and there is none. Of one that isn't registered none
/// is missing.
pub fn law_missing()
    ensures just { (b : Book) (e t : ℕ) (member : Member) → member_of b.entries e ≡ Some member
        → AllByRecursion (λ m. (member.start ≤ m) × IfSome member.last (λ last. m ≤ last)
        × (is_overdue (rates_of b) t m ≡ true) × (latest_lines b.entries e m ≡ None))
        (missing b e t) }
    ensures all { (b : Book) (e t m : ℕ) (member : Member)
        → member_of b.entries e ≡ Some member → IsMonth m → member.start ≤ m
        → IfSome member.last (λ last. m ≤ last) → is_overdue (rates_of b) t m ≡ true
        → latest_lines b.entries e m ≡ None → Contains (missing b e t) m }
    ensures unregistered { (b : Book) (e t : ℕ) → member_of b.entries e ≡ None
        → missing b e t ≡ [] }
{}

/// The contributions that follow from the report and wage rows of the tables of a lawful book are
/// those of the book, the months rising.
pub fn law_charges()
    ensures { (b : Book) (t : Tables) (e : ℕ)
        → IsLawful b → Stands b t → table_charges t e ≡ charges_of b e }
{}

/// The employers of a lawful book rise strictly, are those that it has registered, and are as many.
pub fn law_employers()
    ensures { (b : Book) → IsLawful b → AreEmployers b }
{}

/// The claims of a book have the numbers 1, 2, 3, .. in the order in which they were made.
pub fn law_claims()
    ensures { (b : Book) → AreNumbered (claims_of b.entries) }
{}

/// What the tables hold of a worker's claims that aren't withdrawn comes to what is claimed in the
/// book.
pub fn law_claimed()
    ensures { (b : Book) (t : Tables) (w : ℕ) → Stands b t → table_claimed t w ≡ claimed b w }
{}

/// A claim that is released in a lawful book comes of an entry that is its release, on that entry's
/// day and with that entry's reply, and no later entry changes its day and its settlement: all that
/// can come is that it goes on a payout list, and once it is on one, that stays.
pub fn law_released()
    ensures entry { (b : Book) (number : ℕ) (claim : ClaimRow) (release : ReleasedClaim)
        → IsLawful b → claim_of b.entries number ≡ Some claim → claim.state ≡ Released release
        → (x : Entry) × Contains b.entries x × IsReleaseOf number release x }
    ensures stays { (x : Entry) (b : Book) (number : ℕ) (claim : ClaimRow)
        (release : ReleasedClaim) → IsLawful (appended b x)
        → claim_of b.entries number ≡ Some claim → claim.state ≡ Released release
        → (list : Option ℕ) × KeepsList release.list list
        × (claim_of (x ∷ b.entries) number ≡ Some (with_list release list claim)) }
{}

/// The payout lists of a lawful book have the numbers 1, 2, 3, .. in the order in which they were
/// made. Each has just the claims that are on it, one at least, of each of which something is paid
/// out, and it comes to their sum. A claim is on no other list than one of them, and one that is on
/// a list is the same after any further entry, so it is on one list at most. A claim of which
/// something is to be paid out, on no list yet, was released on the day of the last list or later.
pub fn law_listed()
    ensures lists { (b : Book) → IsLawful b
        → AllByRecursion (IsListOf b.entries) (lists_of b.entries) }
    ensures numbers { (b : Book) → IsLawful b → map (λ list. list.list) (lists_of b.entries)
        ≡ range_with_len 1 (length (lists_of b.entries)) }
    ensures order { (b : Book) → IsLawful b → AreInOrder list_key (lists_of b.entries) }
    ensures there { (b : Book) → IsLawful b → (number list : ℕ) (claim : ClaimRow)
        → claim_of b.entries number ≡ Some claim → is_on list claim.state ≡ true
        → IsSome (list_of b.entries list) }
    ensures stays { (x : Entry) (b : Book) (number list : ℕ) (claim : ClaimRow)
        → IsLawful (appended b x) → claim_of b.entries number ≡ Some claim
        → is_on list claim.state ≡ true → claim_of (x ∷ b.entries) number ≡ Some claim }
    ensures payable { (b : Book) → IsLawful b → (number : ℕ) (claim : ClaimRow)
        → claim_of b.entries number ≡ Some claim → is_payable claim.state ≡ true
        → is_released_since (last_list_day b.entries) claim.state ≡ true }
{}

/// The reminder runs of a lawful book have the numbers 1, 2, 3, .. in the order in which they were
/// made. Each reminds as many firms as there are reminders of it, one at least. The reminders rise
/// by run, then employer; each is of one of the runs, and of a level from 1 to 3. A firm to which
/// one is due on a day was last reminded 14 days before or earlier. The document of a run stays,
/// whatever comes.
pub fn law_reminders()
    ensures runs { (b : Book) → IsLawful b → AllByRecursion (IsRunOf b) (runs_of b.entries) }
    ensures numbers { (b : Book) → IsLawful b → map (λ run. run.run) (runs_of b.entries)
        ≡ range_with_len 1 (length (runs_of b.entries)) }
    ensures order { (b : Book) → IsLawful b → AreInOrder reminder_key (reminders_of b) }
    ensures there { (b : Book) → IsLawful b
        → AllByRecursion (λ row. IsSome (run_of b.entries row.run)) (reminders_of b) }
    ensures levels { (b : Book)
        → AllByRecursion (λ row. (1 ≤ row.level) × (row.level ≤ 3)) (reminders_of b) }
    ensures apart { (b : Book) (t : ℕ)
        → AllByRecursion (λ row. IfSome (last_reminder b row.employer)
        (λ last. last.day + 14 ≤ t)) (reminders_due b t) }
    ensures stays { (x : Entry) (b : Book) (number : ℕ) → IsLawful (appended b x)
        → IsSome (run_of b.entries number)
        → run_text (appended b x) number ≡ run_text b number }
{}

/// A settlement is whole: its three parts come to the cents of the claim. No more is set off than
/// is owed, to interest only where all contributions that are owed are set off, and something is
/// paid out only where all that is owed is.
pub fn law_settlement()
    ensures { (cents owed interest : ℕ)
        → IsSettlement cents owed interest (settlement_of cents owed interest) }
{}

/// The pieces of a firm, told with the days and the references of its payments, are those of its
/// account.
pub fn law_pieces()
    ensures { (b : Book) (e : ℕ) → map row_piece (piece_rows_of b e)
        ≡ right_pieces (charges_of b e) (credits_of b e) }
{}

/// The bank lines and the releases of a book together have the serials 1, 2, 3, .. in the order in
/// which they came, those of the lines rise, and no reference stands twice. The lines that stand are
/// those that were seen, in their order, as the files had them and with their serials: only the firm
/// may be another one.
pub fn law_bank_lines()
    ensures counted { (b : Book) → AreCounted b.entries }
    ensures references { (b : Book) → HasNoReferenceTwice (lines_of_rows (lines_seen b.entries)) }
    ensures lines { (b : Book)
        → lines_of_rows (lines_standing b.entries) ≡ lines_of_rows (lines_seen b.entries) }
    ensures serials { (b : Book) → map (λ row. row.serial) (lines_standing b.entries)
        ≡ map (λ row. row.serial) (lines_seen b.entries) }
{}

/// A line of a lawful book that has a firm stands under it, unchanged, in each later one: no
/// assignment takes it from there.
pub fn law_lines_stay()
    ensures { (b : Book) (more : List Entry) (reference : List ℕ) (line : BankRow)
        → let later = record b { entries = more ++ b.entries } in IsLawful later
        → line_of b.entries reference ≡ Some line → IsSome line.employer
        → line_of later.entries reference ≡ Some line }
{}

/// What stands after a file is what stands in the book with it: the lines, and the payments.
pub fn law_after_import()
    ensures lines { (xs : List Entry) (caller : Caller) (number day : ℕ) (file : List ℕ)
        (reply : Reply) → lines_standing (entry caller number day (ImportBank file) reply ∷ xs)
        ≡ lines_after xs file }
    ensures credits { (xs : List Entry) (caller : Caller) (number day : ℕ) (file : List ℕ)
        (reply : Reply) → credits_made (entry caller number day (ImportBank file) reply ∷ xs)
        ≡ credits_after xs file }
{}

/// The payments of a book are those of its standing lines and the set-offs of its releases, in the
/// strict order of firm, purpose, day and serial.
pub fn law_credits_standing()
    ensures { (b : Book) → AreSorted credit_key (credits_standing b.entries)
        (credits_made b.entries) }
{}

/// The payments of contributions that the tables hold for an employer are those of the book, by
/// day, then serial.
pub fn law_credits()
    ensures { (b : Book) (t : Tables) (e : ℕ) → Stands b t → table_credits t e ≡ credits_of b e }
{}

/// What a worker has earned, in cents, by the wage rows that the tables of a lawful book hold is
/// what it has earned by the book's latest reports.
pub fn law_earned()
    ensures { (b : Book) (t : Tables) (w : ℕ)
        → IsLawful b → Stands b t → table_entitlement t w ≡ entitlement_of b w }
{}

/// The latest reports of a firm in a lawful book have a line of a worker exactly where the tables
/// hold a wage row of the two.
pub fn law_employed()
    ensures { (b : Book) (t : Tables) (e w : ℕ) → IsLawful b → Stands b t
        → list_any (λ row. row.employer == e) (wages_of_worker t w) ≡ is_employed b e w }
{}

/// Open parts and weights that are kept of an account are right on every later day, since no
/// credit of a lawful book comes from a day ahead, and no later entry changes the rates of a month
/// of which the book has a report: new rates begin behind the month of the day on which they are
/// added, and a month is reported when it has begun.
pub fn law_1()
    ensures days { (b : Book) → IsLawful b
        → AllByRecursion (λ row. IsBy (ledger_day b.entries) row.day)
        (credits_standing b.entries) }
    ensures rates { (b : Book) (more : List Entry) (e m : ℕ)
        → let later = record b { entries = more ++ b.entries } in IsLawful later
        → IsSome (latest_lines b.entries e m)
        → rate_in_force (rates_of later) m ≡ rate_in_force (rates_of b) m }
{}

/// A command that was accepted and comes again under its number, on any day and after any further
/// calls, has the reply that it had, and leaves the book.
pub fn law_2()
    ensures { (b : Book) (caller : Caller) (number day : ℕ) (command : Command) (reply : Reply)
        → judge b (Do caller number day command) ≡ new_reply reply
        → (failed end : Bool) (calls : List Call) (outcomes : List Outcome) (last : Book)
        → Runs failed end (step b (Do caller number day command)) calls outcomes last
        → (later : ℕ) → (judge last (Do caller number later command) ≡ kept_reply reply)
        × (step last (Do caller number later command) ≡ last) }
{}

/// No cent of a lawful book is lost. What came in for contributions, by standing lines and by
/// set-offs, is in the pieces of the firms, is prepaid, or is in suspense; the firms' payments of
/// interest are their standing lines of interest and the set-offs to interest; and each standing
/// line of interest is a firm's or is in suspense. A claim that is released is settled whole: its
/// cents are those of the three parts. It is on one payout list at most: whatever comes later, it is
/// on no other one.
pub fn law_3()
    ensures contributions { (b : Book) → IsLawful b
        → standing_cents b Contribution + set_off_cents b Contribution
        ≡ pieces_cents b + prepaid_cents b + suspense_cents b Contribution }
    ensures interest { (b : Book) → IsLawful b
        → interest_cents b ≡ firm_cents b Interest + set_off_cents b Interest }
    ensures interest_lines { (b : Book) → IsLawful b
        → standing_cents b Interest ≡ firm_cents b Interest + suspense_cents b Interest }
    ensures released { (b : Book) (number : ℕ) (claim : ClaimRow) (release : ReleasedClaim)
        → IsLawful b → claim_of b.entries number ≡ Some claim → claim.state ≡ Released release
        → settled release.settlement ≡ claim.cents }
    ensures one_list { (b : Book) (more : List Entry) (number list other : ℕ) (claim last : ClaimRow)
        → let later = record b { entries = more ++ b.entries } in IsLawful later
        → claim_of b.entries number ≡ Some claim → is_on list claim.state ≡ true
        → claim_of later.entries number ≡ Some last → is_on other last.state ≡ true
        → list ≡ other }
{}

/// Two commands are the same exactly where their kinds and each of their values are, and different
/// commands whose values lie in their ranges have different bytes.
pub fn law_4()
    ensures same { (c d : Command) → IsTrue (same_command c d) ↔ (c ≡ d) }
    ensures bytes { (c d : Command) → IsCommand c → IsCommand d
        → command_bytes c ≡ command_bytes d → c ≡ d }
{}
