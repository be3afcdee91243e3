//! Examples: what definitions come to in small cases. Each is a law without parameters.
ghost use Rattle.std.specs.Prelude.{◌≡◌, ℕ, ◌+◌, [], ◌∷◌, ◌++◌, codes, filter, map, None};
ghost use Rattle.std.specs.Prelude.{Err, Ok, Some};
ghost use Rattle.clear_account.specs.Allocation.{prepaid, right_pieces};
ghost use Rattle.clear_account.specs.Arrears.{arrears_on};
ghost use Rattle.clear_bank.specs.declared.fault.BankFault.TheVariants.{RefConflict};
ghost use Rattle.clear_bank.specs.Newness.{judgement};
ghost use Rattle.clear_money.specs.Rates.{Rate};
ghost use Rattle.clear_money.specs.Texts.{day_text};
ghost use Rattle.clear_book.specs.declared.calls.Command.TheVariants.{Register, Report, Correct};
ghost use Rattle.clear_book.specs.declared.calls.Command.TheVariants.{AddRate, EndMembership};
ghost use Rattle.clear_book.specs.declared.calls.Command.TheVariants.{ImportBank, Assign};
ghost use Rattle.clear_book.specs.declared.calls.Command.TheVariants.{Claim, Withdraw, Release};
ghost use Rattle.clear_book.specs.declared.calls.Command.TheVariants.{PayoutList, RemindRun};
ghost use Rattle.clear_values.specs.declared.lines.Purpose.TheVariants.{Contribution, Interest};
ghost use Rattle.clear_values.specs.declared.callers.Caller.TheVariants.{Clerk};
ghost use Rattle.clear_values.specs.declared.replies.Reply.{Reply};
ghost use Rattle.clear_values.specs.declared.replies.Reply.TheVariants.{Listed};
ghost use Rattle.clear_values.specs.declared.replies.Reply.TheVariants.{Released as settled_by};
ghost use Rattle.clear_values.specs.declared.rows.ClaimState.TheVariants.{Open, Released};
ghost use Rattle.clear_values.specs.Credits.{set_offs_of};
ghost use Rattle.clear_book.specs.Accounts.{credits_under};
ghost use Rattle.clear_book.specs.Book.{entry, first_book};
ghost use Rattle.clear_book.specs.Conserved.{is_line_of, line_cents};
ghost use Rattle.clear_book.specs.Documents.Amounts.{amount_text};
ghost use Rattle.clear_book.specs.Documents.Lines.{missing_line};
ghost use Rattle.clear_book.specs.Documents.Payout.{payout_text};
ghost use Rattle.clear_book.specs.Documents.Reminders.{reminders_text};
ghost use Rattle.clear_book.specs.Documents.Statement.{statement_text};
ghost use Rattle.clear_book.specs.Documents.Suspense.{suspense_text};
ghost use Rattle.clear_book.specs.Documents.Worker.{worker_text};
ghost use Rattle.clear_book.specs.Examples.{charge, claim, credit, february, four_claims};
ghost use Rattle.clear_book.specs.Examples.{january, last_of, line, piece, released, two_lines};
ghost use Rattle.clear_book.specs.Examples.{two_reminders};
ghost use Rattle.clear_book.specs.Lines.{credits_of_lines, is_in_suspense, set_offs};
ghost use Rattle.clear_book.specs.Own.PayoutList.{payout_list_reply};
ghost use Rattle.clear_book.specs.Reminders.{level_due};
ghost use Rattle.clear_book.specs.Workers.{entitlement_for, entitlement_of, is_on, is_payable};
ghost use Rattle.clear_book.specs.Workers.{on_list};
ghost use Rattle.clear_book.specs.Calls.{command_bytes};

/// Two payments, of which the first reaches a part of January, and the second the rest of it and
/// February: three pieces, and what is left over is prepaid.
pub fn law_pieces_of_two_payments()
    ensures pieces { right_pieces
        (charge january 200000 ∷ charge february 100010 ∷ [])
        (credit 1 150000 ∷ credit 2 200000 ∷ [])
        ≡ piece january 1 150000 ∷ piece january 2 50000 ∷ piece february 2 100010 ∷ [] }
    ensures prepaid { prepaid
        (charge january 200000 ∷ charge february 100010 ∷ [])
        (credit 1 150000 ∷ credit 2 200000 ∷ []) ≡ 49990 }
{}

/// A third payment that is dated before them comes first, and moves them on.
pub fn law_pieces_of_an_earlier_payment()
    ensures { right_pieces
        (charge january 200000 ∷ charge february 100010 ∷ [])
        (credit 3 60000 ∷ credit 1 150000 ∷ credit 2 200000 ∷ [])
        ≡ piece january 3 60000 ∷ piece january 1 140000 ∷ piece february 1 10000
        ∷ piece february 2 90010 ∷ [] }
{}

/// A contribution of 0 has no piece.
pub fn law_pieces_of_nothing()
    ensures { right_pieces
        (charge january 0 ∷ charge february 100010 ∷ [])
        (credit 1 100010 ∷ []) ≡ piece february 1 100010 ∷ [] }
{}

/// Of two lines for contributions, that of a firm pays January and a part of February, and the one
/// in suspense pays nothing: what came in is in the pieces and in suspense.
pub fn law_cents_of_two_lines()
    ensures all { line_cents Contribution two_lines ≡ 300000 }
    ensures suspense { line_cents Contribution (filter is_in_suspense two_lines) ≡ 50000 }
    ensures firm { line_cents Contribution (filter (is_line_of 1001) two_lines) ≡ 250000 }
    ensures payments { credits_under (credits_of_lines two_lines) 1001 Contribution
        ≡ credit 1 250000 ∷ [] }
    ensures pieces { right_pieces
        (charge january 200000 ∷ charge february 100010 ∷ []) (credit 1 250000 ∷ [])
        ≡ piece january 1 200000 ∷ piece february 1 50000 ∷ [] }
{}

/// The bytes under which commands are kept.
pub fn law_kept_bytes()
    ensures rate { command_bytes (AddRate (record {
      first = february;
      contribution_rate = 1900;
      report_day = 15;
      due_day = 20;
      interest_rate = 90;
      entitlement_rate = 1425;
    })) ≡ codes "rate 2024-02 1900 15 20 90 1425" }
    ensures register { command_bytes
        (Register (record { employer = 1001; name = codes "Bau Nord"; start = january }))
        ≡ codes "employer 1001 2024-01 Bau Nord" }
    ensures end { command_bytes (EndMembership (record { employer = 1001; last = january }))
        ≡ codes "end 1001 2024-01" }
    ensures report { command_bytes (Report (record {
      employer = 1001;
      month = january;
      lines = record { worker = 7; gross = 1000000 } ∷ record { worker = 8; gross = 50000 } ∷ [];
    })) ≡ codes "report 1001 2024-01 7:1000000 8:50000" }
    ensures no_lines { command_bytes
        (Report (record { employer = 1001; month = january; lines = [] }))
        ≡ codes "report 1001 2024-01" }
    ensures correct { command_bytes (Correct (record {
      report = record {
        employer = 1001;
        month = january;
        lines = record { worker = 7; gross = 500000 } ∷ [];
      };
      version = 1;
    })) ≡ codes "correct 1001 2024-01 1 7:500000" }
    ensures bank { command_bytes (ImportBank (codes "reference")) ≡ codes "bank reference" }
    ensures assign { command_bytes
        (Assign (record { reference = codes "line-1"; employer = 1001 }))
        ≡ codes "assign line-1 1001" }
    ensures claim { command_bytes
        (Claim (record { employer = 1001; worker = 7; cents = 10000 }))
        ≡ codes "claim 1001 7 10000" }
    ensures withdraw { command_bytes (Withdraw (record { employer = 1001; claim = 1 }))
        ≡ codes "withdraw 1001 1" }
    ensures release { command_bytes (Release 1) ≡ codes "release 1" }
    ensures payout { command_bytes PayoutList ≡ codes "payout" }
    ensures remind { command_bytes RemindRun ≡ codes "remind" }
{}

/// A payout list takes the claims of which something is paid out, and leaves one that is set off
/// whole and an open one; no further list takes any of them again.
pub fn law_four_claims()
    ensures reply { payout_list_reply 0 (filter (λ claim. is_payable claim.state)
        (four_claims None)) ≡ Listed 1 2 49500 }
    ensures listed { map (on_list 1) (four_claims None) ≡ four_claims (Some 1) }
    ensures again { filter (λ claim. is_payable claim.state) (four_claims (Some 1)) ≡ [] }
{}

/// A payout list with its claims.
pub fn law_payout_text()
    ensures { (day : ℕ) → payout_text
        (record { list = 1; day = day; items = 2; total = 49500 })
        (filter (λ claim. is_on 1 claim.state) (four_claims (Some 1)))
        ≡ (codes "payout 1 " ++ day_text day ++ codes "\n")
        ++ codes "claim 1 employer 1001 worker 7         400.00\n"
        ++ codes "claim 3 employer 1001 worker 7          95.00\n"
        ++ codes "items 2\ntotal         495.00\n" }
{}

/// The level of a reminder is the first one where there was none before. Else none is due before
/// the fourteenth day, then the next one, 3 at most, and after more than 60 days the first again.
pub fn law_levels()
    ensures first { (d : ℕ) → level_due None d ≡ Some 1 }
    ensures early { (d : ℕ) → level_due (Some (last_of 1 d)) (d + 13) ≡ None }
    ensures next { (d : ℕ) → level_due (Some (last_of 1 d)) (d + 14) ≡ Some 2 }
    ensures late { (d : ℕ) → level_due (Some (last_of 1 d)) (d + 60) ≡ Some 2 }
    ensures again { (d : ℕ) → level_due (Some (last_of 1 d)) (d + 61) ≡ Some 1 }
    ensures greatest { (d : ℕ) → level_due (Some (last_of 3 d)) (d + 14) ≡ Some 3 }
{}

/// A reminder run of two firms, of which one has missing months.
pub fn law_reminders_text()
    ensures { (day : ℕ) → reminders_text
        (record { run = 1; day = day; firms = 2 }) (two_reminders 1)
        ≡ (codes "reminders 1 " ++ day_text day ++ codes "\n")
        ++ codes "employer 1001 level 1 missing 2 2024-01         499.90           0.00\n"
        ++ codes "employer 1002 level 3 missing 0 -           0.00           1.25\n"
        ++ codes "firms 2\n" }
{}

/// A worker who has a line of 0.00 for a gross of 0, and two claims.
pub fn law_worker_text()
    ensures { (day : ℕ) → worker_text (record {
      worker = 7;
      day = day;
      earned = record { employer = 1001; month = january; cents = 14250 }
          ∷ record { employer = 1002; month = february; cents = 0 } ∷ [];
      claims = claim 4 1425 Open ∷ claim 5 2500 (released 0 2500 None) ∷ [];
      balance = 10325;
    }) ≡ (codes "worker 7 " ++ day_text day ++ codes "\n")
        ++ codes "earned 1001 2024-01         142.50\n"
        ++ codes "earned 1002 2024-02           0.00\n"
        ++ codes "claim 4 employer 1001 open          14.25\n"
        ++ codes "claim 5 employer 1001 released          25.00\n"
        ++ codes "balance         103.25\n" }
{}

/// An amount stands right in 14 places; a wider one takes what it needs.
pub fn law_amounts()
    ensures nothing { amount_text 0 ≡ codes "          0.00" }
    ensures euros { amount_text 49990 ≡ codes "        499.90" }
    ensures wide { amount_text 1000000000005 ≡ codes "10000000000.05" }
    ensures wider { amount_text 10000000000050 ≡ codes "100000000000.50" }
{}

/// A line of a statement.
pub fn law_missing_line()
    ensures { missing_line (january + 2) ≡ codes "missing 2024-03\n" }
{}

/// Two lines in suspense: one that names no firm and has a note, and one for interest that names a
/// firm.
pub fn law_suspense_text()
    ensures { (day value : ℕ) → suspense_text day
        (record {
          line = record {
            reference = codes "B9";
            value = value;
            employer = None;
            cents = 5000;
            purpose = Contribution;
            note = codes "no number";
          };
          serial = 1;
          employer = None;
        } ∷ record {
          line = record {
            reference = codes "B10";
            value = value;
            employer = Some 1099;
            cents = 125;
            purpose = Interest;
            note = [];
          };
          serial = 2;
          employer = None;
        } ∷ [])
        ≡ (codes "suspense " ++ day_text day ++ codes "\n")
        ++ (codes "line B9 " ++ day_text value ++ codes " C -          50.00 no number\n")
        ++ (codes "line B10 " ++ day_text value ++ codes " I 1099           1.25\n")
        ++ codes "lines 2\ntotal          51.25\n" }
{}

/// A statement of a contribution that two payments pay and of one of 0 cents, with a set-off to
/// interest and a missing month.
pub fn law_statement_text()
    ensures { (day due first second : ℕ) → statement_text (record {
      firm = record {
        employer = 1001;
        day = day;
        name = codes "Bau Nord";
        start = january;
        last = None;
        prepaid = 49990;
        arrears = 0;
        interest = 2875;
      };
      charges = record {
        state = record {
          month = january;
          due = due;
          version = 1;
          contribution = 200000;
          left = 0;
          interest = 3000;
        };
        pieces = record { day = first; cents = 150000; reference = codes "B1" }
            ∷ record { day = second; cents = 50000; reference = codes "B2" } ∷ [];
      } ∷ record {
        state = record {
          month = february;
          due = due;
          version = 2;
          contribution = 0;
          left = 0;
          interest = 0;
        };
        pieces = [];
      } ∷ [];
      interest_credits = record { day = second; cents = 125; reference = codes "set-off 1" } ∷ [];
      missing = (january + 2) ∷ [];
    }) ≡ (codes "statement 1001 " ++ day_text day ++ codes "\nname Bau Nord\nmember 2024-01 -\n")
        ++ (codes "charge 2024-01 due " ++ day_text due
        ++ codes " version 1        2000.00           0.00          30.00\n")
        ++ (codes "  paid " ++ day_text first ++ codes "        1500.00 B1\n")
        ++ (codes "  paid " ++ day_text second ++ codes "         500.00 B2\n")
        ++ (codes "charge 2024-02 due " ++ day_text due
        ++ codes " version 2           0.00           0.00           0.00\n")
        ++ (codes "interest-paid " ++ day_text second ++ codes "           1.25 set-off 1\n")
        ++ codes "missing 2024-03\nprepaid         499.90\n"
        ++ codes "arrears           0.00\ninterest          28.75\n" }
{}

/// A reference that stands twice in a file is a repeat where its content is the same, and else a
/// conflict at the later record. So it is with a reference that was seen before.
pub fn law_repeat_or_conflict()
    ensures repeat { judgement [] ((line None 1 2000).line ∷ (line None 2 2000).line ∷ [])
        ≡ Ok (0 ∷ [], 1) }
    ensures conflict { judgement [] ((line None 1 2000).line ∷ (line None 2 2001).line ∷ [])
        ≡ Err (RefConflict 3) }
    ensures seen { judgement ((line None 1 2000).line ∷ []) ((line None 2 2000).line ∷ [])
        ≡ Ok ([], 1) }
    ensures seen_otherwise { judgement ((line None 1 2000).line ∷ [])
        ((line None 2 2001).line ∷ []) ≡ Err (RefConflict 2) }
{}

/// A contribution is in arrears from the day after its due day on, less what was paid.
pub fn law_arrears()
    ensures due { (day : ℕ)
        → arrears_on (record (charge january 200000) { due = day } ∷ []) [] day ≡ 0 }
    ensures late { (day : ℕ)
        → arrears_on (record (charge january 200000) { due = day } ∷ []) [] (day + 1) ≡ 200000 }
    ensures paid { (day : ℕ)
        → arrears_on (record (charge january 200000) { due = day } ∷ []) (credit 1 150000 ∷ [])
        (day + 1) ≡ 50000 }
{}

/// Entitlement is rounded down, for each line: 14.25 percent of 0.35 are 4 cents, and of two such
/// lines 8, where those of their sum would be 9.
pub fn law_entitlement_rounded()
    ensures line { (r : Rate) → r.entitlement_rate ≡ 1425 → entitlement_for (Some r) 35 ≡ 4 }
    ensures lines { (day : ℕ) (reply : Reply) → entitlement_of (record (first_book (record {
      first = january;
      contribution_rate = 1900;
      report_day = 15;
      due_day = 20;
      interest_rate = 90;
      entitlement_rate = 1425;
    } ∷ [])) {
      entries = entry Clerk 3 day (Report (record {
        employer = 1001;
        month = february;
        lines = record { worker = 7; gross = 35 } ∷ record { worker = 8; gross = 35 } ∷ [];
      })) reply ∷ entry Clerk 2 day (Report (record {
        employer = 1001;
        month = january;
        lines = record { worker = 7; gross = 35 } ∷ [];
      })) reply ∷ entry Clerk 1 day (Register (record {
        employer = 1001;
        name = codes "Bau Nord";
        start = january;
      })) reply ∷ [];
    }) 7 ≡ 8 }
{}

/// A release is a credit for each purpose to which something is set off, with its day and its
/// serial, and under the number of its claim. A first release takes the first serial where no bank
/// line came before it.
pub fn law_set_offs()
    ensures both { (day serial : ℕ) → set_offs_of (claim 1 50000 (Released (record {
      day = day;
      settlement = record { to_contributions = 30000; to_interest = 125; paid = 19875 };
      list = None;
    }))) serial ≡ record {
      employer = 1001;
      purpose = Contribution;
      day = day;
      serial = serial;
      cents = 30000;
      reference = codes "set-off 1";
    } ∷ record {
      employer = 1001;
      purpose = Interest;
      day = day;
      serial = serial;
      cents = 125;
      reference = codes "set-off 1";
    } ∷ [] }
    ensures nothing { (serial : ℕ)
        → set_offs_of (claim 1 50000 (released 0 50000 None)) serial ≡ [] }
    ensures first { (made day : ℕ) (reply : Reply) → set_offs (entry Clerk 2 day (Release 1)
        (settled_by (record { to_contributions = 0; to_interest = 125; paid = 49875 }))
        ∷ entry Clerk 1 made (Claim (record { employer = 1001; worker = 7; cents = 50000 })) reply
        ∷ []) ≡ record {
          employer = 1001;
          purpose = Interest;
          day = day;
          serial = 1;
          cents = 125;
          reference = codes "set-off 1";
        } ∷ [] }
{}
