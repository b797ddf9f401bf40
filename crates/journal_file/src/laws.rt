ghost use Rattle.std.specs.Prelude.{◌≡◌, ℕ, List};
ghost use Rattle.pipe_model.specs.declared.step.Entry.{Entry};
ghost use Rattle.pipe_model.specs.declared.net.Net.{Net};
ghost use Rattle.journal_file.specs.declared.checking.Checked.{Checked};
ghost use Rattle.journal_file.specs.Faults.{IsFirstFault};
ghost use Rattle.journal_file.specs.Judged.{Judges};
ghost use Rattle.journal_file.specs.Text.{IsJournal, journal_text};

/// A text is of one journal, so what was written is read again.
pub fn one_journal()
    ensures { (a b : List Entry) → IsJournal a → IsJournal b → journal_text a ≡ journal_text b → a ≡ b }
{}

/// A journal's text has no line that isn't of the format, so it is read unless memory runs out.
pub fn no_fault_of_a_journal()
    ensures { (entries : List Entry) (line : ℕ) → IsJournal entries → ¬ IsFirstFault (journal_text entries) line }
{}

/// A text has one first line that isn't of the format.
pub fn one_fault()
    ensures { (text : List ℕ) (a b : ℕ) → IsFirstFault text a → IsFirstFault text b → a ≡ b }
{}

/// A journal is one thing to a net.
pub fn one_judgement()
    ensures { (net : Net) (journal : List Entry) (a b : Checked) → Judges net journal a → Judges net journal b → a ≡ b }
{}
