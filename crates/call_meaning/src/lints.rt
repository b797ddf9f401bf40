ghost use Rattle.std.specs.Prelude.{◌≡◌, ◌⊎◌, ℕ, List};
ghost use Rattle.std.specs.declared.option.Option.TheVariants.{Some};
ghost use Rattle.std.specs.Io.KnownBytes.{Appends};
ghost use Rattle.outside.specs.Device.{Device};
ghost use Rattle.pipe_model.specs.declared.net.Net.{Net};
ghost use Rattle.stall_lint.specs.declared.told.Lint.{Lint as Answer};
ghost use Rattle.stall_lint.specs.declared.told.Lint.TheVariants.{Never};
ghost use Rattle.stall_lint.specs.Answer.{Lints};
ghost use Rattle.stall_lint.specs.Never.{NeverStalls};
ghost use Rattle.call_words.specs.Command.{command_of};
ghost use Rattle.call_words.specs.declared.command.Command.TheVariants.{Lint};
ghost use Rattle.call_meaning.specs.declared.status.Status.{Status as StatusIs};
ghost use Rattle.call_meaning.specs.declared.status.Status.TheVariants.{NoMemory, SpecRefused, WriteFault, Zero};
ghost use Rattle.call_meaning.specs.Answer.{Answers};
ghost use Rattle.call_meaning.specs.Devices.{Outside};
ghost use Rattle.call_meaning.specs.Meaning.{IsNetOf, lint_line};
ghost use Rattle.call_meaning.specs.Untouched.{IsUntouched};

/// A call of a lint answers status 0, 2, 6 or 8, and reads and replaces nothing. With status 0 the output gained the line of the one
/// row of the table that is so of the specification's net; where that says that it never stalls, no run of it does.
pub fn lint_answers()
    ensures any { (words : List (List ℕ)) (old new : Outside) (diag diag' : Device) (status : StatusIs) (spec : List ℕ) → command_of words ≡ Some (Lint spec) →
        Answers words old new diag diag' status → ((status ≡ Zero) ⊎ (status ≡ SpecRefused)) ⊎ ((status ≡ WriteFault) ⊎ (status ≡ NoMemory)) }
    ensures untouched { (words : List (List ℕ)) (old new : Outside) (diag diag' : Device) (status : StatusIs) (spec : List ℕ) → command_of words ≡ Some (Lint spec) →
        Answers words old new diag diag' status → IsUntouched old new }
    ensures told { (words : List (List ℕ)) (old new : Outside) (diag diag' : Device) (spec : List ℕ) → command_of words ≡ Some (Lint spec) →
        Answers words old new diag diag' Zero → (net : Net) × (answer : Answer) × IsNetOf spec net × Lints net answer × Appends old.output.bytes new.output.bytes (lint_line answer) × (answer ≡ Never → NeverStalls net) }
{}
