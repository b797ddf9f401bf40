ghost use Rattle.std.specs.Prelude.{◌≡◌, ◌⊎◌, ℕ, List, pos};
ghost use Rattle.std.specs.declared.option.Option.TheVariants.{Some};
ghost use Rattle.outside.specs.Device.{Device};
ghost use Rattle.pipe_model.specs.declared.net.Net.{Net};
ghost use Rattle.pipe_model.specs.declared.step.Entry.{Entry};
ghost use Rattle.pipe_model.specs.Plain.{IsPlain};
ghost use Rattle.pipe_model.specs.Play.{HasEnded, IsComplete, IsLegal, play};
ghost use Rattle.pipe_model.specs.Reply.{reply};
ghost use Rattle.spec_scanner.specs.declared.fault.Fault.{Fault};
ghost use Rattle.net_graph.specs.Fed.{with_input};
ghost use Rattle.call_words.specs.Command.{command_of};
ghost use Rattle.call_words.specs.declared.command.Command.TheVariants.{Sample};
ghost use Rattle.call_meaning.specs.declared.status.Status.{Status as StatusIs};
ghost use Rattle.call_meaning.specs.declared.status.Status.TheVariants.{NoMemory, Spent, WriteFault, Zero};
ghost use Rattle.call_meaning.specs.Answer.{Answers, IsUnhindered};
ghost use Rattle.call_meaning.specs.Devices.{Outside};
ghost use Rattle.call_meaning.specs.Meaning.{IsNetOf};
ghost use Rattle.call_meaning.specs.Refusals.{HasLeastFault};
ghost use Rattle.call_meaning.specs.Sample.{sample_spec};

/// The specification of the sample has a net, so it is never refused.
pub fn sample_reads()
    ensures net { (net : Net) × IsNetOf sample_spec net }
    ensures unrefused { (fault : Fault) → ¬ HasLeastFault sample_spec fault }
{}

/// Whatever input it is fed, the net of the sample is plain, and where no step can be taken every stage has ended, with code 0.
pub fn sample_completes()
    ensures plain { (net : Net) (input : List ℕ) → IsNetOf sample_spec net → IsPlain (with_input input net) }
    ensures ended { (net : Net) (input : List ℕ) (order : List Entry) → IsNetOf sample_spec net → IsLegal (with_input input net) order → IsComplete (with_input input net) order →
        HasEnded (with_input input net) (play (with_input input net) order) }
    ensures code { (net : Net) (input : List ℕ) (order : List Entry) → IsNetOf sample_spec net → IsLegal (with_input input net) order → IsComplete (with_input input net) order →
        (reply (with_input input net) (play (with_input input net) order)).code ≡ pos 0 }
{}

/// A call of the sample answers status 0 or 4, or the fault of a stream that it writes, or want of memory. Where nothing failed and no
/// memory was wanted it answers 0 or 4.
pub fn sample_answers()
    ensures any { (words : List (List ℕ)) (old new : Outside) (diag diag' : Device) (status : StatusIs) (count workers steps : ℕ) → command_of words ≡ Some (Sample count workers steps) →
        Answers words old new diag diag' status → ((status ≡ Zero) ⊎ (status ≡ Spent)) ⊎ ((status ≡ WriteFault) ⊎ (status ≡ NoMemory)) }
    ensures unhindered { (words : List (List ℕ)) (old new : Outside) (diag diag' : Device) (status : StatusIs) (count workers steps : ℕ) → command_of words ≡ Some (Sample count workers steps) →
        Answers words old new diag diag' status → IsUnhindered old new diag diag' status → (status ≡ Zero) ⊎ (status ≡ Spent) }
{}
