ghost use Rattle.std.specs.Prelude.{◌≡◌, ◌≢◌, ◌≤◌, ℕ, List, IfSome, slice_get};
ghost use Rattle.std.specs.declared.option.Option.TheVariants.{None, Some};
ghost use Rattle.outside.specs.Device.{Device};
ghost use Rattle.pipe_model.specs.declared.net.Net.{Net};
ghost use Rattle.pipe_model.specs.Alone.{IsPlainReading};
ghost use Rattle.pipe_model.specs.Plain.{IsPlain};
ghost use Rattle.pipe_model.specs.Reply.{reply};
ghost use Rattle.pipe_model.specs.State.{State};
ghost use Rattle.pipe_model.specs.WellFormed.{IsWellFormed};
ghost use Rattle.call_meaning.specs.declared.status.Status.{Status as StatusIs};
ghost use Rattle.call_meaning.specs.declared.status.Status.TheVariants.{ReadFault, WriteFault, ShelfFault};
ghost use Rattle.call_meaning.specs.Answer.{Answers, IsUnhindered};
ghost use Rattle.call_meaning.specs.Devices.{Outside, AllSteady, Steady};
ghost use Rattle.call_meaning.specs.Effects.{Before};
ghost use Rattle.call_meaning.specs.Meaning.{AreNetsOf, IsNetOf, IsRunOf, Means, SetMeans, fed_size, input_limit};
ghost use Rattle.call_meaning.specs.Sets.{SetEnd, all_of};

/// A call that answers another status than a fault's left each count of faults as it was.
pub fn no_fault_without_its_status()
    ensures { (words : List (List ℕ)) (old new : Outside) (diag diag' : Device) (status : StatusIs) → Answers words old new diag diag' status →
        status ≢ ReadFault → status ≢ WriteFault → status ≢ ShelfFault → AllSteady old new × Steady diag diag' }
{}

/// A call in which nothing failed and that wanted no memory did and told what its words mean on all of the input, where that is told.
pub fn all_is_meant()
    ensures { (words : List (List ℕ)) (old new : Outside) (diag diag' : Device) (status : StatusIs) (answers : Answers words old new diag diag' status) →
        IsUnhindered old new diag diag' status →
        IfSome old.input.bytes (λ input. Means words (record answers.decides.given { input = input }) answers.decided answers.decides.effect) }
{}

/// Whichever plain reading of a net is taken, its reply is the same.
pub fn one_plain_reply()
    ensures { (net : Net) → IsWellFormed net → IsPlain net → (a b : State) → IsPlainReading net a → IsPlainReading net b → reply net a ≡ reply net b }
{}

/// A line of a file of sets comes to what words that run it alone mean, in as many steps, whatever the other lines hold. Where what all lines
/// are fed fits, so does what the line is fed.
pub fn each_set_as_alone()
    ensures alone { (words : List (List ℕ)) (spec : List ℕ) (steps workers : ℕ) (before : Before) (ended : SetEnd) (run : IsRunOf words spec steps None) → run.workers ≡ workers →
        ((net : Net) → IsNetOf spec net → fed_size before net ≤ input_limit) → SetMeans before steps workers spec ended → Means words before ended.outcome ended.effect }
    ensures fits { (specs : List (List ℕ)) (nets : List Net) (before : Before) → AreNetsOf specs nets → fed_size before (all_of nets) ≤ input_limit →
        (k : ℕ) (spec : List ℕ) (net : Net) → slice_get specs k ≡ Some spec → IsNetOf spec net → fed_size before net ≤ input_limit }
{}
