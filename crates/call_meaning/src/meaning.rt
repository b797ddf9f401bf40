ghost use Rattle.std.specs.Prelude.{◌≡◌, ℕ, List, Option};
ghost use Rattle.pipe_model.specs.declared.net.Net.{Net};
ghost use Rattle.pipe_model.specs.Plain.{IsPlain};
ghost use Rattle.pipe_model.specs.Settled.{IsSettled};
ghost use Rattle.net_graph.specs.Line.{line_net};
ghost use Rattle.spec_scanner.specs.Straight.{IsStraight};
ghost use Rattle.call_meaning.specs.declared.status.Outcome.{Outcome as OutcomeIs};
ghost use Rattle.call_meaning.specs.Effects.{Before, Effect};
ghost use Rattle.call_meaning.specs.Meaning.{AreOneEffect, IsLineOutcome, IsRunNet, IsRunOf, Means, net_on};

/// Words mean one outcome and one effect at most on what there was before, but for the file of a journal, where the nets that they run, if
/// they do, are settled. Of a lint all effects tell one line of the table.
pub fn one_meaning()
    ensures { (words : List (List ℕ)) (before : Before) → ((net : Net) → IsRunNet words before.files net → IsSettled (net_on before net)) →
        (a b : OutcomeIs) (x y : Effect) → Means words before a x → Means words before b y → (a ≡ b) × AreOneEffect words x y }
{}

/// The words of a straight line mean the text of the lines that hold every string, or too few steps or too much input, and nothing else but
/// the file of a journal.
pub fn straight_line_means()
    ensures { (words : List (List ℕ)) (spec : List ℕ) (steps : ℕ) (strings : List (List ℕ)) (before : Before) (outcome : OutcomeIs) (effect : Effect) (trace : Option (List ℕ)) → IsRunOf words spec steps trace → IsStraight spec strings →
        Means words before outcome effect → IsLineOutcome strings before.input steps outcome effect }
{}

/// The net of a straight line is plain, so its histories are those of its stages read as functions on streams.
pub fn straight_line_is_plain()
    ensures { (bytes : List ℕ) (strings : List (List ℕ)) → IsPlain (line_net bytes strings) }
{}
