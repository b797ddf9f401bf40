ghost use Rattle.std.specs.Prelude.{◌≢◌, ◌⊎◌, ℕ, List, get_or};
ghost use Rattle.pipe_model.specs.declared.range.Range.{Range};
ghost use Rattle.argument_parts.specs.declared.part.Part.{Part};
ghost use Rattle.argument_parts.specs.declared.part.TextFault.{TextFault};
ghost use Rattle.argument_parts.specs.declared.part.Value.{Value};
ghost use Rattle.argument_parts.specs.Parts.{IsAtEnd, IsNext, IsNoNext, IsNoPart, IsPart, IsPartMisfit};
ghost use Rattle.argument_parts.specs.RangeWords.{IsRange, IsRangeMisfit};

/// A text that is a range and a rest has no fault of a range, so `range` gives one wherever there is one.
pub fn no_misfit()
    ensures { (text : List ℕ) (range : Range) (rest : List ℕ) (fault : TextFault) → IsRange text range rest → ¬ IsRangeMisfit text fault }
{}

/// A text that isn't empty and doesn't begin with a blank is a part and a rest, begins as the part does and has a fault, or doesn't begin so.
pub fn each_part()
    ensures { (part : Part) (text : List ℕ) → get_or text 0 32 ≢ 32 → ((value : Value) × (rest : List ℕ) × IsPart part text value rest) ⊎ (((fault : TextFault) × IsPartMisfit part text fault) ⊎ IsNoPart part text) }
{}

/// What comes next in a text is one of the parts that may come, has a fault, or is nothing but blanks.
pub fn each_next()
    ensures { (parts : List Part) (text : List ℕ) → ((value : Value) × (rest : List ℕ) × IsNext parts text value rest) ⊎ (((fault : TextFault) × IsNoNext parts text fault) ⊎ IsAtEnd text) }
{}
