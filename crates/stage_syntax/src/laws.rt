ghost use Rattle.std.specs.Prelude.{◌≡◌, ◌⊎◌, ℕ, Bool, List};
ghost use Rattle.pipe_model.specs.declared.kind.Kind.{Kind};
ghost use Rattle.argument_parts.specs.declared.fault.ArgFault.{ArgFault};
ghost use Rattle.stage_syntax.specs.declared.fault.KindFault.TheVariants.{Argument, Unknown};
ghost use Rattle.stage_syntax.specs.Arg.{ArgText};
ghost use Rattle.stage_syntax.specs.Kinds.{IsKind, IsNoKind};

/// A name and an argument are one kind of stage.
pub fn one_kind()
    ensures { (name : List ℕ) (arg : ArgText) (first : Bool) (a b : Kind) → IsKind name arg first a → IsKind name arg first b → a ≡ b }
{}

/// A name and an argument that are a kind of stage have no fault, so `kind_of` gives the kind wherever there is one and memory
/// is left.
pub fn no_kind_fault()
    ensures unknown { (name : List ℕ) (arg : ArgText) (first : Bool) (kind : Kind) → IsKind name arg first kind → ¬ IsNoKind name arg first Unknown }
    ensures argument { (name : List ℕ) (arg : ArgText) (first : Bool) (kind : Kind) (fault : ArgFault) → IsKind name arg first kind → ¬ IsNoKind name arg first (Argument fault) }
{}

/// A name and an argument have one fault of an argument.
pub fn one_fault()
    ensures { (name : List ℕ) (arg : ArgText) (first : Bool) (a b : ArgFault) → IsNoKind name arg first (Argument a) → IsNoKind name arg first (Argument b) → a ≡ b }
{}

/// A name and an argument are a kind of stage, or have a fault of an argument, or no stage has the name.
pub fn each_kind()
    ensures { (name : List ℕ) (arg : ArgText) (first : Bool) → ((kind : Kind) × IsKind name arg first kind) ⊎ (((fault : ArgFault) × IsNoKind name arg first (Argument fault)) ⊎ IsNoKind name arg first Unknown) }
{}
