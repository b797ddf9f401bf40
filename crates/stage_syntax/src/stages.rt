ghost use Rattle.std.specs.Prelude.{◌≡◌, Bool, map, option_map, IsTrue, ◌↔◌};
ghost use Rattle.std.specs.Str.{str_to_ascii_lowercase};
ghost use Rattle.stage_syntax.specs.Names.{arguments_of, named_in, stages};
ghost use Rattle.stage_syntax.specs.StageForms.{arguments_by, named_as};

use crate::form::Form;

/// The names of stages, and the form of the arguments of each.
pub const STAGES: [(&[u8], Form); 48] = [
    (b"console", Form::Console),
    (b"<", Form::FileIn),
    (b">", Form::FileOut),
    (b"literal", Form::Literal),
    (b"hole", Form::Hole),
    (b"locate", Form::Locate),
    (b"nlocate", Form::Nlocate),
    (b"find", Form::Find),
    (b"nfind", Form::Nfind),
    (b"take", Form::Take),
    (b"drop", Form::Drop),
    (b"between", Form::Between),
    (b"inside", Form::Inside),
    (b"tolabel", Form::ToLabel),
    (b"frlabel", Form::FrLabel),
    (b"change", Form::Change),
    (b"strip", Form::Strip),
    (b"chop", Form::Chop),
    (b"pad", Form::Pad),
    (b"split", Form::Split),
    (b"join", Form::Join),
    (b"xlate", Form::Xlate),
    (b"reverse", Form::Reverse),
    (b"duplicate", Form::Duplicate),
    (b"unique", Form::Unique),
    (b"sort", Form::Sort),
    (b"count", Form::Count),
    (b"lookup", Form::Lookup),
    (b"collate", Form::Collate),
    (b"merge", Form::Merge),
    (b"fanout", Form::FanOut),
    (b"fanin", Form::FanIn),
    (b"faninany", Form::FanInAny),
    (b"deal", Form::Deal),
    (b"gather", Form::Gather),
    (b"overlay", Form::Overlay),
    (b"synchronise", Form::Synchronise),
    (b"synchronize", Form::Synchronise),
    (b"juxtapose", Form::Juxtapose),
    (b"gate", Form::Gate),
    (b"dam", Form::Dam),
    (b"elastic", Form::Elastic),
    (b"buffer", Form::Buffer),
    (b"copy", Form::Copy),
    (b"fblock", Form::Fblock),
    (b"block", Form::Block),
    (b"deblock", Form::Deblock),
    (b"specs", Form::Specs),
];

/// The form of the arguments of the stage of this name, in any case, if there is one.
pub fn form_named(name: &[u8]) -> Option<Form>
    ensures { (first : Bool) → arguments_of name.now first ≡ option_map (λ form. arguments_by form first) result }
{
    named_among(listed(), name)
}

// All stages of the list.
fn listed() -> &'static [(&'static [u8], Form)]
    ensures { (first : Bool) → map (named_as first) result.now ≡ stages first }
{
    &STAGES
}

// The form of the first stage of a list that has the name, in any case.
fn named_among(stages: &[(&[u8], Form)], name: &[u8]) -> Option<Form>
    ensures { (first : Bool) → named_in (map (named_as first) stages.now) name.now ≡ option_map (λ form. arguments_by form first) result }
{
    for (spelled, form) in stages {
        if is_same(name, spelled) {
            return Some(*form);
        }
    }
    None
}

// Whether two names are one, in any case.
fn is_same(name: &[u8], spelled: &[u8]) -> bool
    ensures { IsTrue result ↔ (str_to_ascii_lowercase name.now ≡ str_to_ascii_lowercase spelled.now) }
{
    name.eq_ignore_ascii_case(spelled)
}
