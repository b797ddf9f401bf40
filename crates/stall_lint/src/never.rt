ghost use Rattle.std.specs.Prelude.{List, ℕ};
ghost use Rattle.stall_lint.specs.declared.told.Lint.{Lint};
ghost use Rattle.pipe_model.specs.Plain.{IsAcyclic, IssuesNothing};
ghost use Rattle.pipe_model.specs.Settled.{IsSettled};
ghost use Rattle.pipe_model.specs.WellFormed.{IsWellFormed};
ghost use Rattle.stall_lint.specs.Answer.{IsOneLine, Lints};
ghost use Rattle.stall_lint.specs.ClosedWalks.{IsClosedWalk};
ghost use Rattle.stall_lint.specs.Never.{HasNoDam, NeverStalls};
ghost use Rattle.stall_lint.specs.Rooted.{IsRooted};

use pipe_model::Net;

/// A settled net without issuers and DAM that has no closed walk never stalls, whatever its stages
/// are fed.
pub fn never_stalls(net: &Net)
    requires formed { IsWellFormed net.now }
    requires settled { IsSettled net.now }
    requires issues { IssuesNothing net.now }
    requires undammed { HasNoDam net.now }
    requires unclosed { (walk : List ℕ) → ¬ IsClosedWalk net.now walk }
    ensures { NeverStalls net.now }
{}

/// A net without cycles whose groups are trees has no closed walk.
pub fn no_closed_walk(net: &Net)
    requires formed { IsWellFormed net.now }
    requires acyclic { IsAcyclic net.now }
    requires rooted { IsRooted net.now }
    ensures { (walk : List ℕ) → ¬ IsClosedWalk net.now walk }
{}

/// Two answers for a net are of one line: they are one, or both are closed walks.
pub fn one_line(net: &Net)
    ensures { (answer other : Lint) → Lints net.now answer → Lints net.now other → IsOneLine answer other }
{}
