ghost use Rattle.std.specs.Prelude.{◌≡◌};
ghost use Rattle.stage_steps.specs.Places as Spec;

use pipe_model::Want;

/// What follows when nothing is left to write.
#[derive(Clone, Copy)]
pub(crate) enum Follow {
    /// It takes the record at hand.
    Take,
    /// It looks at the next record, or stops.
    Look,
    /// It ends.
    End,
}

/// Where a walk of pairs stands.
#[derive(Clone, Copy)]
pub(crate) enum Place {
    /// It is to reach commit level -1.
    Starting,
    /// It is to reach commit level 0.
    Committing,
    /// It looks at the next record.
    Looking,
    /// It writes pairs.
    Writing(Follow),
    /// It takes the record at hand.
    Taking,
    /// It passes the record at hand on: it waits until its last pair is put, takes the record, or has taken it and looks at
    /// the next one, and doesn't know which.
    Passing,
    /// It ends with this code.
    Ending(i32),
}

/// What is asked for in a place where nothing is written.
#[inline(always)]
pub(crate) fn want_at(place: Place) -> Want
    ensures { result ≡ Spec.want_at place }
{
    match place {
        Place::Starting => Want::Commit(-1),
        Place::Committing => Want::Commit(0),
        Place::Looking => Want::Read(0),
        Place::Taking => Want::Take(0),
        Place::Ending(code) => Want::Done(code),
        Place::Writing(_) | Place::Passing => Want::Done(0),
    }
}
