ghost use Rattle.std.specs.Prelude.{◌≡◌, ◌<◌};
ghost use Rattle.commit_levels.specs.UnitState.{IsLevel, level_count, place_of};

/// How many commit levels there are.
pub fn level_count() -> usize
    ensures { result ≡ level_count }
{
    1_002
}

/// The place of a commit level among all, counted from 0.
pub fn place_of(level: i32) -> usize
    requires { IsLevel level }
    ensures place { result ≡ place_of level }
    ensures within { result < level_count }
{
    (level + 1) as usize
}
