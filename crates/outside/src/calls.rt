ghost use Rattle.std.specs.Prelude.{◌≡◌};
ghost use Rattle.outside.specs.Calls.{next_number, is_due};

// The number of the next call, counted from 1.
pub(crate) fn next_call(calls: u64) -> u64
    ensures { result ≡ next_number calls }
{
    calls.saturating_add(1)
}

// Whether the call of this number is one of those that are to fail.
pub(crate) fn is_to_fail(fails: &[u32], call: u64) -> bool
    ensures { result ≡ is_due fails.now call }
{
    fails.iter().any(|number| u64::from(*number) == call)
}
