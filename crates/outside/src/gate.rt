ghost use Rattle.std.specs.Prelude.{◌≡◌, Bool, true};

/// A gate before the work on each record that a strand saw.
pub trait Gate {
    // Whether it never waits.
    ghost is_open: { Self → Bool };

    /// Called with the strand's number before that work. It may wait, and it changes nothing that a run
    /// reads or writes.
    fn enter(&self, strand: u32);

    /// Whether it never waits. Then it needn't be entered.
    fn is_open(&self) -> bool
        ensures { result ≡ is_open self.now };
}

/// The gate that is always open.
#[derive(Clone, Copy, Debug, Default)]
pub struct OpenGate;

impl Gate for OpenGate {
    ghost is_open = { λ _. true };

    fn enter(&self, _strand: u32) {}

    fn is_open(&self) -> bool {
        true
    }
}
