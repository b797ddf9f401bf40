ghost use Rattle.std.specs.Prelude.{◌≡◌, Some};
ghost use Rattle.spec_scanner.specs.Faults as Faults;

use crate::fault::{Fault, least};
use crate::labels::Labels;

/// What was found in a specification from the left: the labels that are defined, and the least fault.
#[derive(Drop)]
pub(crate) struct Findings {
    pub labels: Labels,
    pub fault: Option<Fault>,
}

impl Findings {
    /// Notes a fault.
    pub fn note(&mut self, fault: Fault)
        ensures { self.new ≡ record self.old { fault = Some (Faults.least self.old.fault fault) } }
    {
        self.fault = Some(least(self.fault, fault));
    }
}
