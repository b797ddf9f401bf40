use net_runs::Maker;
use pipe_model::{Net, NoMemory};
use stage_table::{BuiltIn, make_all};
use std::alloc::Global;

// Makes the built-in stages of nets.
pub(crate) struct BuiltInMaker;

impl Maker<BuiltIn> for BuiltInMaker {
    fn make(&self, alloc: Global, net: &Net) -> Result<Vec<BuiltIn>, NoMemory> {
        make_all(alloc, net)
    }
}
