ghost use Rattle.std.specs.Prelude.{◌≡◌, ℕ, [], length, slice_get, IfOk, Some};
ghost use Rattle.pipe_model.specs.declared.net.Strand.{Strand as StrandIs};
ghost use Rattle.pipe_model.specs.State.{nothing_yet, strand_at};
ghost use Rattle.stage_table.specs.declared.built_in.BuiltIn.{BuiltIn as BuiltInIs};
ghost use Rattle.stage_table.specs.BuiltIn.{BuiltInStands, HasFewPlaces};

use crate::built_in::BuiltIn;
use block_stages::{BlockStage, is_block};
use collate_stage::CollateStage;
use device_stages::{DeviceStage, is_device};
use edit_stages::{EditStage, is_edit};
use fan_stages::{FanStage, is_fan};
use gate_elastic::{GateStage, is_gate};
use lookup_stage::{LookupStage, is_lookup};
use pipe_model::{Net, NoMemory, Strand};
use select_stages::{SelectStage, is_select};
use specs_stage::{SpecsStage, is_specs};
use std::alloc::Global;
use unique_sort::{UniqueStage, is_order};

/// The stage of a strand, before its first event.
#[tactic(auto, using(crate::proofs::Families::last_family))]
pub fn make(alloc: Global, strand: &Strand) -> Result<BuiltIn, NoMemory>
    requires { HasFewPlaces strand.now }
    ensures { IfOk result (λ stage. BuiltInStands stage strand.now []) }
{
    if is_device(&strand.kind) {
        let stage = DeviceStage::new(alloc, strand)?;
        return Ok(BuiltIn::Device(Box::new(alloc, stage)?));
    }
    if is_select(&strand.kind) {
        let stage = SelectStage::new(alloc, strand)?;
        return Ok(BuiltIn::Select(Box::new(alloc, stage)?));
    }
    if is_edit(&strand.kind) {
        let stage = EditStage::new(alloc, strand)?;
        return Ok(BuiltIn::Edit(Box::new(alloc, stage)?));
    }
    if is_order(&strand.kind) {
        let stage = UniqueStage::new(alloc, strand)?;
        return Ok(BuiltIn::Order(Box::new(alloc, stage)?));
    }
    if is_block(&strand.kind) {
        let stage = BlockStage::new(alloc, strand)?;
        return Ok(BuiltIn::Block(Box::new(alloc, stage)?));
    }
    if is_specs(&strand.kind) {
        let stage = SpecsStage::new(alloc, strand)?;
        return Ok(BuiltIn::Specs(Box::new(alloc, stage)?));
    }
    if is_gate(&strand.kind) {
        let stage = GateStage::new(alloc, strand)?;
        return Ok(BuiltIn::Gate(Box::new(alloc, stage)?));
    }
    if is_fan(&strand.kind) {
        let stage = FanStage::new(alloc, strand)?;
        return Ok(BuiltIn::Fan(Box::new(alloc, stage)?));
    }
    if is_lookup(&strand.kind) {
        let stage = LookupStage::new(alloc, strand)?;
        return Ok(BuiltIn::Lookup(Box::new(alloc, stage)?));
    }
    let stage = CollateStage::new(alloc, strand)?;
    Ok(BuiltIn::Collate(Box::new(alloc, stage)?))
}

/// A stage for each strand of a net, in their order, each before its first event.
pub fn make_all(alloc: Global, net: &Net) -> Result<Vec<BuiltIn>, NoMemory>
    requires { (s : ℕ) (p : StrandIs) → strand_at net.now nothing_yet s ≡ Some p → HasFewPlaces p }
    ensures count { IfOk result (λ stages. length stages.items ≡ length net.now.strands) }
    ensures each { IfOk result (λ stages. (s : ℕ) (p : StrandIs) (stage : BuiltInIs) → slice_get net.now.strands s ≡ Some p → slice_get stages.items s ≡ Some stage → BuiltInStands stage p []) }
{
    let strands = net.strands.as_slice();
    let mut stages = Vec::new(alloc);
    for k in 0..strands.len() {
        stages.push(make(alloc, &strands[k])?)?;
    }
    Ok(stages)
}
