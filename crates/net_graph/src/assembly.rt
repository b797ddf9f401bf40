ghost use Rattle.std.specs.Prelude.{◌≡◌, ℕ, [], Ok, Some, map, slice_get, IfOk};
ghost use Rattle.net_graph.specs.Faults.{faults_of};
ghost use Rattle.net_graph.specs.Nets.{AreOutcomes, net_of};
ghost use Rattle.net_graph.specs.Numbered.{AreScanned};
ghost use Rattle.net_graph.specs.Stands.{stage_of, stages_of, stands_of};

use crate::flags::{linked_inputs, linked_outputs};
use crate::joins::joins_of;
use crate::layout::{layout_of, links_between};
use crate::strands::strands_of;
use crate::uses::later_uses;
use pipe_model::{Kind, Net, NoMemory};
use spec_scanner::Pieces;
use std::alloc::Global;

/// The net of pipelines without a fault, whose stages are of these kinds, where a table tells the stages that the labels define.
pub(crate) fn assemble(
    alloc: Global,
    pipelines: &[Pieces],
    kinds: Vec<Kind>,
    table: &[usize],
) -> Result<Net, NoMemory>
    requires scanned { AreScanned pipelines.now }
    requires read { AreOutcomes (stages_of (stands_of pipelines.now)) (map (λ kind. Ok kind) kinds.items) }
    requires good { faults_of pipelines.now (map (λ kind. Ok kind) kinds.items) ≡ [] }
    requires labelled { (label : ℕ) → slice_get table.now label ≡ stage_of (stands_of pipelines.now) (Some label) }
    ensures { IfOk result (λ net. net ≡ net_of pipelines.now kinds.items) }
{
    let joins = joins_of(alloc, table, pipelines)?;
    let later = later_uses(alloc, pipelines)?;
    let layout = layout_of(alloc, &kinds, &later)?;
    let links = links_between(alloc, &layout.parts, &joins)?;
    let count = layout.strands as usize;
    let inputs = linked_inputs(alloc, &links, count)?;
    let outputs = linked_outputs(alloc, &links, count)?;
    let strands = strands_of(alloc, &inputs, &outputs, &later, kinds)?;
    Ok(Net::new(strands, links))
}
