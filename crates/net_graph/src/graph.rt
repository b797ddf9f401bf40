ghost use Rattle.std.specs.Prelude.{◌≡◌, IfOk, IfErr};
ghost use Rattle.pipe_model.specs.WellFormed.{IsWellFormed};
ghost use Rattle.net_graph.specs.Faults.{IsGraph, Refuses};
ghost use Rattle.net_graph.specs.Kept.{kinds_in};

use crate::assembly::assemble;
use crate::fault::NetFault;
use crate::outcomes::outcomes_of;
use crate::search::find_faults;
use crate::table::table_of;
use pipe_model::{Kind, Net, NoMemory};
use spec_scanner::Scanned;
use stage_syntax::KindFault;
use std::alloc::Global;

// The kinds among outcomes.
fn kinds_of(alloc: Global, outcomes: Vec<Result<Kind, KindFault>>) -> Result<Vec<Kind>, NoMemory>
    ensures { IfOk result (λ kinds. kinds.items ≡ kinds_in outcomes.items) }
{
    let mut kinds = Vec::new(alloc);
    for outcome in outcomes {
        if let Ok(kind) = outcome {
            kinds.push(kind)?;
        }
    }
    Ok(kinds)
}

/// The net of a specification's pieces, or the least fault that they have.
pub fn build(alloc: Global, scanned: Scanned) -> Result<Net, NetFault>
    ensures read { IfOk result (λ net. IsGraph scanned net) }
    ensures whole { IfOk result IsWellFormed }
    ensures refused { IfErr result (Refuses scanned) }
{
    let pipelines = scanned.pipelines();
    let outcomes = outcomes_of(alloc, pipelines)?;
    let table = table_of(alloc, pipelines)?;
    match find_faults(pipelines, &outcomes, &table) {
        Some(fault) => Err(NetFault::Refused {
            number: fault.number,
            argument: fault.argument,
            place: fault.place,
        }),
        None => {
            let kinds = kinds_of(alloc, outcomes)?;
            Ok(assemble(alloc, pipelines, kinds, &table)?)
        }
    }
}
