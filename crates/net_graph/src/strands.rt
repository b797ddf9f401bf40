ghost use Rattle.std.specs.Prelude.{◌≡◌, ◌≢◌, ◌≤◌, ◌<◌, ◌+◌, ◌*◌, ◌++◌, suc, min, map, length, sum_by, All, IfOk, OnOk};
ghost use Rattle.std.specs.List.{range_with_len};
ghost use Rattle.pipe_model.specs.Form.{parting_by};
ghost use Rattle.pipe_model.specs.Form.Parting.{Whole as OneStrand};
ghost use Rattle.pipe_model.specs.Table.{line_of};
ghost use Rattle.net_graph.specs.Nets.{width_of};
ghost use Rattle.net_graph.specs.Partings.{sizes_by};
ghost use Rattle.net_graph.specs.Strands.{part_by, parts_by, strands_by, whole_by};

use crate::flags::row;
use crate::parting::Parting;
use pipe_model::{Kind, NoMemory, Strand, most_inputs, most_outputs};
use std::alloc::Global;

// How many places a stage of so many later uses has, where the kind allows so many.
fn places(later: u16, most: u16) -> u16
    ensures { result ≡ min (suc later) most }
{
    if later < most { later + 1 } else { most }
}

// The only strand of a stage, which has this number.
fn strand(
    alloc: Global,
    inputs: &[bool],
    outputs: &[bool],
    stage: usize,
    number: usize,
    kind: Kind,
    later: u16,
) -> Result<Strand, NoMemory>
    requires few { stage < 65536 }
    requires below { number < 65536 }
    requires inputs { 64 * number + 64 ≤ length inputs.now }
    requires outputs { 64 * number + 64 ≤ length outputs.now }
    ensures { IfOk result (λ strand. strand ≡ whole_by inputs.now outputs.now stage number kind later) }
{
    let has_input = row(inputs, number, places(later, most_inputs(&kind)));
    let has_output = row(outputs, number, places(later, most_outputs(&kind)));
    Strand::of_stage(alloc, stage as u32, kind, has_input, has_output)
}

// The kind of another strand of a stage that has several.
fn same_kind(kind: &Kind) -> Kind
    requires { parting_by (line_of kind.now).shape ≢ OneStrand }
    ensures { result ≡ kind.now }
{
    match kind {
        Kind::Dam => Kind::Dam,
        _ => Kind::Elastic,
    }
}

// Adds so many strands of a stage, from its first on.
fn add_parts(
    strands: &mut Vec<Strand>,
    alloc: Global,
    inputs: &[bool],
    outputs: &[bool],
    stage: usize,
    kind: &Kind,
    count: u16,
) -> Result<(), NoMemory>
    requires parted { parting_by (line_of kind.now).shape ≢ OneStrand }
    requires few { stage < 65536 }
    requires below { length strands.old.items + count ≤ 65536 }
    requires inputs { 64 * (length strands.old.items + count) ≤ length inputs.now }
    requires outputs { 64 * (length strands.old.items + count) ≤ length outputs.now }
    ensures { OnOk result (strands.new.items ≡ strands.old.items ++ map (part_by inputs.now outputs.now stage (length strands.old.items) kind.now) (range_with_len 0 count)) }
{
    for part in 0..count {
        let number = strands.len();
        let has_input = row(inputs, number, 1);
        let has_output = row(outputs, number, 1);
        strands.push(Strand::of_part(
            alloc,
            stage as u32,
            part,
            same_kind(kind),
            has_input,
            has_output,
        )?)?;
    }
    Ok(())
}

// Adds the strands of a stage.
fn add_strands(
    strands: &mut Vec<Strand>,
    alloc: Global,
    inputs: &[bool],
    outputs: &[bool],
    stage: usize,
    kind: Kind,
    later: u16,
) -> Result<(), NoMemory>
    requires few { stage < 65536 }
    requires uses { later < 65535 }
    requires below { length strands.old.items + width_of (record { kind = kind; streams = suc later }) ≤ 65536 }
    requires inputs { 64 * (length strands.old.items + width_of (record { kind = kind; streams = suc later })) ≤ length inputs.now }
    requires outputs { 64 * (length strands.old.items + width_of (record { kind = kind; streams = suc later })) ≤ length outputs.now }
    ensures { OnOk result (strands.new.items ≡ strands.old.items ++ parts_by inputs.now outputs.now stage (length strands.old.items) (record { kind = kind; streams = suc later })) }
{
    match Parting::of(&kind) {
        Parting::Whole => {
            let number = strands.len();
            strands.push(strand(alloc, inputs, outputs, stage, number, kind, later)?)?;
            Ok(())
        }
        parting => {
            let count = parting.strands(later + 1);
            add_parts(strands, alloc, inputs, outputs, stage, &kind, count)
        }
    }
}

/// The strands of stages of these kinds, whose labels have so many later uses each, and whose linked places these flags tell.
pub(crate) fn strands_of(
    alloc: Global,
    inputs: &[bool],
    outputs: &[bool],
    later: &[u16],
    kinds: Vec<Kind>,
) -> Result<Vec<Strand>, NoMemory>
    requires few { length later.now ≤ 65535 }
    requires each { length later.now ≡ length kinds.items }
    requires uses { All (λ count. count < 65535) later.now }
    requires below { sum_by width_of (sizes_by later.now kinds.items) ≤ 65536 }
    requires inputs { length inputs.now ≡ 64 * sum_by width_of (sizes_by later.now kinds.items) }
    requires outputs { length outputs.now ≡ 64 * sum_by width_of (sizes_by later.now kinds.items) }
    ensures { IfOk result (λ strands. strands.items ≡ strands_by inputs.now outputs.now 0 0 (sizes_by later.now kinds.items)) }
{
    let mut strands = Vec::new(alloc);
    let mut stage = 0;
    for kind in kinds {
        add_strands(
            &mut strands,
            alloc,
            inputs,
            outputs,
            stage,
            kind,
            later[stage],
        )?;
        stage += 1;
    }
    Ok(strands)
}
