ghost use Rattle.std.specs.Prelude.{◌≡◌, ◌≤◌, ◌<◌, ◌+◌, ℕ, List, [], ◌∷◌, ◌++◌, length, map, sum_by, All, IfOk, OnOk};
ghost use Rattle.pipe_model.specs.Form.Parting.{Queued};
ghost use Rattle.net_graph.specs.Nets as Nets;
ghost use Rattle.net_graph.specs.Nets.{StageSize, links_of, queues_from, width_of};
ghost use Rattle.net_graph.specs.Partings.{AreParts, IsWithin, parting_is, sizes_by};

use crate::parting::Parting;
use pipe_model::{Kind, Link, NoMemory};
use std::alloc::Global;

/// Where the strands of a stage stand.
#[derive(Clone, Copy)]
pub(crate) struct Parts {
    /// The number of its first strand: there are at most 65,536 strands.
    pub first: u16,
    pub parting: Parting,
}

impl Parts {
    // The number of the strand at which a stream comes in.
    fn strand_in(self, stream: u16) -> u32
        ensures { result ≡ self.first + Nets.part_in (parting_is self.parting) stream }
    {
        u32::from(self.first) + u32::from(self.parting.part_in(stream))
    }

    // The number of the strand at which a stream goes out.
    fn strand_out(self, stream: u16) -> u32
        ensures { result ≡ self.first + Nets.part_out (parting_is self.parting) stream }
    {
        u32::from(self.first) + u32::from(self.parting.part_out(stream))
    }
}

/// Where the strands of all stages stand, and how many there are.
#[derive(Drop)]
pub(crate) struct Layout {
    pub parts: Vec<Parts>,
    pub strands: u32,
}

// Where the strands of stages of these kinds stand, whose labels have so many later uses each.
pub(crate) fn layout_of(alloc: Global, kinds: &[Kind], later: &[u16]) -> Result<Layout, NoMemory>
    requires each { length later.now ≡ length kinds.now }
    requires uses { All (λ count. count < 65535) later.now }
    requires few { sum_by width_of (sizes_by later.now kinds.now) ≤ 65536 }
    ensures parts { IfOk result (λ layout. AreParts layout.parts.items (sizes_by later.now kinds.now)) }
    ensures count { IfOk result (λ layout. layout.strands ≡ sum_by width_of (sizes_by later.now kinds.now)) }
{
    let mut parts = Vec::new(alloc);
    let mut strands = 0;
    for stage in 0..kinds.len() {
        let parting = Parting::of(&kinds[stage]);
        parts.push(Parts {
            first: strands as u16,
            parting,
        })?;
        strands += u32::from(parting.strands(later[stage] + 1));
    }
    Ok(Layout { parts, strands })
}

// The link between strands that a join makes, whose stages and streams are numbered.
fn link_of(parts: &[Parts], join: &Link) -> Link
    requires { IsWithin (length parts.now) join.now }
    ensures { (sizes : List StageSize) → AreParts parts.now sizes → result ≡ Nets.link_of sizes join.now }
{
    let source = parts[join.from as usize];
    let target = parts[join.to as usize];
    Link::rendezvous(
        source.strand_out(join.output),
        source.parting.place(join.output),
        target.strand_in(join.input),
        target.parting.place(join.input),
    )
}

// The queue from a strand to the next one.
fn queue_from(strand: u16) -> Link
    ensures { result ∷ [] ≡ Nets.queue_of Queued strand }
{
    Link {
        from: u32::from(strand),
        output: 0,
        to: u32::from(strand) + 1,
        input: 0,
        queue: true,
    }
}

// Adds the links of joins.
fn add_links(links: &mut Vec<Link>, parts: &[Parts], joins: &[Link]) -> Result<(), NoMemory>
    requires { All (IsWithin (length parts.now)) joins.now }
    ensures { (sizes : List StageSize) → AreParts parts.now sizes → OnOk result (links.new.items ≡ links.old.items ++ map (Nets.link_of sizes) joins.now) }
{
    for join in joins {
        links.push(link_of(parts, join))?;
    }
    Ok(())
}

// Adds the queues of stages.
fn add_queues(links: &mut Vec<Link>, parts: &[Parts]) -> Result<(), NoMemory>
    ensures { (sizes : List StageSize) → AreParts parts.now sizes → OnOk result (links.new.items ≡ links.old.items ++ queues_from sizes 0 sizes) }
{
    for part in parts {
        if let Parting::Queued = part.parting {
            links.push(queue_from(part.first))?;
        }
    }
    Ok(())
}

// The links between the strands of stages with these joins: those of the joins, and behind them the queues.
pub(crate) fn links_between(
    alloc: Global,
    parts: &[Parts],
    joins: &[Link],
) -> Result<Vec<Link>, NoMemory>
    requires { All (IsWithin (length parts.now)) joins.now }
    ensures { (sizes : List StageSize) → AreParts parts.now sizes → IfOk result (λ links. links.items ≡ links_of sizes joins.now) }
{
    let mut links = Vec::new(alloc);
    add_links(&mut links, parts, joins)?;
    add_queues(&mut links, parts)?;
    Ok(links)
}
