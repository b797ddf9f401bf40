ghost use Rattle.std.specs.Prelude.{◌≡◌, ◌<◌, ◌+◌, ℕ, [], length, IfOk};
ghost use Rattle.pipe_model.specs.WellFormed.{IsWellFormed};
ghost use Rattle.stall_lint.specs.Grouped.{AreGroups};
ghost use Rattle.stall_lint.specs.Listed.{AreListed, IsTaken, edges_at, with_edge};

use crate::groups::Groups;
use pipe_model::{Net, NoMemory};
use std::alloc::Global;
use std::marker::Model;

/// The edges that have an end in a group and weren't followed yet, by their numbers among the links.
#[derive(Drop)]
pub(crate) struct Edges {
    numbers: Vec<u32>,
}

impl Model for Edges {
    ghost use Rattle.std.specs.Prelude.{List, ℕ};

    ghost Value = { List ℕ };

    ghost view = { λ edges. edges.numbers.items };
}

impl Edges {
    ghost use Rattle.std.specs.Prelude.{◌≡◌, ◌++◌, ◌∷◌, [], IfOk};
    ghost use Rattle.stall_lint.specs.Listed.{IsPopped};

    fn push(&mut self, number: u32) -> Result<(), NoMemory>
        ensures { IfOk result (λ done. self.new ≡ self.old ++ number ∷ []) }
    {
        self.numbers.push(number)?;
        Ok(())
    }

    // The last of them, which is no longer among them.
    fn pop(&mut self) -> Option<u32>
        ensures { IsPopped self.old result self.new }
    {
        self.numbers.pop()
    }
}

// For each label the edges that have an end in its group.
pub(crate) fn edges_of(alloc: Global, net: &Net, groups: &Groups) -> Result<Vec<Edges>, NoMemory>
    requires formed { IsWellFormed net.now }
    requires groups { AreGroups net.now groups.now }
    ensures { IfOk result (λ edges. AreListed net.now groups.now.labels.items (length net.now.links) edges.items) }
{
    let mut edges = none(alloc, groups.labels.len())?;
    for number in 0..net.links.as_slice().len() {
        list(net, groups, &mut edges, number)?;
    }
    Ok(edges)
}

// For each of so many labels no edges.
fn none(alloc: Global, count: usize) -> Result<Vec<Edges>, NoMemory>
    ensures count { IfOk result (λ edges. length edges.items ≡ count) }
    ensures none { IfOk result (λ edges. (g : ℕ) → edges_at edges.items g ≡ []) }
{
    let mut edges = Vec::new(alloc);
    for _ in 0..count {
        edges.push(Edges {
            numbers: Vec::new(alloc),
        })?;
    }
    Ok(edges)
}

// Lists the link of this number for the groups of its ends, where it is an edge.
fn list(net: &Net, groups: &Groups, edges: &mut Vec<Edges>, number: usize) -> Result<(), NoMemory>
    requires formed { IsWellFormed net.now }
    requires groups { AreGroups net.now groups.now }
    requires within { number < length net.now.links }
    requires listed { AreListed net.now groups.now.labels.items number edges.old.items }
    ensures { IfOk result (λ done. AreListed net.now groups.now.labels.items (number + 1) edges.new.items) }
{
    if groups.inner[number] {
        return Ok(());
    }
    let link = &net.links.as_slice()[number];
    list_for(edges, groups.labels[link.from as usize], number as u32)?;
    list_for(edges, groups.labels[link.to as usize], number as u32)
}

// Lists an edge for one group.
fn list_for(edges: &mut Vec<Edges>, group: u32, number: u32) -> Result<(), NoMemory>
    requires { group < length edges.old.items }
    ensures { IfOk result (λ done. edges.new.items ≡ with_edge edges.old.items group number) }
{
    edges[group as usize].push(number)?;
    Ok(())
}

// The last edge of a group that wasn't followed yet, which is no longer among them.
pub(crate) fn take(edges: &mut Vec<Edges>, group: u32) -> Option<u32>
    requires { group < length edges.old.items }
    ensures { IsTaken edges.old.items group result edges.new.items }
{
    edges[group as usize].pop()
}
