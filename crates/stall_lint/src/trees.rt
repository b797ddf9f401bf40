ghost use Rattle.std.specs.Prelude.{◌≡◌, ◌<◌, ◌≤◌, ◌++◌, ◌∷◌, [], drop, length, replicate, IfOk, MatchBool, option_map};
ghost use Rattle.pipe_model.specs.WellFormed.{IsWellFormed};
ghost use Rattle.stall_lint.specs.Grouped.{AreGroups};
ghost use Rattle.stall_lint.specs.Growing.{AreGrown, Grew, HasEnd, IsFinished, IsGrowing, IsReached, IsReachedBy, LeadsOn, Steps};
ghost use Rattle.stall_lint.specs.Trees.{Grows};

use crate::edges::{Edges, edges_of, take};
use crate::groups::Groups;
use crate::hops::Hop;
use pipe_model::{Net, NoMemory};
use std::alloc::Global;

/// Where a group stands in its tree.
#[derive(Clone, Copy)]
struct Place {
    /// The edge over which it was reached, but for a root.
    up: Option<u32>,
    /// How many edges lead up to the root.
    depth: u32,
    /// All its edges were followed.
    is_done: bool,
}

/// How a tree goes on to grow.
#[derive(Drop)]
enum Step {
    /// At this group.
    At(u32),
    /// An edge closes a circle of these hops.
    Closes(Vec<Hop>),
    /// It is grown.
    Ends,
}

// Grows trees of groups over the edges: they are all edges, or an edge closes a circle with those on the way from a group to one above it.
pub(crate) fn grow(alloc: Global, net: &Net, groups: &Groups) -> Result<Option<Vec<Hop>>, NoMemory>
    requires formed { IsWellFormed net.now }
    requires groups { AreGroups net.now groups.now }
    ensures { IfOk result (λ found. Grows net.now (option_map (λ found. found.items) found)) }
{
    let mut edges = edges_of(alloc, net, groups)?;
    let mut places = unreached(alloc, groups.labels.len())?;
    for root in 0..groups.labels.len() {
        if let Some(circle) = grow_at(alloc, net, groups, &mut edges, &mut places, root as u32)? {
            return Ok(Some(circle));
        }
    }
    Ok(None)
}

// So many groups that weren't reached.
fn unreached(alloc: Global, count: usize) -> Result<Vec<Option<Place>>, NoMemory>
    ensures { IfOk result (λ places. places.items ≡ replicate count None) }
{
    Ok(vec![in alloc; None; count]?)
}

// Grows a tree with this root, where no other has reached it.
fn grow_at(
    alloc: Global,
    net: &Net,
    groups: &Groups,
    edges: &mut Vec<Edges>,
    places: &mut Vec<Option<Place>>,
    root: u32,
) -> Result<Option<Vec<Hop>>, NoMemory>
    requires formed { IsWellFormed net.now }
    requires groups { AreGroups net.now groups.now }
    requires within { root < length groups.now.labels.items }
    requires grown { AreGrown net.now groups.now.labels.items edges.old.items places.old.items }
    ensures { IfOk result (λ found. Grew net.now groups.now.labels.items root places.old.items edges.new.items places.new.items (option_map (λ found. found.items) found)) }
{
    if places[root as usize].is_some() {
        return Ok(None);
    }
    places[root as usize] = Some(Place {
        up: None,
        depth: 0,
        is_done: false,
    });
    // The way from the root to a group.
    let mut way: Vec<Hop> = Vec::new(alloc);
    let mut at = root;
    'grow: loop {
        match go_on(alloc, net, groups, edges, places, &mut way, at)? {
            Step::At(group) => at = group,
            Step::Closes(circle) => return Ok(Some(circle)),
            Step::Ends => return Ok(None),
        }
    }
}

// Follows one edge of this group, or goes back from it.
fn go_on(
    alloc: Global,
    net: &Net,
    groups: &Groups,
    edges: &mut Vec<Edges>,
    places: &mut Vec<Option<Place>>,
    way: &mut Vec<Hop>,
    at: u32,
) -> Result<Step, NoMemory>
    requires formed { IsWellFormed net.now }
    requires groups { AreGroups net.now groups.now }
    requires growing { IsGrowing net.now groups.now.labels.items edges.old.items places.old.items way.old.items at }
    ensures { IfOk result (Steps net.now groups.now.labels.items edges.old.items places.old.items way.old.items edges.new.items places.new.items way.new.items) }
{
    let Some(edge) = take(edges, at) else {
        finish(places, at);
        let Some(hop) = way.pop() else {
            return Ok(Step::Ends);
        };
        return Ok(Step::At(groups.labels[hop.exit as usize]));
    };
    let hop = hop_from(net, groups, at, edge);
    let next = groups.labels[hop.entry as usize];
    let Some(place) = places[next as usize] else {
        way.push(hop)?;
        places[next as usize] = Some(Place {
            up: Some(edge),
            depth: way.len() as u32,
            is_done: false,
        });
        return Ok(Step::At(next));
    };
    if place.is_done || is_up(places, at, edge) {
        return Ok(Step::At(at));
    }
    Ok(Step::Closes(circle(alloc, way, place.depth, hop)?))
}

// The hop over an edge from this group.
fn hop_from(net: &Net, groups: &Groups, group: u32, number: u32) -> Hop
    requires { HasEnd net.now groups.now.labels.items number group }
    ensures { LeadsOn net.now groups.now.labels.items result number group }
{
    let link = &net.links.as_slice()[number as usize];
    if groups.labels[link.from as usize] == group {
        Hop {
            exit: link.from,
            link: number,
            entry: link.to,
        }
    } else {
        Hop {
            exit: link.to,
            link: number,
            entry: link.from,
        }
    }
}

// Whether this edge is the one over which a group was reached.
fn is_up(places: &[Option<Place>], group: u32, edge: u32) -> bool
    requires { group < length places.now }
    ensures { MatchBool result (IsReachedBy places.now group edge) (¬ IsReachedBy places.now group edge) }
{
    match places[group as usize] {
        Some(place) => place.up == Some(edge),
        None => false,
    }
}

// All edges of a group were followed.
fn finish(places: &mut Vec<Option<Place>>, group: u32)
    requires { IsReached places.old.items group }
    ensures { IsFinished places.old.items group places.new.items }
{
    if let Some(place) = places[group as usize] {
        places[group as usize] = Some(Place {
            is_done: true,
            ..place
        });
    }
}

// The hops of the way behind this depth, and the one that closes them.
fn circle(alloc: Global, way: &[Hop], depth: u32, closing: Hop) -> Result<Vec<Hop>, NoMemory>
    requires { depth ≤ length way.now }
    ensures { IfOk result (λ circle. circle.items ≡ drop depth way.now ++ closing ∷ []) }
{
    let mut circle = Vec::from_slice(alloc, &way[depth as usize..])?;
    circle.push(closing)?;
    Ok(circle)
}
