ghost use Rattle.std.specs.Prelude.{◌≡◌, ◌-◌, ◌<◌, ◌++◌, ◌∷◌, [], length, option_map, replicate, slice_get, slice_set, take, IfOk, MatchOption};
ghost use Rattle.pipe_model.specs.WellFormed.{IsWellFormed};
ghost use Rattle.stall_lint.specs.ClosedWalks.{IsRound};
ghost use Rattle.stall_lint.specs.LooksBack.{AllWait, ClosesAt, GoesOn, IsLooking, IsSearch};
ghost use Rattle.stall_lint.specs.Never.{HasNoDam};
ghost use Rattle.stall_lint.specs.Ranks.{IsRanked};

use pipe_model::{Net, NoMemory};
use std::alloc::Global;
use std::marker::Model;

/// The links to a strand that weren't followed yet, by their numbers.
#[derive(Drop)]
struct Waiting {
    links: Vec<u32>,
}

impl Model for Waiting {
    ghost use Rattle.std.specs.Prelude.{List, ℕ};

    ghost Value = { List ℕ };

    ghost view = { λ waiting. waiting.links.items };
}

impl Waiting {
    // With one more behind them.
    fn push(&mut self, link: u32) -> Result<(), NoMemory>
        ensures { IfOk result (λ done. self.new ≡ self.old ++ link ∷ []) }
    {
        self.links.push(link)?;
        Ok(())
    }

    // The last of them.
    fn last(&self) -> Option<u32>
        ensures { result ≡ slice_get self.now (length self.now - 1) }
    {
        self.links.last().copied()
    }

    // Without the last of them.
    fn pop(&mut self)
        ensures { self.new ≡ take (length self.old - 1) self.old }
    {
        self.links.pop();
    }
}

/// What is known of a strand.
#[derive(Clone, Copy)]
enum Look {
    New,
    /// It stands at this place of the way back.
    On(usize),
    /// All strands from which links lead to it were looked at before.
    Done,
}

// Strands of which each is fed by the next and the last by the first, if there are such.
pub(crate) fn ring(alloc: Global, net: &Net) -> Result<Option<Vec<u32>>, NoMemory>
    requires formed { IsWellFormed net.now }
    requires undammed { HasNoDam net.now }
    ensures { IfOk result (λ found. IsRanked net.now (option_map (λ found. found.items) found)) }
{
    let count = net.strands.as_slice().len();
    let mut waiting = all_waiting(alloc, net)?;
    let mut looks = vec![in alloc; Look::New; count]?;
    for start in 0..count {
        if let Look::New = looks[start] {
            if let Some(ring) = look_back(alloc, net, &mut waiting, &mut looks, start as u32)? {
                return Ok(Some(ring));
            }
        }
    }
    Ok(None)
}

// For each strand the links to its inputs.
fn all_waiting(alloc: Global, net: &Net) -> Result<Vec<Waiting>, NoMemory>
    requires { IsWellFormed net.now }
    ensures { IfOk result (λ waiting. AllWait net.now (length net.now.links) waiting.items) }
{
    let mut waiting = none_waiting(alloc, net.strands.as_slice().len())?;
    let links = net.links.as_slice();
    for number in 0..links.len() {
        waiting[links[number].to as usize].push(number as u32)?;
    }
    Ok(waiting)
}

// For each of so many strands no link yet.
fn none_waiting(alloc: Global, count: usize) -> Result<Vec<Waiting>, NoMemory>
    ensures { IfOk result (λ waiting. waiting.items ≡ replicate count []) }
{
    let mut waiting = Vec::new(alloc);
    for _ in 0..count {
        waiting.push(Waiting {
            links: Vec::new(alloc),
        })?;
    }
    Ok(waiting)
}

// Goes back from a strand, link by link, to all that lead to it.
fn look_back(
    alloc: Global,
    net: &Net,
    waiting: &mut [Waiting],
    looks: &mut [Look],
    start: u32,
) -> Result<Option<Vec<u32>>, NoMemory>
    requires formed { IsWellFormed net.now }
    requires search { IsSearch net.now waiting.old looks.old [] }
    requires fresh { slice_get looks.old start ≡ Some Look.New }
    ensures { IfOk result (λ found. MatchOption found
        (IsLooking net.now start looks.old waiting.new looks.new [])
        (λ ring. IsRound net.now ring.items)) }
{
    let mut way = Vec::new(alloc);
    enter(looks, &mut way, start)?;
    while let Some(last) = way.last() {
        let at = *last;
        if let Some(place) = go_on(net, waiting, looks, &mut way, at)? {
            return Ok(Some(Vec::from_slice(alloc, &way[place..])?));
        }
    }
    Ok(None)
}

// The way back goes on to a strand.
fn enter(looks: &mut [Look], way: &mut Vec<u32>, strand: u32) -> Result<(), NoMemory>
    requires { strand < length looks.old }
    ensures looks { looks.new ≡ slice_set looks.old strand (Look.On (length way.old.items)) }
    ensures way { IfOk result (λ done. way.new.items ≡ way.old.items ++ strand ∷ []) }
{
    looks[strand as usize] = Look::On(way.len());
    way.push(strand)?;
    Ok(())
}

// Follows the last link that waits with the last strand of the way, or leaves that strand. It gives the place on the way to which the
// link leads back, if it does.
fn go_on(
    net: &Net,
    waiting: &mut [Waiting],
    looks: &mut [Look],
    way: &mut Vec<u32>,
    at: u32,
) -> Result<Option<usize>, NoMemory>
    requires formed { IsWellFormed net.now }
    requires search { IsSearch net.now waiting.old looks.old way.old.items }
    requires last { slice_get way.old.items (length way.old.items - 1) ≡ Some at }
    ensures { IfOk result (λ found. MatchOption found
        (GoesOn net.now waiting.old looks.old waiting.new looks.new way.new.items)
        (ClosesAt net.now way.new.items)) }
{
    let Some(number) = waiting[at as usize].last() else {
        looks[at as usize] = Look::Done;
        way.pop();
        return Ok(None);
    };
    let producer = net.links.as_slice()[number as usize].from;
    match looks[producer as usize] {
        Look::New => {
            enter(looks, way, producer)?;
            Ok(None)
        }
        Look::On(place) => Ok(Some(place)),
        Look::Done => {
            waiting[at as usize].pop();
            Ok(None)
        }
    }
}
