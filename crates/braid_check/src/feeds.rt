ghost use Rattle.std.specs.Prelude.{◌≡◌, map, IfOk};
ghost use Rattle.pipe_model.specs.WellFormed.{IsWellFormed};
ghost use Rattle.braid_check.specs.Feeds.{AreFeeds, unfed_strand, with_feed};

use pipe_model::{Link, Net, NoMemory, Strand};
use std::alloc::Global;
use std::marker::Model;

/// The producers of a strand's inputs, in their order, for those that are connected.
#[derive(Drop)]
pub(crate) struct Feed {
    pub(crate) producers: Vec<Option<u32>>,
}

impl Model for Feed {
    ghost use Rattle.braid_check.specs.Feeds.{Producers};

    ghost Value = { Producers };

    ghost view = { λ feed. feed.producers.items };
}

impl Feed {
    ghost use Rattle.std.specs.Prelude.{◌≡◌, None, filter_map, slice_get, unwrap_or, IfOk};
    ghost use Rattle.braid_check.specs.Feeds.{led_to};

    // The producer of an input is known.
    fn lead(&mut self, input: u16, from: u32)
        ensures { self.new ≡ led_to input from self.old }
    {
        if let Some(producer) = self.producers.get_mut(input as usize) {
            *producer = Some(from);
        }
    }

    // The producers of the connected inputs.
    pub(crate) fn connected(&self, alloc: Global) -> Result<Vec<u32>, NoMemory>
        ensures { IfOk result (λ producers. producers.items ≡ filter_map (λ producer. producer) self.now) }
    {
        Ok(
            self.producers
                .iter()
                .filter_map(|producer| *producer)
                .collect(alloc)?,
        )
    }

    // The producer of input 0.
    pub(crate) fn first(&self) -> Option<u32>
        ensures { result ≡ unwrap_or (slice_get self.now 0) None }
    {
        self.producers.first().copied()?
    }
}

// The feeds of all strands.
pub(crate) fn feeds(alloc: Global, net: &Net) -> Result<Vec<Feed>, NoMemory>
    requires { IsWellFormed net.now }
    ensures { IfOk result (λ feeds. AreFeeds net.now feeds.items) }
{
    let mut feeds = unfed(alloc, net.strands.as_slice())?;
    let links = net.links.as_slice();
    let mut k = links.len();
    while k > 0 {
        k -= 1;
        lead_along(&mut feeds, links[k]);
    }
    Ok(feeds)
}

// The feeds of these strands, before any link is known.
fn unfed(alloc: Global, strands: &[Strand]) -> Result<Vec<Feed>, NoMemory>
    ensures { IfOk result (λ feeds. feeds.items ≡ map unfed_strand strands.now) }
{
    let mut feeds = Vec::new(alloc);
    for strand in strands {
        feeds.push(unfed_one(alloc, strand)?)?;
    }
    Ok(feeds)
}

fn unfed_one(alloc: Global, strand: &Strand) -> Result<Feed, NoMemory>
    ensures { IfOk result (λ feed. feed ≡ unfed_strand strand.now) }
{
    let places = strand.ports.has_input.as_slice().len();
    Ok(Feed {
        producers: vec![in alloc; None; places]?,
    })
}

fn lead_along(feeds: &mut Vec<Feed>, link: Link)
    ensures { feeds.new.items ≡ with_feed feeds.old.items link }
{
    if let Some(feed) = feeds.get_mut(link.to as usize) {
        feed.lead(link.input, link.from);
    }
}
