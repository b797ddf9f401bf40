ghost use Rattle.std.specs.Prelude.{◌≡◌, ◌<◌, ◌^◌, ◌++◌, None, IfOk, OnOk};
ghost use Rattle.net_graph.specs.Joins.{AreSmall, counted_past, link_by, links_by, links_by_all, spot_by};
ghost use Rattle.net_graph.specs.Nets.{counted, counted_all};

use pipe_model::{Link, NoMemory};
use spec_scanner::{Piece, PieceKind, Pieces};
use std::alloc::Global;

/// A stream of a stage.
#[derive(Clone, Copy, Drop)]
pub(crate) struct Spot {
    pub stage: u32,
    pub stream: u16,
}

// The stream that a piece stands for, where so many stages are defined before it.
fn spot_of(table: &[usize], before: usize, piece: &Piece) -> Option<Spot>
    requires small { AreSmall table.now }
    requires few { before < 65536 }
    ensures { result ≡ spot_by table.now before piece.now piece.now.kind }
{
    match piece.kind {
        PieceKind::Stage => Some(Spot {
            stage: before as u32,
            stream: 0,
        }),
        PieceKind::Reference => {
            let stage = table.get(piece.label? as usize)?;
            Some(Spot {
                stage: *stage as u32,
                stream: piece.uses,
            })
        }
        PieceKind::Connector => None,
    }
}

// How many stages are defined after a piece, where so many are before it.
pub(crate) fn counted(before: usize, piece: &Piece) -> usize
    requires { before < 2 ^ 63 }
    ensures { result ≡ counted before piece.now }
{
    match piece.kind {
        PieceKind::Stage => before + 1,
        _ => before,
    }
}

// The link from one stream to the next, if both are there.
fn join(links: &mut Vec<Link>, previous: Option<Spot>, next: Option<Spot>) -> Result<(), NoMemory>
    ensures { OnOk result (links.new.items ≡ links.old.items ++ link_by previous next) }
{
    if let (Some(from), Some(to)) = (previous, next) {
        links.push(Link::rendezvous(from.stage, from.stream, to.stage, to.stream))?;
    }
    Ok(())
}

// The links of a pipeline, and how many stages are defined after it.
fn join_pipeline(
    links: &mut Vec<Link>,
    table: &[usize],
    before: usize,
    pieces: &[Piece],
) -> Result<usize, NoMemory>
    requires small { AreSmall table.now }
    requires few { counted_all before pieces.now < 65536 }
    ensures links { OnOk result (links.new.items ≡ links.old.items ++ links_by table.now None before pieces.now) }
    ensures count { IfOk result (λ after. after ≡ counted_all before pieces.now) }
{
    let mut after = before;
    let mut previous = None;
    for piece in pieces {
        let next = spot_of(table, after, piece);
        join(links, previous, next)?;
        previous = next;
        after = counted(after, piece);
    }
    Ok(after)
}

/// The joins of pipelines, in the order of the text, where a table tells the stages that the labels define: links with the
/// numbers of stages in place of strands and of streams in place of places.
pub(crate) fn joins_of(
    alloc: Global,
    table: &[usize],
    pipelines: &[Pieces],
) -> Result<Vec<Link>, NoMemory>
    requires small { AreSmall table.now }
    requires few { counted_past 0 pipelines.now < 65536 }
    ensures { IfOk result (λ links. links.items ≡ links_by_all table.now 0 pipelines.now) }
{
    let mut links = Vec::new(alloc);
    let mut before = 0;
    for pieces in pipelines {
        before = join_pipeline(&mut links, table, before, pieces.as_slice())?;
    }
    Ok(links)
}
