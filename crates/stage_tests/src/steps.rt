use crate::in_turn::{InTurn, in_turn};
use crate::played::{Playable, Scene, kind_by, play};
use crate::scripted::{Script, a_script};
use pipe_model::{Kind, NoMemory, Rec, Seen, Times, Want};
use stage_steps::{
    Copies, Each, Group, Listed, Order, Planned, Sought, Stage, TextLines, is_less, is_same, leave,
    line_shown, lines_ahead, part_of, show_line, take_waiting,
};
use std::alloc::Global;
use std::process::Abort;
use std::test::Fail;

// A range, a record, and what the range names of it.
const PARTS: &str = "\
1-*|ab cd\tef  gh|ab cd\tef  gh\n\
w1-*|ab cd\tef  gh|ab cd\tef  gh\n\
2-*|ab cd\tef  gh|b cd\tef  gh\n\
w2-*|ab cd\tef  gh|cd\tef  gh\n\
f2-*|ab cd\tef  gh|ef  gh\n\
2|ab cd\tef  gh|b\n\
w2|ab cd\tef  gh|cd\tef\n\
f1|ab cd\tef  gh|ab cd\n\
1-2|  ab  cd |  \n\
w1-2|  ab  cd |ab  cd\n\
f1-2|  ab  cd |  ab  cd \n\
2.2|\t\tx|\tx\n\
w2.2|\t\tx|\n\
f2.2|\t\tx|\tx\n\
4-9|ab|\n\
w4-9|ab|\n\
f4-9|ab|";

#[test]
fn parts_are_cut_by_ranges(rt: HostRuntime) -> Result<(), Fail> {
    let alloc = rt.alloc();
    for row in PARTS.split('\n') {
        let mut cells = row.split('|');
        let range = cells.next().unwrap_or("");
        let rec = cells.next().unwrap_or("");
        let wanted = cells.next().unwrap_or("");
        let words = format!(in alloc; "locate {range}")?;
        match kind_by(alloc, words.as_str())? {
            Kind::Locate { range, .. } => {
                assert_eq!(rt; part_of(range, rec.as_bytes()), wanted.as_bytes(), "{row}");
            }
            _ => assert!(rt; false, "{row}"),
        }
    }
    Ok(())
}

#[test]
fn keys_are_compared_byte_by_byte(rt: HostRuntime) {
    assert!(rt; is_less(b"ab", b"b"));
    assert!(rt; !is_less(b"a\xff", b"ab"));
    assert!(rt; is_same(b"ab", b"ab"));
    assert!(rt; !is_same(b"ab", b"a"));
}

// Looks for a string of one byte and for a longer one behind so many other bytes.
fn finds_behind(rt: &impl Abort, alloc: Global, count: usize) -> Result<(), Fail> {
    let mut part = vec![in alloc; b'e'; count]?;
    part.extend_from_slice(b"nest")?;
    let byte = Sought::new(Rec::from_slice(alloc, b"n")?);
    let word = Sought::new(Rec::from_slice(alloc, b"nest")?);
    assert_eq!(rt; byte.find(&part), Some(count));
    assert_eq!(rt; word.find(&part), Some(count));
    Ok(())
}

#[test]
fn a_string_is_found_in_short_and_in_long_parts(rt: HostRuntime) -> Result<(), Fail> {
    let alloc = rt.alloc();
    finds_behind(&rt, alloc, 5)?;
    finds_behind(&rt, alloc, 50)?;
    finds_behind(&rt, alloc, 500)?;
    let long = [b'x'; 40];
    let long = Sought::new(Rec::from_slice(alloc, &long)?);
    assert!(rt; !long.is_in(b"xxx"));
    let word = Sought::new(Rec::from_slice(alloc, b"nest")?);
    assert_eq!(rt; word.clear(b"a nest", 9), 2);
    Ok(())
}

#[test]
fn what_waits_is_taken_once(rt: HostRuntime) {
    let mut waiting = Some(2);
    match take_waiting(&mut waiting) {
        Some(Group::AtHand(repeat)) => assert_eq!(rt; repeat.output, 2),
        _ => assert!(rt; false, "nothing waits"),
    }
    assert!(rt; take_waiting(&mut waiting).is_none());
}

// Plays what writes on two outputs and may read two inputs, and looks at what it did.
fn plays<S: Playable + Drop>(
    rt: &impl Abort,
    alloc: Global,
    mut stage: S,
    arrivals: &str,
    outputs: &str,
    wanted: &str,
) -> Result<(), Fail> {
    let mut scene = Scene::new(alloc, arrivals, outputs)?;
    play(alloc, &mut stage, &mut scene)?;
    assert_eq!(rt; scene.done(), wanted.as_bytes(), "at {arrivals}");
    Ok(())
}

fn listed(alloc: Global, lists: Script, order: Order) -> Result<Listed<Script>, NoMemory> {
    Listed::new(alloc, lists, order, &[true, true], false)
}

#[test]
fn groups_are_written_so_many_times(rt: HostRuntime) -> Result<(), Fail> {
    let alloc = rt.alloc();
    let twice = listed(alloc, a_script(alloc, Times::Only(2))?, Order::WritesFirst)?;
    plays(&rt, alloc, twice, "0a;0c;", "3*", "0b;0a;0a;-0;!0;-0;1z;=8")?;
    let ever = listed(alloc, a_script(alloc, Times::All)?, Order::TakesFirst)?;
    plays(&rt, alloc, ever, "0a;", "30", "0b;-0;0a;0a;!0;!1;=0")
}

#[test]
fn it_ends_where_the_lists_say(rt: HostRuntime) -> Result<(), Fail> {
    let alloc = rt.alloc();
    let mut lists = a_script(alloc, Times::Only(1))?;
    lists.stops_after = 1;
    let stops = listed(alloc, lists, Order::WritesFirst)?;
    plays(&rt, alloc, stops, "0a;0c;", "0*", "!0;-0;=8")?;
    let mut lists = a_script(alloc, Times::Only(1))?;
    lists.halts_at = 1;
    let halts = listed(alloc, lists, Order::TakesFirst)?;
    plays(&rt, alloc, halts, "0a;", "0*", "!0;=8")?;
    let mut lists = a_script(alloc, Times::Only(1))?;
    lists.stops_after = 0;
    let source = listed(alloc, lists, Order::WritesFirst)?;
    plays(&rt, alloc, source, "0a;", "**", "0b;=8")
}

fn planned(alloc: Global, plans: InTurn) -> Result<Planned<InTurn>, NoMemory> {
    Planned::new(alloc, plans, &[true, true])
}

#[test]
fn plans_are_done_on_open_outputs(rt: HostRuntime) -> Result<(), Fail> {
    let alloc = rt.alloc();
    plays(
        &rt,
        alloc,
        planned(alloc, in_turn(false))?,
        "0a;0b;1c;",
        "1*",
        "0a;1a;-0;!0;1b;-0;1c;-1;=8",
    )?;
    plays(
        &rt,
        alloc,
        planned(alloc, in_turn(false))?,
        "0a;",
        "00",
        "!0;!1;=0",
    )?;
    plays(
        &rt,
        alloc,
        planned(alloc, in_turn(true))?,
        "0a;",
        "**",
        "0a;1a;-0;=8",
    )
}

// Looks at what is asked for.
fn asks(rt: &impl Abort, alloc: Global, want: &Want, wanted: &str) -> Result<(), Fail> {
    let shown = format!(in alloc; "{want:?}")?;
    assert_eq!(rt; shown.as_str(), wanted);
    Ok(())
}

#[test]
fn a_bad_commit_ends_it(rt: HostRuntime) -> Result<(), Fail> {
    let alloc = rt.alloc();
    let mut lists = listed(alloc, a_script(alloc, Times::All)?, Order::TakesFirst)?;
    asks(
        &rt,
        alloc,
        &lists.resume(alloc, Seen::Up(-1, 4), b"")?,
        "Done(0)",
    )?;
    let mut plans = planned(alloc, in_turn(false))?;
    asks(
        &rt,
        alloc,
        &plans.resume(alloc, Seen::Up(-1, 0), b"")?,
        "Commit(0)",
    )?;
    asks(
        &rt,
        alloc,
        &plans.resume(alloc, Seen::Up(0, 28), b"")?,
        "Done(0)",
    )
}

// A stage of copies with one output, at the sight of its first record.
fn copies_at_sight(alloc: Global) -> Result<Listed<Each<Copies>>, NoMemory> {
    let lists = Copies::lists(false);
    let mut stage = Listed::new(alloc, lists, Order::WritesFirst, &[true], false)?;
    stage.resume(alloc, Seen::Up(-1, 0), b"")?;
    stage.resume(alloc, Seen::Up(0, 0), b"")?;
    stage.resume(alloc, Seen::Saw(0), b"")?;
    Ok(stage)
}

#[test]
fn it_passes_a_record_on_told_and_untold(rt: HostRuntime) -> Result<(), Fail> {
    let alloc = rt.alloc();
    let mut untold = copies_at_sight(alloc)?;
    assert!(rt; untold.passes());
    let mut want = Want::Any;
    leave(&mut want, untold.resume(alloc, Seen::Saw(0), b"")?);
    asks(&rt, alloc, &want, "Write(0, Same(0))")?;
    let mut told = copies_at_sight(alloc)?;
    assert!(rt; told.passes());
    asks(
        &rt,
        alloc,
        &told.resume(alloc, Seen::Put(0), b"")?,
        "Take(0)",
    )?;
    assert!(rt; told.passes());
    asks(
        &rt,
        alloc,
        &told.resume(alloc, Seen::Took(0), b"")?,
        "Read(0)",
    )?;
    assert!(rt; !told.passes());
    Ok(())
}

#[test]
fn a_source_shows_a_short_line_and_no_long_one(rt: HostRuntime) -> Result<(), Fail> {
    let alloc = rt.alloc();
    let mut text = vec![in alloc; b'x'; 257]?;
    text.extend_from_slice(b"\nb")?;
    let lines = TextLines::new(Rec::from_vec(text));
    let mut source = Listed::new(alloc, lines, Order::WritesFirst, &[true], false)?;
    source.resume(alloc, Seen::Up(-1, 0), b"")?;
    assert_eq!(rt; lines_ahead(&source).len(), 0);
    source.resume(alloc, Seen::Up(0, 0), b"")?;
    assert_eq!(rt; line_shown(&source).len(), 257);
    assert_eq!(rt; lines_ahead(&source), b"b".as_slice());
    assert!(rt; !show_line(&mut source, 1));
    assert!(rt; show_line(&mut source, 0));
    assert_eq!(rt; line_shown(&source), b"b".as_slice());
    assert!(rt; !show_line(&mut source, 0));
    asks(
        &rt,
        alloc,
        &source.resume(alloc, Seen::Put(0), b"")?,
        "Done(0)",
    )
}
