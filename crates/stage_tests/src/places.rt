use crate::played::{Scene, kind_by, play_all, stages_of};
use pipe_model::{Kind, Rec};
use stage_table::BuiltIn;
use std::alloc::Global;
use std::process::Abort;
use std::test::Fail;

// Plays a stage with one output that takes all, and looks at what it did with these records.
fn plays(
    rt: &impl Abort,
    alloc: Global,
    kind: Kind,
    arrivals: &str,
    wanted: &str,
) -> Result<(), Fail> {
    let mut stages = stages_of(rt, alloc, kind, 0, "*", "*")?;
    let mut scene = Scene::new(alloc, arrivals, "*")?;
    play_all(alloc, &mut stages, &mut scene)?;
    assert_eq!(rt; scene.done(), wanted.as_bytes());
    Ok(())
}

#[test]
fn a_source_writes_the_lines_of_its_text(rt: HostRuntime) -> Result<(), Fail> {
    let alloc = rt.alloc();
    let bytes = Rec::from_slice(alloc, b"a\n\nb")?;
    plays(&rt, alloc, Kind::ConsoleIn { bytes }, "", "0a;0;0b;=0")?;
    let name = Rec::from_slice(alloc, b"in")?;
    let bytes = Some(Rec::from_slice(alloc, b"a\nb\n")?);
    plays(&rt, alloc, Kind::FileIn { name, bytes }, "", "0a;0b;=0")
}

#[test]
fn an_absent_file_ends_with_28(rt: HostRuntime) -> Result<(), Fail> {
    let alloc = rt.alloc();
    let name = Rec::from_slice(alloc, b"in")?;
    let kind = Kind::FileIn { name, bytes: None };
    plays(&rt, alloc, kind, "", "=28")
}

#[test]
fn a_record_too_long_for_two_bytes_ends_a_block(rt: HostRuntime) -> Result<(), Fail> {
    let alloc = rt.alloc();
    let mut stages = stages_of(&rt, alloc, kind_by(alloc, "block 3 sf")?, 0, "*", "*")?;
    let mut scene = Scene::new(alloc, "0a;", "*")?;
    scene.add(Rec::from_vec(vec![in alloc; 0; 65_534]?))?;
    play_all(alloc, &mut stages, &mut scene)?;
    assert_eq!(rt; scene.done(), b"-0;0\0\x03a;-0;=8".as_slice());
    Ok(())
}

// Plays another strand of DAM or ELASTIC than the first.
fn plays_behind(
    rt: &impl Abort,
    alloc: Global,
    words: &str,
    is_primed: bool,
    wanted: &str,
) -> Result<(), Fail> {
    let mut stages = stages_of(rt, alloc, kind_by(alloc, words)?, 1, "*", "*")?;
    let mut scene = Scene::new(alloc, "0a;0;", "*")?;
    scene.is_primed = is_primed;
    play_all(alloc, &mut stages, &mut scene)?;
    assert_eq!(rt; scene.done(), wanted.as_bytes(), "{words}");
    Ok(())
}

#[test]
fn other_strands_of_a_dam_wait_for_the_first(rt: HostRuntime) -> Result<(), Fail> {
    let alloc = rt.alloc();
    plays_behind(&rt, alloc, "dam", true, "0a;-0;0;-0;=0")?;
    plays_behind(&rt, alloc, "dam", false, "=0")?;
    plays_behind(&rt, alloc, "elastic", false, "-0;0a;-0;0;=0")
}

// Calls for this type show that its values can be moved to another thread.
fn is_send<T: Send>() {}

#[test]
fn a_value_can_go_to_another_thread() {
    is_send::<BuiltIn>();
}
