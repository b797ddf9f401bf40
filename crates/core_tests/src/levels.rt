use commit_levels::Unit;
use std::test::Fail;

// A level answers once all stand there, with the worst code of those that ended before.
#[test]
fn a_level_answers_once_all_stand_there(rt: HostRuntime) -> Result<(), Fail> {
    let mut unit = Unit::new(rt.alloc(), 2)?;
    unit.ended(0, 4);
    let early = unit.answer(0);
    unit.ended(1, -8);
    assert_eq!(rt; [early, unit.answer(0)], [None, Some(-8)]);
    Ok(())
}
