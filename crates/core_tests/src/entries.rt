use pipe_model::Entry;
use std::test::Fail;
use step_journal::StepJournal;

const BEGAN: Entry = Entry {
    strand: 7,
    stream: 0,
};

const PUT: Entry = Entry {
    strand: 1,
    stream: 65_535,
};

const TOOK: Entry = Entry {
    strand: 4_294_967_295,
    stream: 0,
};

const SAW: Entry = Entry {
    strand: 1,
    stream: 2,
};

// Three entries that come again and again come back one by one.
#[test]
fn rounds_come_back_entry_by_entry(rt: HostRuntime) -> Result<(), Fail> {
    let mut journal = StepJournal::with_room(rt.alloc(), 7)?;
    journal.push_reserved(BEGAN);
    journal.push_rounds(PUT, TOOK, SAW, 2);
    let all = journal.entries(rt.alloc())?;
    assert!(rt; all.as_slice() == [BEGAN, PUT, TOOK, SAW, PUT, TOOK, SAW].as_slice());
    Ok(())
}
