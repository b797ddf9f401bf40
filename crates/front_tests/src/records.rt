use pipe_model::{Entry, Kind, Net, NoMemory, Rec, Recs, Seen, Strand, Want, lines_of, text_of};
use std::test::Fail;

#[test]
fn a_text_is_cut_at_line_feeds(rt: HostRuntime) -> Result<(), Fail> {
    let alloc = rt.alloc();
    let records = lines_of(alloc, b"ab\n\n\xff")?;
    assert_eq!(rt; records.len(), 3);
    let text = text_of(alloc, &records)?;
    assert_eq!(rt; text.bytes(), b"ab\n\n\xff\n".as_slice());
    Ok(())
}

#[test]
fn parts_of_records_are_records(rt: HostRuntime) -> Result<(), Fail> {
    let alloc = rt.alloc();
    let own = Rec::from_slice(alloc, b"abcd")?;
    let shared = Rec::shared(alloc, Vec::from_slice(alloc, b"abcd")?)?;
    assert_eq!(rt; own.part(alloc, 1, 2)?.bytes(), b"bc".as_slice());
    assert_eq!(rt;
        shared.copy(alloc)?.part(alloc, 3, 9)?.bytes(),
        b"d".as_slice()
    );
    Ok(())
}

#[test]
fn want_of_memory_and_a_record_have_texts(rt: HostRuntime) -> Result<(), Fail> {
    let alloc = rt.alloc();
    assert_eq!(rt; format!(in alloc; "{NoMemory}")?.as_str(), "out of memory");
    let record = Rec::from_slice(alloc, b"a\0")?;
    assert_eq!(rt; format!(in alloc; "{record:?}")?.as_str(), "[97, 0]");
    Ok(())
}

// Calls for this type show that its values can be moved to another thread.
fn is_send<T: Send>() {}

#[test]
fn a_value_can_go_to_another_thread() {
    is_send::<Rec>();
    is_send::<Recs>();
    is_send::<Kind>();
    is_send::<Strand>();
    is_send::<Net>();
    is_send::<Entry>();
    is_send::<Want>();
    is_send::<Seen>();
}
