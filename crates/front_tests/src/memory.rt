//! The forms in memory, each used through its trait.
use outside::{
    Fetched, Gate, MemShelf, MemSink, MemSource, OpenGate, ReadAnswer, Replaced, Shelf, Sink,
    Source, WriteAnswer,
};
use pipe_model::Rec;
use std::test::Fail;

#[test]
fn a_source_gives_pieces_and_fails_as_told(rt: HostRuntime) -> Result<(), Fail> {
    let alloc = rt.alloc();
    let mut source = MemSource::new(Rec::from_slice(alloc, b"abc")?, 2, vec![in alloc; 2]?);
    let mut room = [b'.'; 4];
    assert_eq!(rt; source.read(&mut room), ReadAnswer::Bytes(2));
    assert_eq!(rt; source.read(&mut room), ReadAnswer::Failed);
    assert_eq!(rt; source.read(&mut room), ReadAnswer::Bytes(1));
    assert_eq!(rt; room.as_slice(), b"cb..".as_slice());
    assert_eq!(rt; source.faults(), 1);
    Ok(())
}

#[test]
fn a_sink_takes_pieces_until_it_is_full(rt: HostRuntime) -> Result<(), Fail> {
    let alloc = rt.alloc();
    let mut sink = MemSink::new(alloc, 3, 2, Vec::new(alloc))?;
    assert_eq!(rt; sink.write(b"abc"), WriteAnswer::Took(2));
    assert_eq!(rt; sink.write(b"cd"), WriteAnswer::Took(1));
    assert_eq!(rt; sink.write(b"d"), WriteAnswer::Failed);
    assert_eq!(rt; sink.written(), b"abc".as_slice());
    Ok(())
}

#[test]
fn a_shelf_holds_what_was_put_there(rt: HostRuntime) -> Result<(), Fail> {
    let alloc = rt.alloc();
    let mut shelf = MemShelf::new(alloc, Vec::new(alloc));
    shelf.preset(b"a", b"old")?;
    assert_eq!(rt; shelf.replace(alloc, b"a", b"new"), Replaced::Stored);
    let fetched = shelf.fetch(alloc, b"a");
    assert!(rt; matches!(&fetched, Fetched::Found(bytes) if bytes.bytes() == b"new".as_slice()));
    Ok(())
}

#[test]
fn the_open_gate_needs_no_entry(rt: HostRuntime) {
    OpenGate.enter(0);
    assert!(rt; OpenGate.is_open());
}
