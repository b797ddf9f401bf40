use journal_file::{Journal, JournalFault, read, write};
use pipe_model::{Entry, NoMemory};
use std::test::Fail;

#[test]
fn a_journal_is_written_and_read_again(rt: HostRuntime) -> Result<(), Fail> {
    let alloc = rt.alloc();
    let mut journal = Journal::new(alloc);
    journal.push(Entry {
        strand: 4_294_967_295,
        stream: 65_535,
    })?;
    let text = write(alloc, &journal)?;
    assert!(rt; text.bytes() == b"pipe-journal 1\n4294967295 65535\nend 1\n".as_slice());
    match read(alloc, text.bytes()) {
        Ok(again) => assert!(rt; again.entries() == journal.entries()),
        Err(JournalFault::Line(line)) => assert_eq!(rt; line, 0),
        Err(JournalFault::NoMemory) => return Err(NoMemory.into()),
    }
    Ok(())
}
