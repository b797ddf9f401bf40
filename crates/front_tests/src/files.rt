//! A folder of files, some calls on which are refused.
use outside::{Fetched, FolderShelf, Replaced, Shelf};
use std::alloc::Allocator;
use std::cell::Cell;
use std::fs;
use std::fs::{Metadata, OpenFile, OpenOptions, Permissions};
use std::io::{self, ErrorKind, Read, Seek, SeekFrom, Write};
use std::os::unix::fs::symlink;
use std::path::PathBuf;
use std::process::Abort;
use std::rt::Files;
use std::test::Fail;

// How many calls were made, and the numbers of the first and the last that are refused, counted from 1.
#[derive(Clone, Copy)]
struct Calls<'c> {
    made: &'c Cell<u64>,
    first: u64,
    last: u64,
}

impl<'c> Calls<'c> {
    fn make(&self) -> io::Result<()> {
        let number = self.made.get().saturating_add(1);
        self.made.set(number);
        if self.first <= number && number <= self.last {
            return Err(io::Error::from(ErrorKind::Other));
        }
        Ok(())
    }
}

// Files of the runtime, some calls on which are refused.
#[derive(Drop)]
struct Refusing<'a, 'c, R> {
    rt: &'a R,
    calls: Calls<'c>,
}

// An open file that takes two bytes a write at most.
#[derive(Drop)]
struct RefusingFile<'c, F> {
    file: F,
    calls: Calls<'c>,
}

impl<'c, F: Read> Read for RefusingFile<'c, F> {
    fn read(&mut self, buf: &mut [u8]) -> io::Result<usize> {
        self.calls.make()?;
        self.file.read(buf)
    }
}

impl<'c, F: Write> Write for RefusingFile<'c, F> {
    fn write(&mut self, buf: &[u8]) -> io::Result<usize> {
        self.calls.make()?;
        self.file.write(&buf[..buf.len().min(2)])
    }

    fn flush(&mut self) -> io::Result<()> {
        self.file.flush()
    }
}

impl<'c, F: Seek> Seek for RefusingFile<'c, F> {
    fn seek(&mut self, to: SeekFrom) -> io::Result<u64> {
        self.file.seek(to)
    }
}

impl<'c, F: OpenFile> OpenFile for RefusingFile<'c, F> {
    fn metadata(&self) -> io::Result<Metadata> {
        self.calls.make()?;
        self.file.metadata()
    }

    fn set_len(&self, size: u64) -> io::Result<()> {
        self.file.set_len(size)
    }

    fn sync_all(&self) -> io::Result<()> {
        self.calls.make()?;
        self.file.sync_all()
    }

    fn sync_data(&self) -> io::Result<()> {
        self.file.sync_data()
    }

    fn set_permissions(&self, permissions: Permissions) -> io::Result<()> {
        self.calls.make()?;
        self.file.set_permissions(permissions)
    }
}

impl<'a, 'c, R: Files> Files for Refusing<'a, 'c, R> {
    type File = RefusingFile<'c, R::File>;

    type Dir = R::Dir;

    fn open_file(&self, how: &OpenOptions, path: &str) -> io::Result<RefusingFile<'c, R::File>> {
        self.calls.make()?;
        Ok(RefusingFile {
            file: self.rt.open_file(how, path)?,
            calls: self.calls,
        })
    }

    fn open_dir(&self, path: &str) -> io::Result<R::Dir> {
        self.rt.open_dir(path)
    }

    fn metadata(&self, path: &str) -> io::Result<Metadata> {
        self.calls.make()?;
        self.rt.metadata(path)
    }

    fn symlink_metadata(&self, path: &str) -> io::Result<Metadata> {
        self.calls.make()?;
        self.rt.symlink_metadata(path)
    }

    fn copy(&self, from: &str, to: &str) -> io::Result<u64> {
        self.rt.copy(from, to)
    }

    fn rename(&self, from: &str, to: &str) -> io::Result<()> {
        self.calls.make()?;
        self.rt.rename(from, to)
    }

    fn remove_file(&self, path: &str) -> io::Result<()> {
        self.calls.make()?;
        self.rt.remove_file(path)
    }

    fn create_dir(&self, path: &str) -> io::Result<()> {
        self.rt.create_dir(path)
    }

    fn remove_dir(&self, path: &str) -> io::Result<()> {
        self.rt.remove_dir(path)
    }

    fn remove_dir_all<B: Allocator>(&self, alloc: B, path: &str) -> io::Result<()> {
        self.rt.remove_dir_all(alloc, path)
    }

    fn canonicalize<B: Allocator>(&self, alloc: B, path: &str) -> io::Result<PathBuf<B>> {
        self.calls.make()?;
        self.rt.canonicalize(alloc, path)
    }
}

// What the file of this name holds, which is empty where there is none.
fn held(rt: &(impl Files + AllocGlobal), name: &str) -> io::Result<Vec<u8>> {
    match fs::read(rt, name) {
        Err(error) if error.kind() == ErrorKind::NotFound => Ok(Vec::new(rt.alloc())),
        read => read,
    }
}

const OLD: &str = "old bytes";

const NEW: &str = "other";

// Fetches the file of this name with these calls refused: it is told to be as it is, or the fetch fails. Answers how many calls
// were made.
fn fetch(
    rt: &(impl Files + AllocGlobal + Abort),
    name: &str,
    old: &str,
    first: u64,
    last: u64,
) -> u64 {
    let made = Cell::new(0);
    let refusing = Refusing {
        rt,
        calls: Calls {
            made: &made,
            first,
            last,
        },
    };
    let mut shelf = FolderShelf::new(&refusing);
    let is_told = match shelf.fetch(rt.alloc(), name.as_bytes()) {
        Fetched::Found(bytes) => bytes.bytes() == OLD.as_bytes(),
        Fetched::Absent => old.is_empty(),
        Fetched::Failed => shelf.faults() == 1,
        Fetched::NoMemory => false,
    };
    assert!(rt; is_told, "{name} {first} {last}");
    made.get()
}

// Replaces the file of this name with these calls refused. Answers whether it was, whether that was told, and how many calls
// were made.
fn replace(
    rt: &(impl Files + AllocGlobal),
    name: &str,
    first: u64,
    last: u64,
) -> (bool, bool, u64) {
    let made = Cell::new(0);
    let refusing = Refusing {
        rt,
        calls: Calls {
            made: &made,
            first,
            last,
        },
    };
    let mut shelf = FolderShelf::new(&refusing);
    let is_stored = shelf.replace(rt.alloc(), name.as_bytes(), NEW.as_bytes()) == Replaced::Stored;
    (is_stored, is_stored == (shelf.faults() == 0), made.get())
}

// Fetches and replaces the file of this name, each with these calls refused: it is whole afterwards, old or new. Answers whether
// a call was refused.
fn refuse(
    rt: &(impl Files + AllocGlobal + Abort),
    name: &str,
    first: u64,
    last: u64,
) -> io::Result<bool> {
    let old = if name == "whole/new" { "" } else { OLD };
    let fetching = fetch(rt, name, old, first, last);
    let (is_stored, is_told, replacing) = replace(rt, name, first, last);
    let whole = if is_stored { NEW } else { old };
    let is_whole = held(rt, name)?.as_slice() == whole.as_bytes();
    assert!(rt; is_told && is_whole, "{name} {first} {last}");
    let is_stray = fs::remove_file(rt, "whole/.pipe-new-0").is_ok();
    assert!(rt; !is_stray || first < last, "{name} {first}");
    Ok(fetching >= first || replacing >= first)
}

// Names, and how many calls the replacement of each makes.
const REPLACED: [(&str, u64); 3] = [("whole/new", 9), ("whole/old", 11), ("whole/link", 13)];

#[test]
fn a_refused_call_leaves_each_file_whole(rt: HostRuntime) -> Result<(), Fail> {
    let _ = fs::remove_dir_all(&rt, "whole");
    fs::create_dir(&rt, "whole")?;
    symlink(&rt, "old", "whole/link")?;
    for (name, calls) in REPLACED {
        for first in 1..=calls + 1 {
            for last in [first, u64::MAX] {
                fs::write(&rt, "whole/old", OLD)?;
                let _ = fs::remove_file(&rt, "whole/new");
                let is_refused = refuse(&rt, name, first, last)?;
                assert_eq!(rt; is_refused, first <= calls, "{name} {first}");
            }
        }
    }
    fs::remove_dir_all(&rt, "whole")?;
    Ok(())
}

#[test]
fn a_device_is_written_in_place(rt: HostRuntime) {
    let mut shelf = FolderShelf::new(&rt);
    for (name, replaced) in [
        ("/dev/null", Replaced::Stored),
        ("/dev/full", Replaced::Failed),
    ] {
        let answer = shelf.replace(rt.alloc(), name.as_bytes(), NEW.as_bytes());
        assert_eq!(rt; answer, replaced, "{name}");
    }
}
