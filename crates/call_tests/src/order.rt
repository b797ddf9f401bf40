use crate::calls::{Around, call, failing};
use outside::{
    Fetched, MemShelf, MemSink, MemSource, OpenGate, ReadAnswer, Replaced, Shelf, Sink, Source,
    WriteAnswer,
};
use std::alloc::Global;
use std::cell::RefCell;
use std::sync::Wait;
use std::test::Fail;
use std::thread::Threads;

// The calls that were made of streams and files, in order.
#[derive(Drop)]
struct Made {
    calls: RefCell<Vec<u8>>,
}

impl Made {
    fn add(&self, call: &[u8]) {
        if let Ok(mut calls) = self.calls.try_borrow_mut() {
            let _ = calls.extend_from_slice(call);
        }
    }

    // Whether these are the calls.
    fn are(&self, calls: &str) -> bool {
        match self.calls.try_borrow() {
            Ok(made) => made.as_slice() == calls.as_bytes(),
            Err(_) => false,
        }
    }
}

// A stream or files that note each call: a stream by its name, a fetch by `<` and a replacement by `>`, each with the file's
// name.
#[derive(Drop)]
struct Noted<'a, D> {
    device: D,
    name: &'a [u8],
    made: &'a Made,
}

impl<D: Source> Source for Noted<'_, D> {
    ghost left = { λ s. D.left s.device };

    ghost faults = { λ s. D.faults s.device };

    fn read(&mut self, room: &mut [u8]) -> ReadAnswer {
        self.made.add(self.name);
        self.device.read(room)
    }

    fn faults(&self) -> u64 {
        self.device.faults()
    }
}

impl<D: Sink> Sink for Noted<'_, D> {
    ghost written = { λ s. D.written s.device };

    ghost faults = { λ s. D.faults s.device };

    fn write(&mut self, piece: &[u8]) -> WriteAnswer {
        self.made.add(self.name);
        self.device.write(piece)
    }

    fn faults(&self) -> u64 {
        self.device.faults()
    }
}

impl<D: Shelf> Shelf for Noted<'_, D> {
    ghost files = { λ s. D.files s.device };

    ghost faults = { λ s. D.faults s.device };

    ghost wants = { λ s. D.wants s.device };

    fn fetch(&mut self, alloc: Global, name: &[u8]) -> Fetched {
        self.made.add(b" <");
        self.made.add(name);
        self.device.fetch(alloc, name)
    }

    fn replace(&mut self, alloc: Global, name: &[u8], bytes: &[u8]) -> Replaced {
        self.made.add(b" >");
        self.made.add(name);
        self.device.replace(alloc, name, bytes)
    }

    fn faults(&self) -> u64 {
        self.device.faults()
    }
}

// Two files are read and two replaced, input is read and written, and the journal is kept.
const WORDS: [&str; 3] = [
    "(endchar ?) < b | > z ? < a | > y ? console | console",
    "--trace",
    "j",
];

// Input, and the two files that are read. The calls of these numbers fail.
fn with_files(
    alloc: Global,
    [reads, writes, files]: [u32; 3],
) -> Result<Around<MemSource, MemSink, MemShelf>, Fail> {
    let mut around = failing(alloc, b"x\ny\n", 2, [reads, writes, 0, files])?;
    around.shelf.preset(b"a", b"a\n")?;
    around.shelf.preset(b"b", b"b\n")?;
    Ok(around)
}

// The call's status, if it makes these calls, where those of these numbers fail.
fn status_of<R: Threads + Wait + Sync>(
    rt: &R,
    alloc: Global,
    fails: [u32; 3],
    calls: &str,
) -> Result<Option<u8>, Fail> {
    let made = Made {
        calls: RefCell::new(Vec::new(alloc)),
    };
    let Around {
        input,
        output,
        diag,
        shelf,
    } = with_files(alloc, fails)?;
    let mut around = Around {
        input: watched(input, b" read", &made),
        output: watched(output, b" write", &made),
        diag: watched(diag, b" tell", &made),
        shelf: watched(shelf, b"", &made),
    };
    let status = call(rt, alloc, &WORDS, &mut around, &OpenGate)?;
    if made.are(calls) {
        Ok(Some(status))
    } else {
        Ok(None)
    }
}

fn watched<'a, D>(device: D, name: &'a [u8], made: &'a Made) -> Noted<'a, D> {
    Noted { device, name, made }
}

// Files come before input, all input before all output, and then the files by the order of their names, the journal's last.
// After a call that fails nothing follows but what tells it.
#[test]
fn streams_and_files_are_called_in_order(rt: HostRuntime) -> Result<(), Fail> {
    for (fails, status, calls) in [
        ([0, 0, 0], 0, " <b <a read read read write write >y >z >j"),
        ([2, 0, 0], 5, " <b <a read read tell"),
        ([0, 2, 0], 6, " <b <a read read read write write tell"),
        ([0, 0, 2], 7, " <b <a tell"),
        ([0, 0, 3], 7, " <b <a read read read write write >y tell"),
    ] {
        let answer = status_of(&rt, rt.alloc(), fails, calls)?;
        assert_eq!(rt; answer, Some(status), "{calls}");
    }
    Ok(())
}
