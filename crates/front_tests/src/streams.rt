//! Streams over readers and writers that fail or are interrupted.
ghost use Rattle.std.specs.Prelude.{◌≡◌, ◌≤◌, IfOk};

use outside::{ReadAnswer, Sink, Source, StdSink, StdSource, WriteAnswer};
use std::io::{self, ErrorKind, Read, Write};

// A device that moves at most two bytes a call. Its second call is interrupted, its third fails, and from
// its fifth on it moves nothing.
#[derive(Drop)]
struct Device {
    calls: u64,
}

impl Device {
    fn next_call(&mut self, at_most: usize) -> io::Result<usize>
        ensures { IfOk result (λ count. count ≤ at_most) }
    {
        self.calls = self.calls.wrapping_add(1);
        match self.calls {
            1 | 4 => Ok(at_most.min(2)),
            2 => Err(io::Error::from(ErrorKind::Interrupted)),
            3 => Err(io::Error::from(ErrorKind::Other)),
            _ => Ok(0),
        }
    }
}

impl Read for Device {
    fn read(&mut self, buf: &mut [u8]) -> io::Result<usize> {
        self.next_call(buf.len())
    }
}

impl Write for Device {
    fn write(&mut self, buf: &[u8]) -> io::Result<usize> {
        self.next_call(buf.len())
    }

    fn flush(&mut self) -> io::Result<()> {
        Ok(())
    }
}

#[test]
fn a_fault_is_told_from_the_end(rt: HostRuntime) {
    let mut source = StdSource::new(Device { calls: 0 });
    let mut room = [b'.'; 4];
    for (answer, faults) in [
        (ReadAnswer::Bytes(2), 0),
        (ReadAnswer::Failed, 1),
        (ReadAnswer::Bytes(2), 1),
        (ReadAnswer::End, 1),
    ] {
        assert_eq!(rt; source.read(&mut room), answer);
        assert_eq!(rt; source.faults(), faults);
    }
}

#[test]
fn what_is_not_taken_is_counted(rt: HostRuntime) {
    let mut sink = StdSink::new(Device { calls: 0 });
    for (answer, faults) in [
        (WriteAnswer::Took(2), 0),
        (WriteAnswer::Failed, 1),
        (WriteAnswer::Took(2), 1),
        (WriteAnswer::Failed, 2),
    ] {
        assert_eq!(rt; sink.write(b"abc"), answer);
        assert_eq!(rt; sink.faults(), faults);
    }
}

// A device whose first calls, as many as are left, are interrupted.
#[derive(Drop)]
struct Interrupted<D> {
    left: u32,
    device: D,
}

impl<D> Interrupted<D> {
    fn interrupt(&mut self) -> io::Result<()>
        ensures { self.new.device ≡ self.old.device }
    {
        if self.left == 0 {
            return Ok(());
        }
        self.left -= 1;
        Err(io::Error::from(ErrorKind::Interrupted))
    }
}

impl<D: Read> Read for Interrupted<D> {
    ghost remaining = { λ d. D.remaining d.device };

    fn read(&mut self, buf: &mut [u8]) -> io::Result<usize> {
        self.interrupt()?;
        self.device.read(buf)
    }
}

impl<D: Write> Write for Interrupted<D> {
    ghost contents = { λ d. D.contents d.device };

    fn write(&mut self, buf: &[u8]) -> io::Result<usize> {
        self.interrupt()?;
        self.device.write(buf)
    }

    fn flush(&mut self) -> io::Result<()> {
        self.device.flush()
    }
}

// How many calls of a device are interrupted, and how often the source or the sink over it fails.
const INTERRUPTED: [(u32, u64); 3] = [(1, 0), (1000, 0), (1001, 1)];

#[test]
fn an_interrupted_read_is_made_once_more_and_loses_nothing(rt: HostRuntime) {
    for (left, faults) in INTERRUPTED {
        let mut source = StdSource::new(Interrupted {
            left,
            device: b"abc".as_slice(),
        });
        let mut room = [b'.'; 4];
        if faults > 0 {
            assert_eq!(rt; source.read(&mut room), ReadAnswer::Failed);
        }
        assert_eq!(rt;
            source.read(&mut room),
            ReadAnswer::Bytes(3),
            "after {left}"
        );
        assert_eq!(rt; room.as_slice(), b"abc.".as_slice());
        assert_eq!(rt; source.read(&mut room), ReadAnswer::End);
        assert_eq!(rt; source.faults(), faults);
    }
}

#[test]
fn an_interrupted_write_is_made_once_more_and_loses_nothing(rt: HostRuntime) {
    for (left, faults) in INTERRUPTED {
        let mut written = Vec::new(rt.alloc());
        let mut sink = StdSink::new(Interrupted {
            left,
            device: &mut written,
        });
        if faults > 0 {
            assert_eq!(rt; sink.write(b"abc"), WriteAnswer::Failed);
        }
        assert_eq!(rt; sink.write(b"abc"), WriteAnswer::Took(3), "after {left}");
        assert_eq!(rt; sink.faults(), faults);
        assert_eq!(rt; written.as_slice(), b"abc".as_slice());
    }
}
