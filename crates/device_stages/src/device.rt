use crate::absent::Absent;
use crate::hole::Holes;
use crate::literal::Literals;
use crate::sink::sink;
use crate::source::source;
use pipe_model::{Kind, NoMemory, Seen, Strand, Want};
use stage_steps::{
    Copies, Each, Listed, Reply, Stage, TextLines, line_shown, lines_ahead, put_line, show_line,
};
use std::alloc::Global;

/// A stage of a device.
#[derive(Drop)]
pub enum DeviceStage {
    /// CONSOLE, first in its pipeline, and `<` of a file that is there.
    Source(Listed<TextLines>),
    /// `<` of a file that isn't there.
    Absent(Absent),
    /// CONSOLE, not first in its pipeline, and `>`.
    Sink(Listed<Each<Copies>>),
    Literal(Listed<Literals>),
    Hole(Listed<Each<Holes>>),
}

impl DeviceStage {
    ghost use Rattle.std.specs.Prelude.{◌≡◌, true, [], IfOk};
    ghost use Rattle.device_stages.specs.Device.{is_device, DeviceStands};

    /// The stage of a strand, before its first event.
    pub fn new(alloc: Global, strand: &Strand) -> Result<DeviceStage, NoMemory>
        requires { is_device strand.now.kind ≡ true }
        ensures { IfOk result (λ stage. DeviceStands stage strand.now []) }
    {
        let outputs = strand.ports.has_output.as_slice();
        match &strand.kind {
            Kind::ConsoleIn { bytes } => Ok(DeviceStage::Source(source(alloc, bytes, outputs)?)),
            Kind::ConsoleOut => Ok(DeviceStage::Sink(sink(alloc, outputs)?)),
            Kind::FileIn {
                bytes: Some(bytes),
                ..
            } => Ok(DeviceStage::Source(source(alloc, bytes, outputs)?)),
            Kind::FileIn { bytes: None, .. } => Ok(DeviceStage::Absent(Absent {})),
            Kind::FileOut { .. } => Ok(DeviceStage::Sink(sink(alloc, outputs)?)),
            Kind::Literal { text } => Ok(DeviceStage::Literal(Literals::stage(
                alloc, text, outputs,
            )?)),
            Kind::Hole => Ok(DeviceStage::Hole(Holes::stage(alloc, outputs)?)),
            _ => unreachable!(),
        }
    }
}

impl Stage for DeviceStage {
    ghost use Rattle.std.specs.Prelude.{IfOk};
    ghost use Rattle.stage_steps.specs.Coroutine.{Resumes};
    ghost use Rattle.device_stages.specs.Device.{DeviceStands, device_showing, device_ahead};

    ghost stands = { DeviceStands };

    ghost showing = { device_showing };

    ghost ahead = { device_ahead };

    fn first(&self) -> Want {
        match self {
            DeviceStage::Source(stage) => stage.first(),
            DeviceStage::Absent(stage) => stage.first(),
            DeviceStage::Sink(stage) => stage.first(),
            DeviceStage::Literal(stage) => stage.first(),
            DeviceStage::Hole(stage) => stage.first(),
        }
    }

    // It may be told any event; what isn't answered ends it.
    fn resume(&mut self, alloc: Global, seen: Seen, bytes: &[u8]) -> Result<Want, NoMemory>
        ensures { IfOk result (λ asked. Resumes DeviceStands self.old self.new seen bytes.now asked) }
    {
        match self {
            DeviceStage::Source(stage) => stage.resume(alloc, seen, bytes),
            DeviceStage::Absent(stage) => stage.resume(alloc, seen, bytes),
            DeviceStage::Sink(stage) => stage.resume(alloc, seen, bytes),
            DeviceStage::Literal(stage) => stage.resume(alloc, seen, bytes),
            DeviceStage::Hole(stage) => stage.resume(alloc, seen, bytes),
        }
    }

    #[inline(never)]
    fn see(&mut self, alloc: Global, bytes: &[u8], asked: &mut Want) -> Result<Reply, NoMemory> {
        match self {
            DeviceStage::Source(stage) => stage.see(alloc, bytes, asked),
            DeviceStage::Absent(stage) => stage.see(alloc, bytes, asked),
            DeviceStage::Sink(stage) => stage.see(alloc, bytes, asked),
            DeviceStage::Literal(stage) => stage.see(alloc, bytes, asked),
            DeviceStage::Hole(stage) => stage.see(alloc, bytes, asked),
        }
    }

    #[inline(never)]
    fn put(&mut self, alloc: Global, o: u16, asked: &mut Want) -> Result<(), NoMemory> {
        match self {
            DeviceStage::Source(stage) => put_line(stage, alloc, o, asked),
            DeviceStage::Absent(stage) => stage.put(alloc, o, asked),
            DeviceStage::Sink(stage) => stage.put(alloc, o, asked),
            DeviceStage::Literal(stage) => stage.put(alloc, o, asked),
            DeviceStage::Hole(stage) => stage.put(alloc, o, asked),
        }
    }

    // Only a source shows what it writes.
    #[inline(always)]
    fn show(&mut self, o: u16) -> bool {
        match self {
            DeviceStage::Source(stage) => show_line(stage, o),
            _ => false,
        }
    }

    #[inline(always)]
    fn shown(&self) -> &[u8] {
        match self {
            DeviceStage::Source(stage) => line_shown(stage),
            _ => &[],
        }
    }

    #[inline(always)]
    fn text_ahead(&self) -> &[u8] {
        match self {
            DeviceStage::Source(stage) => lines_ahead(stage),
            _ => &[],
        }
    }

    // A sink keeps what it takes, so it has to be told. The others take no record.
    #[inline(always)]
    fn passes(&mut self) -> bool {
        match self {
            DeviceStage::Literal(stage) => stage.passes(),
            DeviceStage::Hole(stage) => stage.passes(),
            _ => false,
        }
    }

    fn looks(&self) -> bool {
        match self {
            DeviceStage::Source(stage) => stage.looks(),
            DeviceStage::Absent(stage) => stage.looks(),
            DeviceStage::Sink(stage) => stage.looks(),
            DeviceStage::Literal(stage) => stage.looks(),
            DeviceStage::Hole(stage) => stage.looks(),
        }
    }

    fn kept(&self) -> &[u8] {
        match self {
            DeviceStage::Source(stage) => stage.kept(),
            DeviceStage::Absent(stage) => stage.kept(),
            DeviceStage::Sink(stage) => stage.kept(),
            DeviceStage::Literal(stage) => stage.kept(),
            DeviceStage::Hole(stage) => stage.kept(),
        }
    }
}
