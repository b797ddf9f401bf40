use crate::fault::Fault;
use crate::streams::StdSource;
use crate::whole::read_whole;
use pipe_model::Rec;
use std::alloc::Global;
use std::fs::{OpenFile, OpenOptions};
use std::io::{self, ErrorKind, Read};
use std::rt::Files;

// The bytes of the file at this path, or none where nothing stands there. The file is opened for reading alone.
pub(crate) fn fetch_file<Rt: Files>(
    rt: &Rt,
    alloc: Global,
    path: &str,
) -> Result<Option<Rec>, Fault> {
    match OpenOptions::new().read(true).open(rt, path) {
        Ok(file) => Ok(Some(read_file(alloc, file)?)),
        Err(error) if is_missing(&error) => fetch_missing(rt, path),
        Err(error) => Err(Fault::from(error)),
    }
}

// What a path that leads to no file has: nothing, or a link that leads to nothing, which is a fault.
fn fetch_missing<Rt: Files>(rt: &Rt, path: &str) -> Result<Option<Rec>, Fault> {
    match rt.symlink_metadata(path) {
        Ok(_) => Err(Fault::Device),
        Err(error) if is_missing(&error) => Ok(None),
        Err(error) => Err(Fault::from(error)),
    }
}

// The bytes of an open file.
fn read_file<F: Read + OpenFile + Drop>(alloc: Global, file: F) -> Result<Rec, Fault> {
    let metadata = file.metadata()?;
    if metadata.is_dir() {
        return Err(Fault::Device);
    }
    let mut source = StdSource::new(file);
    let bytes = read_whole(alloc, &mut source, metadata.len())?;
    Ok(Rec::shared(alloc, bytes)?)
}

// Whether nothing has the path: it isn't in its folder, the folder isn't there, or is no folder.
fn is_missing(error: &io::Error) -> bool {
    let kind = error.kind();
    kind == ErrorKind::NotFound || kind == ErrorKind::NotADirectory
}
