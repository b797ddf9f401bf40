use crate::fault::Fault;
use crate::streams::StdSink;
use crate::whole::write_whole;
use std::alloc::Global;
use std::fs::{Metadata, OpenFile, OpenOptions, Permissions};
use std::io::{ErrorKind, Write};
use std::path::{Path, PathBuf};
use std::rt::Files;

/// How many names are tried for a new file, before no free one counts as a fault.
const NEW_NAMES: u32 = 1000;

// Puts the bytes in the place of what stands at the path. A file, or a path that has none yet, is replaced whole
// or not at all; a link stays, and the file that it leads to is replaced.
pub(crate) fn replace_file<Rt: Files>(
    rt: &Rt,
    alloc: Global,
    path: &str,
    bytes: &[u8],
) -> Result<(), Fault> {
    match rt.symlink_metadata(path) {
        Ok(found) if found.is_symlink() => replace_linked(rt, alloc, path, bytes),
        Ok(found) => replace_found(rt, alloc, path, &found, bytes),
        Err(error) if error.kind() == ErrorKind::NotFound => {
            rename_over(rt, alloc, path, None, bytes)
        }
        Err(error) => Err(Fault::from(error)),
    }
}

// Replaces what a link leads to. One that leads to nothing is a fault.
fn replace_linked<Rt: Files>(
    rt: &Rt,
    alloc: Global,
    link: &str,
    bytes: &[u8],
) -> Result<(), Fault> {
    let found = rt.metadata(link)?;
    if !found.is_file() {
        return replace_found(rt, alloc, link, &found, bytes);
    }
    let path = rt.canonicalize(alloc, link)?;
    replace_found(rt, alloc, path.as_str(), &found, bytes)
}

// Replaces a file that is there. A device, or a pipe with a name, is written in place.
fn replace_found<Rt: Files>(
    rt: &Rt,
    alloc: Global,
    path: &str,
    found: &Metadata,
    bytes: &[u8],
) -> Result<(), Fault> {
    if found.is_dir() {
        return Err(Fault::Device);
    }
    let file = OpenOptions::new().write(true).open(rt, path)?;
    if found.is_file() {
        // That it could be opened is all that it is opened for.
        drop(file);
        return rename_over(rt, alloc, path, Some(found.permissions()), bytes);
    }
    write_whole(&mut StdSink::new(file), bytes)
}

// Writes a new file beside the path and renames it over the path. Where a call fails before the new file has the
// name, the new file is removed and what stood at the path is as it was.
fn rename_over<Rt: Files>(
    rt: &Rt,
    alloc: Global,
    path: &str,
    permissions: Option<Permissions>,
    bytes: &[u8],
) -> Result<(), Fault> {
    let (new_path, file) = create_beside(rt, alloc, path)?;
    if let Err(fault) = fill_and_rename(rt, file, new_path.as_str(), path, permissions, bytes) {
        let _ = rt.remove_file(new_path.as_str());
        return Err(fault);
    }
    // The file is new and whole already, so what comes of this is no fault.
    let _ = sync_folder(rt, path);
    Ok(())
}

// A new file in the folder of the path, and where it is.
fn create_beside<Rt: Files>(
    rt: &Rt,
    alloc: Global,
    path: &str,
) -> Result<(PathBuf, Rt::File), Fault> {
    for number in 0..NEW_NAMES {
        let name = format!(in alloc; ".pipe-new-{number}")?;
        let new_path = Path::new(path).with_file_name(alloc, name.as_str())?;
        match OpenOptions::new()
            .write(true)
            .create_new(true)
            .open(rt, new_path.as_str())
        {
            Ok(file) => return Ok((new_path, file)),
            Err(error) if error.kind() == ErrorKind::AlreadyExists => {}
            Err(error) => return Err(Fault::from(error)),
        }
    }
    Err(Fault::Device)
}

// Gives the new file its permissions, before it has a byte, and its bytes, and then its name.
fn fill_and_rename<Rt: Files>(
    rt: &Rt,
    file: Rt::File,
    new_path: &str,
    path: &str,
    permissions: Option<Permissions>,
    bytes: &[u8],
) -> Result<(), Fault> {
    fill(file, permissions, bytes)?;
    rt.rename(new_path, path)?;
    Ok(())
}

// Writes the file whole, and out to its disk.
fn fill<F: Write + OpenFile + Drop>(
    file: F,
    permissions: Option<Permissions>,
    bytes: &[u8],
) -> Result<(), Fault> {
    if let Some(permissions) = permissions {
        file.set_permissions(permissions)?;
    }
    let mut sink = StdSink::new(file);
    write_whole(&mut sink, bytes)?;
    sink.into_inner().sync_all()?;
    Ok(())
}

// Writes out to its disk that the folder of the path has another file at the name.
fn sync_folder<Rt: Files>(rt: &Rt, path: &str) -> Result<(), Fault> {
    let folder = match Path::new(path).parent() {
        Some(folder) if !folder.as_str().is_empty() => folder,
        _ => Path::new("."),
    };
    OpenOptions::new().read(true).open(rt, folder)?.sync_all()?;
    Ok(())
}
