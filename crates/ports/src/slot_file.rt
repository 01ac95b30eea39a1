//! One slot as a file: opened where it is first needed, made by its first write.
ghost use Rattle.std.specs.Prelude.{◌≡◌, ◌+◌, ◌<◌, ◌≤◌, ◌++◌, length, IfOk, string_capacity};
ghost use Rattle.ports.specs.declared.slot_file.TheConstants.{MOST_PATH};

use crate::Failed;
use crate::files::{read_some, write_some};
use std::alloc::{AllocError, Global};
use std::fs;
use std::fs::{OpenFile, OpenOptions};
use std::io::{ErrorKind, Seek, SeekFrom};
use std::path::Path;
use std::rt::Files;

/// The greatest length of a path, which is the system's.
pub const MOST_PATH: usize = 4096;

/// A slot's file, whose path is empty as long as no path is bound.
#[derive(Drop)]
pub struct SlotFile<F: Drop> {
    path: String,
    file: Option<F>,
    is_name_kept: bool,
    ghost room: { MOST_PATH ≤ string_capacity path },
}

impl<F: Drop> SlotFile<F> {
    ghost use Rattle.ports.specs.SlotFile.{slot_path};

    /// No path is bound.
    pub fn new(alloc: Global) -> Result<SlotFile<F>, AllocError> {
        Ok(SlotFile {
            path: String::with_capacity(alloc, MOST_PATH)?,
            file: None,
            is_name_kept: false,
        })
    }

    /// Binds a path, for which there is room, so that no memory is taken.
    pub fn bind(&mut self, path: &str, ending: &str)
        requires { length path.now + length ending.now ≤ MOST_PATH }
        ensures { slot_path self.new ≡ path.now ++ ending.now }
    {
        self.file = None;
        self.is_name_kept = false;
        self.path.clear();
        let _ = self.path.push_str(path);
        let _ = self.path.push_str(ending);
    }
}

/// Opens the file, where that is not done. Without `makes` a missing file stays missing.
fn open<R: Files>(rt: &R, slot: &mut SlotFile<R::File>, makes: bool) -> Result<(), Failed> {
    if slot.file.is_some() {
        return Ok(());
    }
    if slot.path.is_empty() {
        return Err(Failed);
    }
    let mut options = OpenOptions::new();
    options.read(true);
    options.write(true);
    options.create(makes);
    match options.open(rt, slot.path.as_str()) {
        Ok(file) => {
            slot.file = Some(file);
            Ok(())
        }
        Err(e) if !makes && e.kind() == ErrorKind::NotFound => Ok(()),
        Err(_) => Err(Failed),
    }
}

/// Goes to a place in a file that is there.
fn seek<F: Seek>(file: &mut Option<F>, pos: u64) -> Result<(), Failed> {
    match file {
        Some(file) => match file.seek(SeekFrom::Start(pos)) {
            Ok(_) => Ok(()),
            Err(_) => Err(Failed),
        },
        None => Err(Failed),
    }
}

/// Whether a file that is there ends at a place or before it.
fn ends_before<F: Seek>(file: &mut Option<F>, pos: u64) -> bool {
    match file {
        Some(file) => matches!(file.seek(SeekFrom::End(0)), Ok(end) if end <= pos),
        None => false,
    }
}

/// Reads the bytes at a place. A missing file is an empty slot. The system goes to no place that is past its longest files, and there no
/// file has bytes.
pub fn read_at<R: Files>(
    rt: &R,
    slot: &mut SlotFile<R::File>,
    pos: u64,
    buf: &mut [u8],
) -> Result<usize, Failed>
    ensures { IfOk result (λ k. k ≤ length buf.old) }
{
    open(rt, slot, false)?;
    if slot.file.is_none() {
        return Ok(0);
    }
    if seek(&mut slot.file, pos).is_err() {
        return if ends_before(&mut slot.file, pos) {
            Ok(0)
        } else {
            Err(Failed)
        };
    }
    read_some(&mut slot.file, buf)
}

/// Writes all of `bytes` at a place. A missing file is made.
pub fn write_at<R: Files>(
    rt: &R,
    slot: &mut SlotFile<R::File>,
    pos: u64,
    bytes: &[u8],
) -> Result<(), Failed> {
    open(rt, slot, true)?;
    seek(&mut slot.file, pos)?;
    let mut done = 0;
    while done < bytes.len() {
        done += write_some(&mut slot.file, &bytes[done..])?;
    }
    Ok(())
}

/// Sees to it that the file is kept, and, once after each bind, that its entry in the directory is.
pub fn sync<R: Files>(rt: &R, slot: &mut SlotFile<R::File>) -> Result<(), Failed> {
    open(rt, slot, false)?;
    let Some(file) = &slot.file else {
        return Ok(());
    };
    if file.sync_all().is_err() {
        return Err(Failed);
    }
    if !slot.is_name_kept {
        sync_directory(rt, slot.path.as_str())?;
        slot.is_name_kept = true;
    }
    Ok(())
}

/// Syncs the directory that a path is in.
fn sync_directory<R: Files>(rt: &R, path: &str) -> Result<(), Failed> {
    let directory = match Path::new(path).parent() {
        Some(parent) if !parent.as_str().is_empty() => parent.as_str(),
        _ => ".",
    };
    match fs::open(rt, directory) {
        Ok(directory) if directory.sync_all().is_ok() => Ok(()),
        _ => Err(Failed),
    }
}
