//! Standard output, where it is a file.

use crate::log_files::{FileId, file_id};
use binlog_rotation::WrittenFile;
use std::fs::{File, OpenFile, OpenOptions};
use std::rt::Files;
use std::{fs, io};

/// The name of standard output, by which it is found whether that is a file.
const OUTPUT: &str = "/dev/stdout";

/// Standard output, if it is a file: which one, and its length; zeros if it isn't one.
pub(crate) fn written_output<R: Files>(rt: &R) -> WrittenFile {
    match fs::metadata(rt, OUTPUT) {
        Ok(metadata) if metadata.is_file() => written_file(file_id(rt, OUTPUT)),
        _ => written_file(None),
    }
}

// The same of a file; zeros without one.
fn written_file(file: Option<FileId>) -> WrittenFile {
    match file {
        Some(file) => WrittenFile {
            device: file.device,
            inode: file.inode,
            len: file.len,
        },
        None => WrittenFile {
            device: 0,
            inode: 0,
            len: 0,
        },
    }
}

/// Cuts standard output back to the length that a state has of it, if it is that file, and is longer. The result is how many bytes it
/// has less, if it is that file, and is shorter.
pub(crate) fn cut_output<R: Files<File = File>>(rt: &R, before: WrittenFile) -> io::Result<u64> {
    let now = written_output(rt);
    if !is_same_file(before, now) {
        return Ok(0);
    }
    if now.len > before.len {
        open_output(rt)?.set_len(before.len)?;
    }
    Ok(before.len.saturating_sub(now.len))
}

// Whether both are one file, of any length.
fn is_same_file(before: WrittenFile, now: WrittenFile) -> bool {
    now.inode != 0 && now.device == before.device && now.inode == before.inode
}

/// Waits until standard output is on its device, if it is a file.
pub(crate) fn sync_output<R: Files<File = File>>(rt: &R, output: WrittenFile) -> io::Result<()> {
    if output.inode == 0 {
        return Ok(());
    }
    open_output(rt)?.sync_all()
}

fn open_output<R: Files<File = File>>(rt: &R) -> io::Result<File> {
    let mut options = OpenOptions::new();
    options.write(true);
    options.open(rt, OUTPUT)
}
