//! The logs that are undone.
ghost use Rattle.std.specs.Prelude.{◌≡◌, ℕ, List, Option, Some, None, IfOk, IfSome, ⊤};

use binlog_undo_log::{Frames, SeekFrames};
use std::io::Read;
use std::rt::Files;
use std::{fs, io};

/// Opens logs by their names: once for the first pass, and once for the second one.
pub trait Logs {
    /// A log as the first pass reads it.
    type Opened: Read + Drop;

    /// A log as the second pass reads it, by the places of its events.
    type Sought: Frames + Drop;

    /// The bytes of the log of this name, where they are known.
    ghost bytes: { Self → List ℕ → Option (List ℕ) };

    /// These are the frames of the log of this name.
    ghost has_frames: { Self → List ℕ → Self.Sought → Type 0 };

    /// Opens a log.
    ///
    /// # Errors
    ///
    /// Those of opening a file.
    fn open(&self, name: &str) -> io::Result<Self::Opened>
        ensures { IfOk result (λ input. IfSome (bytes self.now name.now) (λ known. Self.Opened.remaining input ≡ Some known)) };

    /// Opens a log whose frames are sought.
    ///
    /// # Errors
    ///
    /// Those of opening a file.
    fn seek(&self, name: &str) -> io::Result<Self::Sought>
        ensures { IfOk result (λ frames. has_frames self.now name.now frames) };
}

/// The files of the machine. What they have isn't known.
#[derive(Drop)]
pub struct HostLogs<'a, R> {
    rt: &'a R,
}

impl<'a, R> HostLogs<'a, R> {
    /// Those that `rt` opens.
    pub fn new(rt: &'a R) -> Self {
        HostLogs { rt }
    }
}

impl<'a, R: Files> Logs for HostLogs<'a, R> {
    type Opened = R::File;

    type Sought = SeekFrames<R::File>;

    ghost bytes = { λ logs name. None };

    ghost has_frames = { λ logs name frames. ⊤ };

    fn open(&self, name: &str) -> io::Result<R::File> {
        fs::open(self.rt, name)
    }

    fn seek(&self, name: &str) -> io::Result<SeekFrames<R::File>> {
        match fs::open(self.rt, name) {
            Ok(file) => Ok(SeekFrames::new(file)),
            Err(error) => Err(error),
        }
    }
}
