//! Where the files of a command come from.
ghost use Rattle.std.specs.Prelude.{◌≡◌, ℕ, List, Option, None, IfOk, ⊤};
ghost use Rattle.binlog_commands.specs.declared.continuation.Continuation.{Continuation};
ghost use Rattle.binlog_commands.specs.declared.file_gtids.FileGtids.{FileGtids};

use crate::file_behind::{continuation_in, file_behind};
use binlog_commands::{Continuation, FileGtids};
use binlog_following::{
    FileBehind, FileId, LogFiles, NEW_FILE, OpenLog, Pauses, StateFile, file_id,
};
use binlog_rotation::Checkpoint;
use std::alloc::{AllocError, Global};
use std::fs::File;
use std::io::Read;
use std::os::unix::fs::FileExt;
use std::rt::Files;
use std::{fs, io};

/// Opens files by their names; `-` is standard input.
pub trait Inputs: LogFiles {
    /// An open file.
    type Opened: Read + Drop;

    /// The bytes of the file of this name, where they are known.
    ghost bytes: { Self → List ℕ → Option (List ℕ) };

    /// It was asked what the list of GTIDs of the file of this name says of the file before it, which has these.
    ghost has_told: { Self → List ℕ → FileGtids → Option Continuation → Type 0 };

    /// Opens a file.
    ///
    /// # Errors
    ///
    /// Those of opening a file.
    fn open(&self, name: &str) -> io::Result<Self::Opened>
        ensures { IfOk result (λ input. Self.Opened.remaining input ≡ bytes self.now name.now) };

    /// The size of a file in bytes, if it is known.
    fn size(&self, name: &str) -> Option<u64>;

    /// Whether the reader of a file that is followed pauses.
    fn pauses(&self) -> &Pauses;

    /// What the list of GTIDs of the file of this path says of the file before it, which has these; None as long as it isn't there.
    fn continuation_in(&self, path: &str, before: &FileGtids) -> Option<Continuation>
        ensures { has_told self.now path.now before.now result };
}

/// The files of the machine. What they have isn't known.
#[derive(Drop)]
pub struct HostInputs<'a, R> {
    rt: &'a R,
    state: Option<StateFile<'a, R>>,
    pauses: Pauses,
}

impl<'a, R> HostInputs<'a, R> {
    /// Those that `rt` opens, and a state, if one is asked for.
    pub fn new(rt: &'a R, state: Option<StateFile<'a, R>>) -> Self {
        HostInputs {
            rt,
            state,
            pauses: Pauses::new(),
        }
    }
}

impl<'a, R: Files<File = File> + Input + AllocGlobal> Inputs for HostInputs<'a, R> {
    type Opened = HostInput<R::Reader, R::File>;

    ghost bytes = { λ inputs name. None };

    ghost has_told = { λ inputs path before told. ⊤ };

    fn open(&self, name: &str) -> io::Result<HostInput<R::Reader, R::File>> {
        if name == "-" {
            return Ok(HostInput::Standard(self.rt.reader()));
        }
        match fs::open(self.rt, name) {
            Ok(file) => Ok(HostInput::File(file)),
            Err(error) => Err(error),
        }
    }

    fn size(&self, name: &str) -> Option<u64> {
        if name == "-" {
            return None;
        }
        match fs::metadata(self.rt, name) {
            Ok(metadata) => Some(metadata.len()),
            Err(_) => None,
        }
    }

    fn pauses(&self) -> &Pauses {
        &self.pauses
    }

    fn continuation_in(&self, path: &str, before: &FileGtids) -> Option<Continuation> {
        continuation_in(self.rt, path, before)
    }
}

impl<'a, R: Files<File = File> + Input + AllocGlobal> LogFiles for HostInputs<'a, R> {
    type Log = HostLog<R::File>;

    ghost has_found = { λ inputs path whole behind. ⊤ };

    ghost has_named = { λ inputs path file. ⊤ };

    ghost has_saved = { λ inputs path place. ⊤ };

    fn open_log(&self, path: &str) -> io::Result<HostLog<R::File>> {
        match fs::open(self.rt, path) {
            Ok(file) => Ok(HostLog { file }),
            Err(error) => Err(error),
        }
    }

    fn named(&self, path: &str) -> Option<FileId> {
        file_id(self.rt, path)
    }

    fn behind(&self, path: &str, whole: Checkpoint) -> FileBehind {
        file_behind(self.rt, path, whole.position)
    }

    fn has_state(&self) -> bool {
        self.state.is_some()
    }

    fn start(&self, alloc: Global, name: &str) -> Result<(String, Checkpoint), AllocError> {
        match &self.state {
            Some(state) => state.start(alloc, name),
            None => Ok((format!(in alloc; "{name}")?, NEW_FILE)),
        }
    }

    fn save(&self, path: &str, checkpoint: Checkpoint) -> io::Result<()> {
        match &self.state {
            Some(state) => state.save(path, checkpoint),
            None => Ok(()),
        }
    }
}

/// Standard input, or a file.
#[derive(Drop)]
pub enum HostInput<S, F> {
    /// Standard input.
    Standard(S),
    /// A file.
    File(F),
}

impl<S: Read, F: Read> Read for HostInput<S, F> {
    fn read(&mut self, buf: &mut [u8]) -> io::Result<usize> {
        match self {
            HostInput::Standard(input) => input.read(buf),
            HostInput::File(file) => file.read(buf),
        }
    }
}

/// A file of the machine. What is read of it isn't known.
#[derive(Drop)]
pub struct HostLog<F> {
    file: F,
}

impl<F: Read + FileExt> OpenLog for HostLog<F> {
    ghost has_given = { λ log bytes. ⊤ };

    fn read_log(&mut self, buf: &mut [u8]) -> io::Result<usize> {
        self.file.read(buf)
    }

    fn read_log_at(&self, buf: &mut [u8], place: u64) -> io::Result<usize> {
        self.file.read_at(buf, place)
    }
}
