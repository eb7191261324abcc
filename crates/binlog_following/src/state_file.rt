//! The state file of a log that is followed.
ghost use Rattle.std.specs.Prelude.{◌≡◌, ◌≤◌, length, IfOk};

use crate::log_files::NEW_FILE;
use crate::paths::{folder_of, name_of};
use crate::state_error::StateFileError;
use crate::written_output::{cut_output, sync_output, written_output};
use binlog_rotation::{Checkpoint, FollowState, StateError};
use std::alloc::{AllocError, Global};
use std::fs::{File, OpenFile, TryLockError};
use std::io::{ErrorKind, Read, Write};
use std::rt::Files;
use std::{fs, io, str};

/// The most bytes of the text of a state: a name of a file has at most 255.
const TEXT_LEN: usize = 1024;

/// The state file of a log that is followed. It is locked as long as this value is there.
#[derive(Drop)]
pub struct StateFile<'a, R> {
    rt: &'a R,
    // The name of the state file, and the name under which a new one is written.
    path: &'a str,
    draft: String,
    // Whether output and state have to be on their devices before following goes on.
    is_synced: bool,
    // The name of the log's file with which following begins, and where in it; None if there was no state.
    start: Option<(String, Checkpoint)>,
    // How many bytes the output lacks.
    missing: u64,
    // The locked file.
    _lock: File,
}

impl<'a, R: Files<File = File> + AllocGlobal> StateFile<'a, R> {
    /// Locks a state file and reads it, if it is there. Output that is the file of which it has the length is cut back to that.
    ///
    /// # Errors
    ///
    /// Those of [`StateFileError`], the first one that comes, in this order: memory, the lock, the state, the output. Nothing has changed
    /// then but that `STATE.lock` may be there.
    pub fn open(rt: &'a R, path: &'a str, is_synced: bool) -> Result<Self, StateFileError> {
        let draft = format!(in rt.alloc(); "{path}.new")?;
        let lock = lock(rt, path)?;
        let (start, missing) = match read_state(rt, path)? {
            Some((state, file)) => match cut_output(rt, state.output) {
                Ok(missing) => (Some((file, state.checkpoint)), missing),
                Err(error) => return Err(StateFileError::Output(error)),
            },
            None => (None, 0),
        };
        Ok(StateFile {
            rt,
            path,
            draft,
            is_synced,
            start,
            missing,
            _lock: lock,
        })
    }

    /// How many bytes standard output has less than when the state was written. They don't come again. 0 if it is another file or none,
    /// and if there was no state.
    pub fn missing(&self) -> u64 {
        self.missing
    }

    /// The path of the file with which following begins, and where in it: the file that the state names, in the folder of this name;
    /// without a state this name.
    pub fn start(&self, alloc: Global, name: &str) -> Result<(String, Checkpoint), AllocError> {
        match &self.start {
            Some((file, checkpoint)) => match folder_of(name) {
                Some(folder) => Ok((format!(in alloc; "{folder}/{file}")?, *checkpoint)),
                None => Ok((format!(in alloc; "{file}")?, *checkpoint)),
            },
            None => Ok((format!(in alloc; "{name}")?, NEW_FILE)),
        }
    }

    /// Writes where to go on: in the file of this path, from this place on. The new file gets the name of the state once it is whole.
    ///
    /// # Errors
    ///
    /// Those of writing files, and [`ErrorKind::OutOfMemory`] if an allocation failed. The state is then the one before; only where its
    /// folder isn't yet on the device it is this one.
    pub fn save(&self, path: &str, checkpoint: Checkpoint) -> io::Result<()> {
        let rt = self.rt;
        let output = written_output(rt);
        let state = FollowState { checkpoint, output };
        let Ok(text) = state.text(rt.alloc(), name_of(path)) else {
            return Err(io::Error::from(ErrorKind::OutOfMemory));
        };
        if self.is_synced {
            sync_output(rt, output)?;
        }
        self.write_draft(text.as_slice())?;
        fs::rename(rt, self.draft.as_str(), self.path)?;
        if self.is_synced {
            sync_folder(rt, self.path)?;
        }
        Ok(())
    }

    // Writes the new state under its own name.
    fn write_draft(&self, text: &[u8]) -> io::Result<()> {
        let mut draft = fs::create(self.rt, self.draft.as_str())?;
        draft.write_all(text)?;
        if self.is_synced {
            draft.sync_all()?;
        }
        Ok(())
    }
}

// Waits until the folder of a path is on its device.
fn sync_folder<R: Files<File = File>>(rt: &R, path: &str) -> io::Result<()> {
    match folder_of(path) {
        None => fs::open(rt, ".")?.sync_all(),
        Some("") => fs::open(rt, "/")?.sync_all(),
        Some(folder) => fs::open(rt, folder)?.sync_all(),
    }
}

// Locks the file beside a state file, which stays there: the state file itself is another one each time.
fn lock<R: Files<File = File> + AllocGlobal>(rt: &R, path: &str) -> Result<File, StateFileError> {
    let name = format!(in rt.alloc(); "{path}.lock")?;
    let file = match fs::create(rt, name.as_str()) {
        Ok(file) => file,
        Err(error) => return Err(StateFileError::Lock(error)),
    };
    match file.try_lock() {
        Ok(()) => Ok(file),
        Err(TryLockError::WouldBlock) => Err(StateFileError::Locked),
        Err(TryLockError::Error(error)) => Err(StateFileError::Lock(error)),
    }
}

// The state in a file of this name, and the name of the log's file; None if it isn't there.
fn read_state<R: Files + AllocGlobal>(
    rt: &R,
    path: &str,
) -> Result<Option<(FollowState, String)>, StateFileError> {
    let mut file = match fs::open(rt, path) {
        Ok(file) => file,
        Err(error) if error.kind() == ErrorKind::NotFound => return Ok(None),
        Err(error) => return Err(StateFileError::Reader(error)),
    };
    let mut text = [0; TEXT_LEN];
    match read_text(&mut file, &mut text) {
        Ok(len) => parsed(rt.alloc(), &text[..len]),
        Err(error) => Err(StateFileError::Reader(error)),
    }
}

// The state of this text, and the name of the log's file.
fn parsed(alloc: Global, text: &[u8]) -> Result<Option<(FollowState, String)>, StateFileError> {
    let Ok(text) = str::from_utf8(text) else {
        return Err(StateFileError::Text(StateError::Invalid));
    };
    match FollowState::parse(alloc, text) {
        Ok((state, file)) => Ok(Some((state, format!(in alloc; "{file}")?))),
        Err(error) => Err(StateFileError::Text(error)),
    }
}

// Reads as many bytes as there are and have room, and says how many.
fn read_text<I: Read>(input: &mut I, text: &mut [u8]) -> io::Result<usize>
    ensures { IfOk result (λ len. len ≤ length text.new) }
{
    let mut len = 0;
    'pieces: while len < text.len() {
        let count = input.read(&mut text[len..])?;
        if count == 0 {
            break;
        }
        len += count;
    }
    Ok(len)
}
