//! What is asked of a machine where a log is followed.
ghost use Rattle.std.specs.Prelude.{◌≡◌, ◌==◌, ◌&&◌, ℕ, List, [], ◌++◌, take, Option, IfOk, OnErr, OnOk};
ghost use Rattle.std.specs.Io.{ReadsAtMost};
ghost use Rattle.binlog_rotation.specs.declared.checkpoint.Checkpoint.{Checkpoint};
ghost use Rattle.binlog_following.specs.Files.{named_file};
ghost use Rattle.binlog_following.specs.declared.file_behind.FileBehind.{FileBehind};
ghost use Rattle.binlog_following.specs.declared.log_files.FileId.{FileId};

use crate::file_behind::FileBehind;
use crate::waits::Missing;
use binlog_rotation::{Checkpoint, NamedFile};
use std::alloc::{AllocError, Global};
use std::os::unix::fs::MetadataExt;
use std::rt::Files;
use std::{fs, io};

/// The length of a binlog file's header in bytes.
const FILE_HEADER_LEN: u64 = 4;

/// Where a file begins of which nothing was read.
pub const NEW_FILE: Checkpoint = Checkpoint {
    position: 0,
    crc32: 0,
};

/// Which file there is under a name.
#[derive(Clone, Copy, Debug, PartialEq, Eq)]
pub struct FileId {
    /// Its device.
    pub device: u64,
    /// Its inode.
    pub inode: u64,
    /// How many bytes it has.
    pub len: u64,
}

impl FileId {
    /// Whether both are one file.
    pub fn is_same(self, other: FileId) -> bool
        ensures { result ≡ (self.device == other.device && self.inode == other.inode) }
    {
        self.device == other.device && self.inode == other.inode
    }
}

/// Which file has this name; None if none has, or it can't be told.
pub fn file_id<R: Files>(rt: &R, name: &str) -> Option<FileId> {
    match fs::metadata(rt, name) {
        Ok(metadata) => Some(FileId {
            device: metadata.dev(),
            inode: metadata.ino(),
            len: metadata.len(),
        }),
        Err(_) => None,
    }
}

// What has the name of a file that is read, where `opened` had that name as it was opened, and `named` has it now.
pub(crate) fn named_file(opened: Option<FileId>, named: Option<FileId>) -> NamedFile
    ensures { result ≡ named_file opened named }
{
    match (opened, named) {
        (_, None) => NamedFile::Gone,
        (Some(opened), Some(named)) if opened.is_same(named) => NamedFile::Same(named.len),
        (_, Some(_)) => NamedFile::Other,
    }
}

/// An open file of a log, which may grow while it is read.
pub trait OpenLog {
    /// These bytes were read of it so far.
    ghost has_given: { Self → List ℕ → Type 0 };

    /// Reads some of the next bytes; none where none are there yet.
    ///
    /// # Errors
    ///
    /// Those of reading a file. Nothing is read then.
    fn read_log(&mut self, buf: &mut [u8]) -> io::Result<usize>
        ensures bound { ReadsAtMost result buf.new }
        ensures gives { IfOk result (λ count. (log : List ℕ) → has_given self.old log → has_given self.new (log ++ take count buf.new)) }
        ensures err { OnErr result ((log : List ℕ) → has_given self.old log → has_given self.new log) };

    /// Reads bytes at a place again, which may be other ones by now; what is read next stays the same.
    ///
    /// # Errors
    ///
    /// Those of reading a file.
    fn read_log_at(&self, buf: &mut [u8], place: u64) -> io::Result<usize>
        ensures { ReadsAtMost result buf.new };
}

/// The files of a log that is followed, and its state.
pub trait LogFiles {
    /// An open file.
    type Log: OpenLog + Drop;

    /// It was asked what the file behind the one of a path is, where the events before a place are all of its whole transactions.
    ghost has_found: { Self → List ℕ → Checkpoint → FileBehind → Type 0 };

    /// It was asked which file has a path.
    ghost has_named: { Self → List ℕ → Option FileId → Type 0 };

    /// The state was written, with the file of a path and a place in it.
    ghost has_saved: { Self → List ℕ → Checkpoint → Type 0 };

    /// Opens a file of a log at its start.
    ///
    /// # Errors
    ///
    /// Those of opening a file.
    fn open_log(&self, path: &str) -> io::Result<Self::Log>
        ensures { IfOk result (λ opened. Self.Log.has_given opened []) };

    /// Which file has this name; None if none has.
    fn named(&self, path: &str) -> Option<FileId>
        ensures { has_named self.now path.now result };

    /// What the file behind the one of this path is, which ends with no event that says so. The events before `whole` are all of its
    /// whole transactions.
    fn behind(&self, path: &str, whole: Checkpoint) -> FileBehind
        ensures { has_found self.now path.now whole result };

    /// Whether there is a state that says where to go on.
    fn has_state(&self) -> bool;

    /// The path of the file with which following a log begins, and where in it: what the state says, in the folder of this name; else
    /// this name. The only error is that memory runs out.
    fn start(&self, alloc: Global, name: &str) -> Result<(String, Checkpoint), AllocError>;

    /// Writes where to go on: in the file of this path, from this place on. Without a state nothing is written.
    ///
    /// # Errors
    ///
    /// Those of writing files. The state is then the one before, or this one.
    fn save(&self, path: &str, checkpoint: Checkpoint) -> io::Result<()>
        ensures { OnOk result (has_saved self.now path.now checkpoint) };
}

/// What is missing of a file of which so much was read before: all of that, and at least a file header, has to be there.
pub fn missing_front<S: LogFiles>(files: &S, path: &str, start: Checkpoint) -> Option<Missing> {
    match files.named(path) {
        Some(file) if file.len >= start.position.max(FILE_HEADER_LEN) => None,
        Some(_) if start.position > FILE_HEADER_LEN => Some(Missing::Front),
        _ => Some(Missing::File),
    }
}
