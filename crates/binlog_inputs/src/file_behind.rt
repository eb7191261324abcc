//! The file behind one that ends with no event behind which another comes.
ghost use Rattle.std.specs.Prelude.{◌≡◌};
ghost use Rattle.binlog_inputs.specs.FollowedEnds.{behind_of};

use binlog_commands::{Continuation, FileGtids, continuation_of};
use binlog_file::{Counted, Error, Retrying};
use binlog_following::FileBehind;
use binlog_rotation::{LogEnd, next_path};
use binlog_visits::visit_counted;
use std::fs;
use std::io::Read;
use std::rt::Files;

/// What the file behind the one of this path is, of which the first `len` bytes are its whole transactions.
pub(crate) fn file_behind<R: Files + AllocGlobal>(rt: &R, path: &str, len: u64) -> FileBehind {
    let Ok(Some(next)) = next_path(rt.alloc(), path, LogEnd::Stop) else {
        return FileBehind::Absent;
    };
    let Ok(Some(list)) = list_of(rt, next.as_str()) else {
        return FileBehind::Absent;
    };
    match gtids_in(rt, path, len) {
        Some(gtids) => behind_of(continuation_of(&gtids, &list)),
        None => FileBehind::Absent,
    }
}

// What the file behind another one is, by what its list says of that.
fn behind_of(continuation: Continuation) -> FileBehind
    ensures { result ≡ behind_of continuation }
{
    match continuation {
        Continuation::Unlisted => FileBehind::Unlisted,
        Continuation::Differs => FileBehind::Differs,
        Continuation::GoesOn => FileBehind::GoesOn,
    }
}

/// What the list of GTIDs of the file of this path says of the file before it, which has these; None as long as it isn't there. A file that
/// can't be read says nothing.
pub(crate) fn continuation_in<R: Files + AllocGlobal>(
    rt: &R,
    path: &str,
    before: &FileGtids,
) -> Option<Continuation> {
    match list_of(rt, path) {
        Ok(Some(list)) => Some(continuation_of(before, &list)),
        Ok(None) => None,
        Err(_) => Some(Continuation::Unlisted),
    }
}

// The list of GTIDs at the front of a file; None as long as it isn't there. The errors are those of visiting a file.
fn list_of<R: Files + AllocGlobal>(rt: &R, path: &str) -> Result<Option<FileGtids>, Error> {
    let Ok(file) = fs::open(rt, path) else {
        return Ok(None);
    };
    let mut list = FileGtids::of_list(rt.alloc());
    let mut input = Counted::new(Retrying::new(file));
    match visit_counted(rt.alloc(), &mut input, &mut list) {
        // A transaction came, in front of which there is a list, or none.
        Err(Error::WrongEventType(_)) => Ok(Some(list)),
        // Behind an error no list is told from none.
        Ok(_) if list.marks.has_list() || list.marks.has_errors => Ok(Some(list)),
        Ok(_) | Err(Error::EndOfInput) => Ok(None),
        Err(error) => Err(error),
    }
}

// The GTIDs in the first bytes of a file; None if it can't be read.
fn gtids_in<R: Files + AllocGlobal>(rt: &R, path: &str, len: u64) -> Option<FileGtids> {
    let Ok(file) = fs::open(rt, path) else {
        return None;
    };
    let mut gtids = FileGtids::of_file(rt.alloc());
    let mut input = Counted::new(Retrying::new(file.take(len)));
    match visit_counted(rt.alloc(), &mut input, &mut gtids) {
        Ok(_) => Some(gtids),
        Err(_) => None,
    }
}
