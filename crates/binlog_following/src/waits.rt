//! Waiting for more of a log.
ghost use Rattle.std.specs.Prelude.{◌≡◌, ◌==◌, ◌+◌, ◌-◌, ◌%◌, ◌^◌, min, nat_le};
ghost use Rattle.binlog_following.specs.Files.{missing_of, time_to_look, time_to_ask};

use crate::file_behind::FileBehind;
use binlog_rotation::NamedFile;
use std::thread;
use std::time::{Clock, Duration};

/// The time between two looks, in milliseconds: in the first second behind something new, and at rest.
const SOON: u64 = 5;

const AT_REST: u64 = 50;

/// How long there is nothing new before the state is written, in milliseconds.
const IDLE: u64 = 50;

/// How long there is nothing new before a message, in milliseconds.
const LONG: u64 = 10_000;

/// A second and a minute, in milliseconds.
const SECOND: u64 = 1_000;

const MINUTE: u64 = 60_000;

/// The time before a file with a fault is read again, in milliseconds.
const DOUBT: u64 = 1_000;

/// What is missing, where it is waited for.
#[derive(Clone, Copy, Debug, PartialEq, Eq)]
pub enum Missing {
    /// The name of the file that is read.
    Name,
    /// Bytes of a file that were read before.
    Front,
    /// A list of GTIDs that tells whether this file is whole, where there is a next one.
    GtidList,
    /// The GTIDs that the list in the next file has, in the place of other ones.
    Transactions,
    /// The rest of an event or of a transaction.
    Rest,
    /// The file, or its file header.
    File,
    /// The list of GTIDs at the front of a file, where the file before it has one.
    List,
    /// The list of GTIDs with which the file before ends, in the place of another one.
    SameList,
}

impl Missing {
    // The message.
    fn message(self) -> &'static str {
        match self {
            Missing::Name => "the file isn't there",
            Missing::Front => "the file is shorter than what was read of it before",
            Missing::GtidList =>
                "the next file is there, but no list of GTIDs tells whether this one is whole",
            Missing::Transactions =>
                "the GTIDs that are there so far aren't those in the next file's list of GTIDs",
            Missing::Rest => "the rest of a transaction isn't there yet",
            Missing::File => "the next file isn't there yet",
            Missing::List => "the next file's list of GTIDs isn't there yet",
            Missing::SameList =>
                "the next file's list of GTIDs has other ones than the file before ends with",
        }
    }
}

/// What is missing of a file, where this has its name, whether it is found to be the one that was read before, what is behind it, and
/// whether some of it wasn't given on.
pub(crate) fn missing_of(
    file: NamedFile,
    is_found: bool,
    behind: FileBehind,
    has_rest: bool,
) -> Option<Missing>
    ensures { result ≡ missing_of file is_found behind has_rest }
{
    match (file, behind) {
        (NamedFile::Gone, _) => Some(Missing::Name),
        _ if !is_found => Some(Missing::Front),
        (_, FileBehind::Unlisted) => Some(Missing::GtidList),
        (_, FileBehind::Differs) => Some(Missing::Transactions),
        _ if has_rest => Some(Missing::Rest),
        _ => None,
    }
}

/// How long there is nothing new.
#[derive(Clone, Copy, Debug)]
pub struct Waits {
    // In milliseconds, by the times between the looks.
    waited: u64,
}

impl Waits {
    /// Something new came.
    pub fn new() -> Self
        ensures { result.waited ≡ 0 }
    {
        Waits { waited: 0 }
    }

    /// Whether there is nothing new for a while, so that there is time for other work.
    pub(crate) fn is_idle(self) -> bool
        ensures { result ≡ nat_le 50 self.waited }
    {
        self.waited >= IDLE
    }

    /// Whether this is one look of each second without anything new.
    pub(crate) fn is_second(self) -> bool
        ensures { result ≡ (self.waited % 1000 == 50) }
    {
        self.waited % SECOND == AT_REST
    }

    /// Whether it is to be found out what the file behind this one is, which was this: each second as long as there is none, and else
    /// each minute.
    pub(crate) fn is_time_to_ask(self, behind: FileBehind) -> bool
        ensures { result ≡ (self.waited % time_to_ask behind == 0) }
    {
        match behind {
            FileBehind::Absent => self.waited % SECOND == 0,
            FileBehind::Unlisted | FileBehind::Differs | FileBehind::GoesOn => self.waited % MINUTE
                == 0,
        }
    }

    /// Waits for a moment. After ten seconds there is a message, if something is missing.
    pub fn wait<R: Clock + Eprint>(&mut self, rt: &R, path: &str, missing: Option<Missing>)
        ensures { self.new.waited ≡ min (self.old.waited + time_to_look self.old.waited) (2 ^ 64 - 1) }
    {
        let time = self.time_to_look();
        thread::sleep(rt, Duration::from_millis(time));
        self.waited = self.waited.saturating_add(time);
        if self.waited == LONG {
            if let Some(missing) = missing {
                let message = missing.message();
                let _ = eprintln!(rt; "binlog: {path}: {message}");
            }
        }
    }

    // How long it is to the next look, in milliseconds.
    fn time_to_look(self) -> u64
        ensures { result ≡ time_to_look self.waited }
    {
        if self.waited < SECOND { SOON } else { AT_REST }
    }
}

/// Waits until bytes of a file are there that were written behind later ones.
pub(crate) fn wait_for_order<R: Clock>(rt: &R) {
    thread::sleep(rt, Duration::from_millis(DOUBT));
}
