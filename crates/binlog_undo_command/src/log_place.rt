//! Where a log is among those that are undone.
ghost use Rattle.std.specs.Prelude.{◌≡◌, ◌<◌};
ghost use Rattle.binlog_undo_command.specs.LogPlaces.{place_at, start_at, stop_at};

/// Where a log is among those that are undone. The start position is one of the first log, and the stop position of the last one.
#[derive(Clone, Copy, Debug, PartialEq, Eq)]
pub struct LogPlace {
    /// Whether it is the first one.
    pub is_first: bool,
    /// Whether it is the last one.
    pub is_last: bool,
}

impl LogPlace {
    /// That of the log with this index, from 0, of so many logs.
    pub(crate) fn at(count: usize, index: usize) -> LogPlace
        requires { index < count }
        ensures { result ≡ place_at count index }
    {
        LogPlace {
            is_first: index == 0,
            is_last: index + 1 == count,
        }
    }

    /// The position in the log at which the transactions begin that are undone.
    pub(crate) fn start(self, position: u64) -> u64
        ensures { result ≡ start_at self position }
    {
        if self.is_first { position } else { 0 }
    }

    /// The position in the log in front of which they begin, if there is one.
    pub(crate) fn stop(self, position: Option<u64>) -> Option<u64>
        ensures { result ≡ stop_at self position }
    {
        if self.is_last { position } else { None }
    }
}
