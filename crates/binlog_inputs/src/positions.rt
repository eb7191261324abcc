//! Which positions are taken of each file of a command.
ghost use Rattle.std.specs.Prelude.{◌≡◌};
ghost use Rattle.binlog_inputs.specs.Positions.{in_file, in_followed, positions_of, with_positions};

use binlog_filters::{Conditions, Filter};

/// Positions that are taken: those from a first one on, before another one.
#[derive(Clone, Copy, Debug, PartialEq, Eq)]
pub struct Positions {
    /// The first position, in bytes.
    pub start: u64,
    /// The position before which they are, if there is one.
    pub stop: Option<u64>,
}

impl Positions {
    /// Those that a filter takes.
    pub fn of(filter: &Filter) -> Positions
        ensures { result ≡ positions_of filter.now }
    {
        Positions {
            start: filter.start_position,
            stop: filter.stop_position,
        }
    }

    /// Those that are taken of one of several files, where these are asked for: the start position is one of the first file, and the stop
    /// position one of the last file.
    pub fn in_file(self, is_first: bool, is_last: bool) -> Positions
        ensures { result ≡ in_file self is_first is_last }
    {
        Positions {
            start: if is_first { self.start } else { 0 },
            stop: if is_last { self.stop } else { None },
        }
    }

    /// Those that are taken of a file of a log that is followed, where these are taken of the file that is named. Another file is behind
    /// that one: it is behind the start position, and also behind the stop position if there is one, so that no position in it is taken.
    pub fn in_followed(self, is_named: bool) -> Positions
        ensures { result ≡ in_followed self is_named }
    {
        if is_named {
            return self;
        }
        Positions {
            start: 0,
            stop: match self.stop {
                Some(_) => Some(0),
                None => None,
            },
        }
    }

    /// Has a filter take these positions.
    pub(crate) fn put_into(self, filter: &mut Conditions)
        ensures { filter.new ≡ with_positions filter.old self }
    {
        filter.set_positions(self.start, self.stop);
    }
}
