//! The file behind one that ends with no event behind which another comes.
ghost use Rattle.std.specs.Prelude.{◌≡◌};
ghost use Rattle.binlog_following.specs.Files.{is_going_on};

/// What the file with the next number is, where a file ends with no ROTATE or STOP event, as after a crash of the server.
#[derive(Clone, Copy, PartialEq, Eq)]
pub enum FileBehind {
    /// There is none yet.
    Absent,
    /// There is one, and no list of GTIDs tells whether this file is whole.
    Unlisted,
    /// There is one, and its list of GTIDs isn't what this file ends with: transactions of this file are missing.
    Differs,
    /// There is one, and by its list of GTIDs this file has no more transactions: the log goes on there.
    GoesOn,
}

impl FileBehind {
    /// Whether the log goes on there.
    pub fn is_going_on(self) -> bool
        ensures { result ≡ is_going_on self }
    {
        matches!(self, FileBehind::GoesOn)
    }
}
