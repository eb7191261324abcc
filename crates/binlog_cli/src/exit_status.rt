//! The exit status.
ghost use Rattle.std.specs.Prelude.{◌≡◌};
ghost use Rattle.binlog_cli.specs.declared.exit_status.Status.TheVariants.{Failed};
ghost use Rattle.binlog_cli.specs.Outputs.{written, unwritten, worse_outcome};
ghost use Rattle.binlog_cli.specs.Statuses.{worse};

use binlog_wire::Error;

/// How a run ended, from the best to the worst. The number is the exit status of the program.
#[derive(Clone, Copy, Debug, PartialEq, Eq, PartialOrd, Ord)]
pub enum Status {
    /// All is well.
    Fine = 0,
    /// A file can't be opened, or isn't a binlog file.
    NotOpened = 1,
    /// Something in a log is damaged.
    Damaged = 2,
    /// Memory, a reader or a writer failed.
    Failed = 3,
    /// The words are no command.
    Usage = 64,
}

impl Status {
    /// The worse one of this status and another.
    pub fn worse(self, other: Status) -> Status
        ensures { result ≡ worse self other }
    {
        self.max(other)
    }
}

/// What a run has come to before its output is finished.
#[derive(Clone, Copy, Debug, PartialEq, Eq)]
pub struct Outcome {
    /// The status of what was read.
    pub status: Status,
    /// Whether the output took all that was to be written.
    pub is_written: bool,
}

impl Outcome {
    /// All was written.
    pub fn written(status: Status) -> Self
        ensures { result ≡ written status }
    {
        Outcome {
            status,
            is_written: true,
        }
    }

    /// The output failed.
    pub fn unwritten(status: Status) -> Self
        ensures { result ≡ unwritten status }
    {
        Outcome {
            status,
            is_written: false,
        }
    }

    /// The worse one of this outcome and another: the worse status, and whether both are written.
    pub fn worse(self, other: Outcome) -> Self
        ensures { result ≡ worse_outcome self other }
    {
        Outcome {
            status: self.status.worse(other.status),
            is_written: self.is_written && other.is_written,
        }
    }
}

/// The status if there is no memory for a command, after its message.
pub fn out_of_memory<E: Eprint>(rt: &E) -> Status
    ensures { result ≡ Failed }
{
    let _ = eprintln!(rt; "binlog: {}", Error::Memory);
    Status::Failed
}
