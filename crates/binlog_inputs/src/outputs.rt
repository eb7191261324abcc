//! The outcome of what a command writes.
ghost use Rattle.std.specs.Prelude.{◌≡◌};
ghost use Rattle.binlog_inputs.specs.Outputs.{outcome_of_lines, outcome_of_text};

use binlog_cli::{Outcome, Status, out_of_memory};
use binlog_file::Error;
use std::io;

/// The outcome of writing lines with this answer: the output failed, or there is no memory, which has a message. Why the output failed is kept
/// by the output.
pub fn outcome_of_lines<E: Eprint>(rt: &E, answer: Result<(), Error>) -> Outcome
    ensures { result ≡ outcome_of_lines answer }
{
    match answer {
        Ok(()) => Outcome::written(Status::Fine),
        Err(Error::Writer) => Outcome::unwritten(Status::Fine),
        Err(_) => Outcome::written(out_of_memory(rt)),
    }
}

/// The outcome of writing a text with this answer, whose only error is that the output failed.
pub fn outcome_of_text(answer: io::Result<()>) -> Outcome
    ensures { result ≡ outcome_of_text answer }
{
    match answer {
        Ok(()) => Outcome::written(Status::Fine),
        Err(_) => Outcome::unwritten(Status::Fine),
    }
}
