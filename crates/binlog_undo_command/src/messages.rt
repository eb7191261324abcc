//! Messages on standard error.
use std::fmt;

/// Writes the message of an error of this file. There is nowhere to say that it can't be written.
pub(crate) fn report_error<R: Eprint, E: fmt::Display>(rt: &R, file: &str, error: &E) {
    let _ = eprintln!(rt; "binlog: {file}: {error}");
}
