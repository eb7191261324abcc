//! The line that a mode prints.
use binlog_file::Error;
use std::io;
use std::io::Write;

/// Writes a line of numbers, separated by spaces.
///
/// # Errors
///
/// [`Error::Writer`].
pub(crate) fn write_numbers<W: Write>(numbers: &[u64], output: &mut W) -> Result<(), Error> {
    match write_line(numbers, output) {
        Ok(()) => Ok(()),
        Err(_) => Err(Error::Writer),
    }
}

fn write_line<W: Write>(numbers: &[u64], output: &mut W) -> io::Result<()> {
    let mut separator = "";
    for number in numbers {
        write!(output, "{separator}{number}")?;
        separator = " ";
    }
    writeln!(output)
}
