//! What the lines of JSON of all statistics have in common.
ghost use Rattle.std.specs.Io.KnownBytes.{Appends};
ghost use Rattle.std.specs.Prelude.{OnOk};
ghost use Rattle.json_line.specs.Lines.{IsPlainText};
ghost use Rattle.json_line.specs.Tokens.{Adds};
ghost use Rattle.binlog_summaries.specs.JsonLines.{line_of, time_member};

use binlog_file::{CountedRef, Error};
use binlog_visits::write_line;
use json_line::Line;
use std::alloc::AllocError;
use std::io::Write;

/// Ends a line, and writes it.
pub(crate) fn end_line<W: Write>(line: &mut Line, output: &mut W) -> Result<(), Error>
    ensures { OnOk result (Appends (W.contents output.old) (W.contents output.new) (line_of line.old)) }
{
    let text = line.end()?;
    let mut output = CountedRef::new(&mut *output);
    write_line(&mut output, text)
}

/// Writes a member of an object with a time or a duration: a number of seconds, or null. The name must need no escape.
pub(crate) fn write_time(line: &mut Line, name: &str, time: Option<u32>) -> Result<(), AllocError>
    requires { IsPlainText name.now }
    ensures { Adds result line.old line.new (time_member name.now time) }
{
    line.key(name)?;
    match time {
        Some(seconds) => line.number(u64::from(seconds)),
        None => line.null(),
    }
}
