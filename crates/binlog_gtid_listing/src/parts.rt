//! The parts of a line, each written as soon as it is made. No memory is taken.
ghost use Rattle.std.specs.Prelude.{◌≡◌, ◌<◌, length, IfSome, option_copied, decimal};
ghost use Rattle.hex.specs.Hex.{encode_lower};
ghost use Rattle.binlog_gtids.specs.GnoSets.{AreApart};
ghost use Rattle.binlog_events.specs.Writing.{CountsWriter};
ghost use Rattle.binlog_listing.specs.Listing.{error_line};
ghost use Rattle.binlog_gtid_listing.specs.GroupLines.{HasTag, Writes, tag_suffix, interval_text, intervals_text, gaps_suffix};

use binlog_file::{Error, GnoInterval, Tag, WriteCounted};
use binlog_listing::TextLines;
use binlog_visits::{ItemLines, write_line};
use hex::encode_to_slice;
use itoa::Buffer;
use std::alloc::Global;

/// Writes these bytes. Refused by [`Error::Writer`] alone; the writer then has a front of the bytes. So it is with each
/// function of this module.
pub(crate) fn write_part<W: WriteCounted>(part: &[u8], output: &mut W) -> Result<(), Error>
    ensures writes { Writes part.now (W.contents output.old) result (W.contents output.new) }
    ensures writer { CountsWriter result (W.count output.old) (W.count output.new) }
{
    write_line(output, part)
}

/// Writes the line of an error: `index error E<number>`, with the number of [`Error::number`].
///
/// # Errors
///
/// [`Error::Writer`] if the writer failed; a prefix of the line is written.
#[inline(never)]
pub fn write_error<W: WriteCounted>(
    alloc: Global,
    index: u64,
    error: &Error,
    output: &mut W,
) -> Result<(), Error>
    ensures writes { Writes (error_line index error.now) (W.contents output.old) result (W.contents output.new) }
    ensures writer { CountsWriter result (W.count output.old) (W.count output.new) }
{
    let mut lines = TextLines::new();
    match lines.error_line(alloc, index, error) {
        Ok(line) => write_part(line, output),
        Err(error) => Err(error),
    }
}

/// Writes the UUID of a source in lower-case hexadecimal digits.
pub(crate) fn write_sid<W: WriteCounted>(sid: &[u8], output: &mut W) -> Result<(), Error>
    requires { length sid.now ≡ 16 }
    ensures writes { Writes (encode_lower sid.now) (W.contents output.old) result (W.contents output.new) }
    ensures writer { CountsWriter result (W.count output.old) (W.count output.new) }
{
    let mut digits = [0; 32];
    match encode_to_slice(sid, &mut digits) {
        Ok(()) => write_part(&digits, output),
        Err(_) => unreachable!(),
    }
}

/// The text of a tag.
pub(crate) fn tag_text<'a>(tag: Option<&'a Tag<'_>>) -> Option<&'a [u8]>
    ensures same { option_copied result ≡ option_copied tag.entry }
    ensures tagged { HasTag (option_copied tag.entry) }
{
    match tag {
        None => None,
        Some(tag) => Some(tag.as_str().as_bytes()),
    }
}

/// Writes a colon and the text of a tag; nothing for no tag.
pub(crate) fn write_tag<W: WriteCounted>(tag: Option<&[u8]>, output: &mut W) -> Result<(), Error>
    ensures writes { Writes (tag_suffix (option_copied tag.entry)) (W.contents output.old) result (W.contents output.new) }
    ensures writer { CountsWriter result (W.count output.old) (W.count output.new) }
{
    match tag {
        None => Ok(()),
        Some(text) => {
            write_part(b":", output)?;
            write_part(text, output)
        }
    }
}

/// Writes a number in decimal digits.
pub(crate) fn write_number<W: WriteCounted>(number: u64, output: &mut W) -> Result<(), Error>
    ensures writes { Writes (decimal number) (W.contents output.old) result (W.contents output.new) }
    ensures writer { CountsWriter result (W.count output.old) (W.count output.new) }
{
    let mut digits = Buffer::new();
    write_part(digits.format(number).as_bytes(), output)
}

// Writes the first number of an interval, and the last one if it is another.
fn write_interval<W: WriteCounted>(interval: &GnoInterval, output: &mut W) -> Result<(), Error>
    requires { interval.now.start < interval.now.end }
    ensures writes { Writes (interval_text interval.now) (W.contents output.old) result (W.contents output.new) }
    ensures writer { CountsWriter result (W.count output.old) (W.count output.new) }
{
    let first = interval.start();
    let last = interval.end() - 1;
    write_number(first, output)?;
    if first == last {
        return Ok(());
    }
    write_part(b"-", output)?;
    write_number(last, output)
}

/// Writes intervals with commas between them, or `-` if there are none.
pub(crate) fn write_intervals<W: WriteCounted>(
    intervals: &[GnoInterval],
    output: &mut W,
) -> Result<(), Error>
    requires { AreApart 0 intervals.now }
    ensures writes { Writes (intervals_text intervals.now) (W.contents output.old) result (W.contents output.new) }
    ensures writer { CountsWriter result (W.count output.old) (W.count output.new) }
{
    let Some((first, rest)) = intervals.split_first() else {
        return write_part(b"-", output);
    };
    write_interval(first, output)?;
    for interval in rest {
        write_part(b",", output)?;
        write_interval(interval, output)?;
    }
    Ok(())
}

/// Writes ` gaps ` and the gaps of a line; nothing for a line without gaps.
pub(crate) fn write_gaps<W: WriteCounted>(
    gaps: Option<&[GnoInterval]>,
    output: &mut W,
) -> Result<(), Error>
    requires { IfSome (option_copied gaps) (AreApart 0) }
    ensures writes { Writes (gaps_suffix (option_copied gaps.entry)) (W.contents output.old) result (W.contents output.new) }
    ensures writer { CountsWriter result (W.count output.old) (W.count output.new) }
{
    match gaps {
        None => Ok(()),
        Some(gaps) => {
            write_part(b" gaps ", output)?;
            write_intervals(gaps, output)
        }
    }
}
