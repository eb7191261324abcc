//! The lines of the groups of a set of GTIDs.
ghost use Rattle.std.specs.Prelude.{IfSome, option_copied, true, false};
ghost use Rattle.binlog_events.specs.Writing.{CountsWriter};
ghost use Rattle.binlog_gtids.specs.GnoSets.{AreApart};
ghost use Rattle.binlog_gtid_sets.specs.GtidGroups.{AreGroups, pair_of, intervals_of};
ghost use Rattle.binlog_gtid_listing.specs.GroupLines.{Writes, WritesLine, WritesLines, group_line};

use crate::parts::{tag_text, write_gaps, write_intervals, write_part, write_sid, write_tag};
use binlog_file::{Error, GnoInterval, GtidTracker, Tag, WriteCounted};

/// Writes the line of each group of a set, in their order, with its gaps or without them.
///
/// # Errors
///
/// - [`Error::Memory`], only with `has_gaps`, where memory ran out for the gaps of a group, after the lines of all groups before.
/// - [`Error::Writer`] where the writer failed; it has a front of the lines.
pub fn write_groups<W: WriteCounted>(
    gtids: &GtidTracker,
    has_gaps: bool,
    output: &mut W,
) -> Result<(), Error>
    ensures groups { AreGroups gtids.now }
    ensures written { WritesLines has_gaps gtids.now (W.contents output.old) result (W.contents output.new) }
    ensures writer { CountsWriter result (W.count output.old) (W.count output.new) }
{
    for index in 0..gtids.len() {
        if let Some(group) = gtids.group(index) {
            let sid = group.0;
            write_group(gtids, has_gaps, sid, group.1, output)?;
        }
    }
    Ok(())
}

// Writes the line of the numbers of a source and a tag.
fn write_group<W: WriteCounted>(
    gtids: &GtidTracker,
    has_gaps: bool,
    sid: [u8; 16],
    tag: Option<&Tag<'_>>,
    output: &mut W,
) -> Result<(), Error>
    ensures written { WritesLine has_gaps sid (option_copied tag.entry) (intervals_of gtids.now (pair_of sid (option_copied tag.entry)))
        (W.contents output.old) result (W.contents output.new) }
    ensures writer { CountsWriter result (W.count output.old) (W.count output.new) }
{
    if !has_gaps {
        return write_numbers(gtids, sid, tag, output);
    }
    write_with_gaps(gtids, sid, tag, output)
}

// Writes that line with the gaps.
fn write_with_gaps<W: WriteCounted>(
    gtids: &GtidTracker,
    sid: [u8; 16],
    tag: Option<&Tag<'_>>,
    output: &mut W,
) -> Result<(), Error>
    ensures written { WritesLine true sid (option_copied tag.entry) (intervals_of gtids.now (pair_of sid (option_copied tag.entry)))
        (W.contents output.old) result (W.contents output.new) }
    ensures writer { CountsWriter result (W.count output.old) (W.count output.new) }
{
    let text = tag_text(tag);
    let gaps = gtids.gaps(sid, tag)?;
    write_parts(
        sid,
        text,
        gtids.intervals(sid, tag),
        Some(gaps.as_slice()),
        output,
    )
}

// Writes that line without the gaps.
fn write_numbers<W: WriteCounted>(
    gtids: &GtidTracker,
    sid: [u8; 16],
    tag: Option<&Tag<'_>>,
    output: &mut W,
) -> Result<(), Error>
    ensures written { WritesLine false sid (option_copied tag.entry) (intervals_of gtids.now (pair_of sid (option_copied tag.entry)))
        (W.contents output.old) result (W.contents output.new) }
    ensures writer { CountsWriter result (W.count output.old) (W.count output.new) }
{
    let text = tag_text(tag);
    write_parts(sid, text, gtids.intervals(sid, tag), None, output)
}

// Writes a line of these parts, with gaps or without them.
fn write_parts<W: WriteCounted>(
    sid: [u8; 16],
    tag: Option<&[u8]>,
    intervals: &[GnoInterval],
    gaps: Option<&[GnoInterval]>,
    output: &mut W,
) -> Result<(), Error>
    requires intervals { AreApart 0 intervals.now }
    requires gaps { IfSome (option_copied gaps) (AreApart 0) }
    ensures writes { Writes (group_line sid (option_copied tag.entry) intervals.now (option_copied gaps.entry))
        (W.contents output.old) result (W.contents output.new) }
    ensures writer { CountsWriter result (W.count output.old) (W.count output.new) }
{
    write_sid(&sid, output)?;
    write_tag(tag, output)?;
    write_part(b" ", output)?;
    write_intervals(intervals, output)?;
    write_gaps(gaps, output)?;
    write_part(b"\n", output)
}
