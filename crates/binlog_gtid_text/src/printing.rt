//! The text of a set of GTIDs.
ghost use Rattle.std.specs.Prelude.{◌≡◌, ◌++◌, ◌<◌, ℕ, List, length, slice_index_or, flat_map, option_copied, Some, string_bytes, IfOk, OnOk, IsOkUnless};
ghost use Rattle.binlog_wire.specs.declared.error.Error.TheVariants.{Memory};
ghost use Rattle.uuid.specs.Text.{hyphenated_text, lower};
ghost use Rattle.binlog_gtids.specs.GnoSets.{AreApart};
ghost use Rattle.binlog_gtid_sets.specs.declared.gtid_group.GtidGroup.{GtidGroup};
ghost use Rattle.binlog_gtid_sets.specs.GtidGroups.{Pair, is_tracked, AreGroups};
ghost use Rattle.binlog_gtid_text.specs.declared.piece.Piece.{Piece};
ghost use Rattle.binlog_gtid_text.specs.Pieces.{IsText, is_in_text};
ghost use Rattle.binlog_gtid_text.specs.Printing.{interval_text, tag_part, sid_part, group_text, set_text};
ghost use Rattle.binlog_gtid_text.specs.Laws.Printing.{IsTagIfAny, IsWritable, AreWritable};

use binlog_gtid_sets::GtidTracker;
use binlog_variable_fields::{GnoInterval, Tag};
use binlog_wire::Error;
use std::alloc::Global;
use std::cmp::Ordering;
use std::fmt::Write;
use uuid::Uuid;

/// The text of a set of GTIDs, as a MySQL server writes it, on one line: the sources in the order of their bytes, with `,`
/// between. Of a source comes the UUID, in lower case with hyphens, then the intervals of its numbers without a tag, then each
/// tag, in the order of their bytes, and its intervals; before each tag and each interval stands a `:`. An interval is
/// its first and last number with a `-` between, or its only number. No two intervals of a source and a tag touch. The
/// text of the empty set is empty.
///
/// [`parse`](crate::parse) reads it as the same set. The only error is [`Error::Memory`].
pub fn to_text(alloc: Global, set: &GtidTracker) -> Result<String, Error>
    ensures text { IfOk result (λ text. string_bytes text ≡ set_text set.now) }
    ensures writable { OnOk result (AreWritable set.now) }
    ensures ordered { AreGroups set.now }
    ensures reads_back { IfOk result (λ text. (ps : List Piece) × IsText (string_bytes text) ps × ((pair : Pair) (n : ℕ) → is_in_text ps pair n ≡ is_tracked set.now pair n)) }
    ensures memory { IsOkUnless result Memory }
{
    let mut text = String::new(alloc);
    let mut last = None;
    for i in 0..set.len() {
        last = push_group_at(&mut text, last, set, i)?;
    }
    Ok(text)
}

// Appends the group at an index, after one of this source, and answers the group's source.
fn push_group_at(
    text: &mut String,
    last: Option<[u8; 16]>,
    set: &GtidTracker,
    i: usize,
) -> Result<Option<[u8; 16]>, Error>
    requires groups { AreGroups set.now }
    requires within { i < length set.now }
    ensures ok { OnOk result ((d : GtidGroup) → string_bytes text.new ≡ string_bytes text.old ++ group_text last (slice_index_or set.now i d)) }
    ensures source { IfOk result (λ next. (d : GtidGroup) → next ≡ Some (slice_index_or set.now i d).sid) }
    ensures writable { OnOk result ((d : GtidGroup) → IsWritable (slice_index_or set.now i d)) }
    ensures memory { IsOkUnless result Memory }
{
    match set.group(i) {
        Some(group) => {
            let sid = group.0;
            let tag = group.1;
            push_group(text, last.as_ref(), &sid, tag, set.intervals(sid, tag))?;
            Ok(Some(sid))
        }
        None => Ok(last),
    }
}

// Appends a group: its source, unless the group before has the same, its tag and its intervals.
fn push_group(
    text: &mut String,
    last: Option<&[u8; 16]>,
    sid: &[u8; 16],
    tag: Option<&Tag<'_>>,
    intervals: &[GnoInterval],
) -> Result<(), Error>
    requires { AreApart 0 intervals.now }
    ensures ok { OnOk result (string_bytes text.new ≡ string_bytes text.old ++ group_text (option_copied last.entry) (record { sid = sid.now; tag = option_copied tag.entry; gnos = intervals.now })) }
    ensures writable { OnOk result (IsWritable (record { sid = sid.now; tag = option_copied tag.entry; gnos = intervals.now })) }
    ensures memory { IsOkUnless result Memory }
{
    push_sid(text, last, sid)?;
    push_tag(text, tag)?;
    push_intervals(text, intervals)
}

// Appends a source's UUID, unless the group before has the same source.
fn push_sid(text: &mut String, last: Option<&[u8; 16]>, sid: &[u8; 16]) -> Result<(), Error>
    ensures ok { OnOk result (string_bytes text.new ≡ string_bytes text.old ++ sid_part (option_copied last.entry) sid.now) }
    ensures memory { IsOkUnless result Memory }
{
    match last {
        None => push_uuid(text, sid),
        Some(last) => match last.cmp(sid) {
            Ordering::Equal => Ok(()),
            _ => {
                text.push_str(",")?;
                push_uuid(text, sid)
            }
        },
    }
}

// Appends a UUID in lower case with hyphens.
fn push_uuid(text: &mut String, sid: &[u8; 16]) -> Result<(), Error>
    ensures ok { OnOk result (string_bytes text.new ≡ string_bytes text.old ++ hyphenated_text lower sid.now) }
    ensures memory { IsOkUnless result Memory }
{
    let mut buffer = Uuid::encode_buffer();
    let uuid = Uuid::from_bytes(*sid)
        .hyphenated()
        .encode_lower(&mut buffer);
    text.push_str(uuid)?;
    Ok(())
}

// Appends a tag, if there is one.
fn push_tag(text: &mut String, tag: Option<&Tag<'_>>) -> Result<(), Error>
    ensures ok { OnOk result (string_bytes text.new ≡ string_bytes text.old ++ tag_part (option_copied tag.entry)) }
    ensures tag { OnOk result (IsTagIfAny (option_copied tag.entry)) }
    ensures memory { IsOkUnless result Memory }
{
    if let Some(tag) = tag {
        text.push_str(":")?;
        text.push_str(tag.as_str())?;
    }
    Ok(())
}

// Appends intervals.
fn push_intervals(text: &mut String, intervals: &[GnoInterval]) -> Result<(), Error>
    requires { AreApart 0 intervals.now }
    ensures ok { OnOk result (string_bytes text.new ≡ string_bytes text.old ++ flat_map interval_text intervals.now) }
    ensures memory { IsOkUnless result Memory }
{
    for interval in intervals {
        push_interval(text, interval)?;
    }
    Ok(())
}

// Appends an interval.
fn push_interval(text: &mut String, interval: &GnoInterval) -> Result<(), Error>
    requires { interval.now.start < interval.now.end }
    ensures ok { OnOk result (string_bytes text.new ≡ string_bytes text.old ++ interval_text interval.now) }
    ensures memory { IsOkUnless result Memory }
{
    let last = interval.end() - 1;
    write!(text, ":{}", interval.start())?;
    if interval.start() < last {
        write!(text, "-{last}")?;
    }
    Ok(())
}
