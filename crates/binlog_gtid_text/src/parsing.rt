//! Reading a text as a set of GTIDs.
ghost use Rattle.std.specs.Prelude.{◌≡◌, ◌⊎◌, ◌<◌, ◌≤◌, ◌^◌, ◌&&◌, ◌||◌, ℕ, List, [], length, None, Ok, option_copied, IfOk, IfErr, OnOk, IsOkUnless, MatchResult};
ghost use Rattle.binlog_gtid_sets.specs.declared.gtid_group.GtidGroup.{GtidGroup};
ghost use Rattle.binlog_gtid_sets.specs.GtidGroups.{Pair, pair_of, is_same, is_tracked, AreGroups};
ghost use Rattle.binlog_gtids.specs.GnoSets.{is_within};
ghost use Rattle.binlog_gtid_text.specs.declared.error.GtidTextError.TheVariants.{Memory};
ghost use Rattle.binlog_gtid_text.specs.declared.piece.Piece.{Piece};
ghost use Rattle.binlog_gtid_text.specs.Reading.{uuid_at, piece_at, IsInRange};
ghost use Rattle.binlog_gtid_text.specs.Printing.{set_text};
ghost use Rattle.binlog_gtid_text.specs.Laws.Printing.{AreWritable};
ghost use Rattle.binlog_gtid_text.specs.Pieces.{IsFaultAt, ArePieces, IsText, IsInvalid, IsInvalidAfter, after_piece, is_named, are_naming, is_in_text};

use crate::error::GtidTextError;
use crate::piece::{Piece, Under};
use crate::reading::{piece_at, skip_spaces, uuid_at};
use binlog_gtid_sets::GtidTracker;
use binlog_variable_fields::{GnoInterval, Tag};
use std::alloc::Global;

/// Reads the text of a set of GTIDs: sources with `,` between. A source is its UUID, with a `:` before each interval of
/// numbers. Intervals without a tag come first; a tag stands before the first of its intervals, with a `:` between.
///
/// - The UUID has 32 hexadecimal digits, in either case, with hyphens after the first 8, 12, 16 and 20.
/// - A tag has 1 to 32 letters, digits and `_`, and begins with no digit. Its case is kept.
/// - An interval is a number, or the first and the last number with a `-` between. The first is at least 1, and both are
///   below 2^63. If the last one is below the first, the interval has no numbers.
/// - Sources, tags and intervals may come more than once and in any order; a source may have no interval.
/// - Spaces, tabs, newlines, vertical tabs, form feeds and carriage returns may stand at the start, at the end, and
///   before and after each `,`, `:` and `-` between numbers.
/// - A text without anything else is the empty set.
///
/// # Errors
///
/// - [`GtidTextError::Invalid`] if the text isn't that of a set; with the first fault and its position.
/// - [`GtidTextError::Memory`] if an allocation fails.
pub fn parse(alloc: Global, text: &str) -> Result<GtidTracker, GtidTextError>
    ensures ok { IfOk result (λ set. (ps : List Piece) × IsText text.now ps × ((pair : Pair) (n : ℕ) → is_tracked set pair n ≡ is_in_text ps pair n)) }
    ensures err { IfErr result (λ e. (e ≡ Memory) ⊎ IsInvalid text.now e) }
    ensures written { (groups : List GtidGroup) → AreGroups groups → AreWritable groups → text.now ≡ set_text groups → MatchResult result (λ set. (pair : Pair) (n : ℕ) → is_tracked set pair n ≡ is_tracked groups pair n) (λ e. e ≡ Memory) }
{
    read(alloc, text.as_bytes())
}

// Reads the bytes of a text.
fn read(alloc: Global, text: &[u8]) -> Result<GtidTracker, GtidTextError>
    ensures ok { IfOk result (λ set. (ps : List Piece) × IsText text.now ps × ((pair : Pair) (n : ℕ) → is_tracked set pair n ≡ is_in_text ps pair n)) }
    ensures err { IfErr result (λ e. (e ≡ Memory) ⊎ IsInvalid text.now e) }
{
    let mut set = GtidTracker::new(alloc);
    let start = skip_spaces(text);
    if start.is_empty() {
        return Ok(set);
    }
    let (sid, rest) = first_uuid(text.len(), start)?;
    add_pieces(&mut set, text.len(), sid, rest)?;
    Ok(set)
}

// Reads the UUID at the start of what is left of a text of this length.
fn first_uuid(len: usize, rest: &[u8]) -> Result<([u8; 16], &[u8]), GtidTextError>
    ensures ok { IfOk result (λ x. uuid_at rest.now ≡ Ok (x.0, x.1.now)) }
    ensures err { IfErr result (IsFaultAt len (uuid_at rest.now)) }
{
    match uuid_at(rest) {
        Ok(found) => Ok(found),
        Err(fault) => Err(fault.in_text(len)),
    }
}

// Reads the piece at the start of what is left of a text of this length.
fn next_piece(len: usize, rest: &[u8]) -> Result<(Piece<'_>, &[u8]), GtidTextError>
    ensures ok { IfOk result (λ x. piece_at rest.now ≡ Ok (x.0, x.1.now)) }
    ensures bounds { IfOk result (λ x. IsInRange x.0) }
    ensures shorter { IfOk result (λ x. length x.1.now < length rest.now) }
    ensures err { IfErr result (IsFaultAt len (piece_at rest.now)) }
{
    match piece_at(rest) {
        Ok(found) => Ok(found),
        Err(fault) => Err(fault.in_text(len)),
    }
}

// Adds what the pieces after the first UUID name. The text that they are at the end of has this length.
fn add_pieces(
    set: &mut GtidTracker,
    len: usize,
    sid: [u8; 16],
    text: &[u8],
) -> Result<(), GtidTextError>
    ensures ok { OnOk result ((ps : List Piece) × ArePieces text.now ps [] × ((pair : Pair) (n : ℕ) → is_tracked set.new pair n ≡ (are_naming (record { sid = sid; tag = None }) ps pair n || is_tracked set.old pair n))) }
    ensures err { IfErr result (λ e. (e ≡ Memory) ⊎ IsInvalidAfter len text.now e) }
{
    let mut rest = text;
    let mut under = Under { sid, tag: None };
    while !rest.is_empty() {
        let (piece, next) = next_piece(len, rest)?;
        under = add_piece(set, under, piece)?;
        rest = next;
    }
    Ok(())
}

// Adds what a piece names, and answers where the numbers after it are. The only error is [`GtidTextError::Memory`].
fn add_piece<'a>(
    set: &mut GtidTracker,
    under: Under<'a>,
    piece: Piece<'a>,
) -> Result<Under<'a>, GtidTextError>
    requires { IsInRange piece }
    ensures under { IfOk result (λ next. next ≡ after_piece under.entry piece.entry) }
    ensures ok { OnOk result ((pair : Pair) (n : ℕ) → is_tracked set.new pair n ≡ (is_named under.entry piece.entry pair n || is_tracked set.old pair n)) }
    ensures memory { IsOkUnless result Memory }
{
    match piece {
        Piece::Source(sid) => Ok(Under { sid, tag: None }),
        Piece::Numbers(tag, interval) => {
            let tag = tag.or(under.tag);
            add_interval(set, &under.sid, tag.as_ref(), &interval)?;
            Ok(Under {
                sid: under.sid,
                tag,
            })
        }
    }
}

// Adds the numbers of a source and a tag in an interval, which may be empty. The only error is
// [`GtidTextError::Memory`].
fn add_interval(
    set: &mut GtidTracker,
    sid: &[u8; 16],
    tag: Option<&Tag<'_>>,
    interval: &GnoInterval,
) -> Result<(), GtidTextError>
    requires positive { 1 ≤ interval.now.start }
    requires small { interval.now.end ≤ 2 ^ 63 }
    ensures ok { OnOk result ((pair : Pair) (n : ℕ) → is_tracked set.new pair n ≡ ((is_same (pair_of sid.now (option_copied tag.entry)) pair && is_within interval.now n) || is_tracked set.old pair n)) }
    ensures memory { IsOkUnless result Memory }
{
    if interval.start() >= interval.end() {
        return Ok(());
    }
    match set.insert(sid, tag, interval.start(), interval.end()) {
        Ok(()) => Ok(()),
        Err(_) => Err(GtidTextError::Memory),
    }
}
