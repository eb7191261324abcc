//! Lists of diffs: how a document was changed.
ghost use Rattle.std.specs.Prelude.{◌≡◌, ◌≤◌, ◌^◌, ◌<◌, length, IfSome};
ghost use Rattle.std.specs.Result.{result_map_both};
ghost use Rattle.binary_json.specs.Diffs.{length_bytes, length_of, counted_in, operation_of};

use crate::document::Document;
use crate::error::JsonError;
use crate::value::Value;
use byteorder::{ByteOrder, LittleEndian};

/// What a diff does with the value at its path.
#[derive(Clone, Copy, Debug, PartialEq, Eq)]
pub enum JsonDiffOperation {
    /// The value is replaced, as by JSON_REPLACE.
    Replace,
    /// A member is added to an object, as by JSON_INSERT; an element is inserted into an array, and those from its place on move up, as
    /// by JSON_ARRAY_INSERT.
    Insert,
    /// The value is removed, as by JSON_REMOVE.
    Remove,
}

/// Why a list of diffs is refused.
#[derive(Clone, Copy, Debug, PartialEq, Eq)]
pub enum JsonDiffError {
    /// The operation isn't known: its number is above 2.
    Operation,
    /// No length begins with this byte: 0xfb or 0xff.
    Length,
    /// The bytes end within a length, a path or a document.
    Truncated,
    /// The bytes of a value aren't a document. Places are counted from the first byte of the document.
    Document(JsonError),
}

/// A diff: what is done, at which path, and with which value. The paths of a list name what stands there when the diffs before it
/// are done.
#[derive(Clone, Copy, Debug)]
pub struct JsonDiff<'a> {
    operation: JsonDiffOperation,
    path: &'a [u8],
    document: Option<Document<'a>>,
}

/// The diffs of a list that are left, in order. They are checked one by one; behind one that is refused nothing follows.
#[derive(Clone, Copy, Debug)]
pub struct JsonDiffs<'a> {
    rest: &'a [u8],
}

// How many bytes behind its first one a length has.
fn length_bytes(first: u8) -> Option<usize>
    ensures is { result ≡ length_bytes first }
    ensures few { IfSome result (λ width. width ≤ 8) }
{
    match first {
        0..=250 => Some(0),
        252 => Some(2),
        253 => Some(3),
        254 => Some(8),
        _ => None,
    }
}

// The length with this first byte, and so many bytes behind it.
fn length_of(first: u8, width: usize, rest: &[u8]) -> u64
    requires room { width ≤ length rest.now }
    requires few { width ≤ 8 }
    ensures { result ≡ length_of first width rest.now }
{
    if width == 0 {
        return u64::from(first);
    }
    LittleEndian::read_uint(rest, width)
}

// The bytes behind their length, and what is behind them.
#[tactic(auto, unfolding(crate::specs::Diffs::counted_in))]
fn counted(bytes: &[u8]) -> Result<(&[u8], &[u8]), JsonDiffError>
    ensures { result_map_both (λ p. (p.0.now, p.1.now)) (λ e. e) result ≡ counted_in bytes.now }
{
    let Some((first, rest)) = bytes.split_first() else {
        return Err(JsonDiffError::Truncated);
    };
    let Some(width) = length_bytes(*first) else {
        return Err(JsonDiffError::Length);
    };
    if rest.len() < width {
        return Err(JsonDiffError::Truncated);
    }
    let count = length_of(*first, width, rest);
    let behind = &rest[width..];
    if (behind.len() as u64) < count {
        return Err(JsonDiffError::Truncated);
    }
    Ok(behind.split_at(count as usize))
}

// The operation with this number.
fn operation_of(number: u8) -> Option<JsonDiffOperation>
    ensures { result ≡ operation_of number }
{
    match number {
        0 => Some(JsonDiffOperation::Replace),
        1 => Some(JsonDiffOperation::Insert),
        2 => Some(JsonDiffOperation::Remove),
        _ => None,
    }
}

impl<'a> JsonDiff<'a> {
    ghost use Rattle.std.specs.Prelude.{◌≡◌, option_map};
    ghost use Rattle.std.specs.Result.{result_map_both};
    ghost use Rattle.binary_json.specs.Views.{json, document_json};
    ghost use Rattle.binary_json.specs.Diffs.{diff_of, diff_in};

    /// What is done.
    pub fn operation(&self) -> JsonDiffOperation
        ensures { result ≡ self.now.operation }
    {
        self.operation
    }

    /// The path of the value: `$`, and then members, `.name` or `."any name"`, and places in arrays, `[0]`. It isn't checked.
    pub fn path(&self) -> &'a [u8]
        ensures { result.now ≡ self.now.path.now }
    {
        self.path
    }

    /// The document of the value; None exactly if a value is removed.
    pub fn document(&self) -> Option<Document<'a>>
        ensures { result ≡ self.now.document }
    {
        self.document
    }

    // The first diff of bytes that aren't empty, and what is behind it.
    #[tactic(auto, using(crate::proofs::DiffLists::value_of_found), unfolding(crate::specs::Diffs::diff_in))]
    fn read(bytes: &'a [u8]) -> Result<(JsonDiff<'a>, &'a [u8]), JsonDiffError>
        ensures { result_map_both (λ p. (diff_of p.0, p.1.now)) (λ e. e) result ≡ diff_in bytes.now }
    {
        let Some((number, rest)) = bytes.split_first() else {
            return Err(JsonDiffError::Truncated);
        };
        let Some(operation) = operation_of(*number) else {
            return Err(JsonDiffError::Operation);
        };
        let (path, rest) = counted(rest)?;
        if let JsonDiffOperation::Remove = operation {
            return Ok((
                JsonDiff {
                    operation,
                    path,
                    document: None,
                },
                rest,
            ));
        }
        let (bytes, rest) = counted(rest)?;
        match Document::read(bytes) {
            Ok(document) => Ok((
                JsonDiff {
                    operation,
                    path,
                    document: Some(document),
                },
                rest,
            )),
            Err(error) => Err(JsonDiffError::Document(error)),
        }
    }
}

impl<'a> JsonDiffs<'a> {
    ghost use Rattle.std.specs.Prelude.{◌≡◌};
    ghost use Rattle.binary_json.specs.Diffs.{diff_items, diffs_left};

    /// The diffs of a list. No bytes are no diffs.
    pub fn new(bytes: &'a [u8]) -> JsonDiffs<'a>
        ensures { diffs_left result ≡ diff_items bytes.now }
    {
        JsonDiffs { rest: bytes }
    }
}

impl<'a> Iterator for JsonDiffs<'a> {
    type Item = Result<JsonDiff<'a>, JsonDiffError>;

    ghost use Rattle.std.specs.Iterator.{YieldsFirstBy, item_count};
    ghost use Rattle.binary_json.specs.Diffs.{item_of, diffs_left};

    ghost next_gives = { YieldsFirstBy item_of diffs_left };

    ghost remaining = { item_count diffs_left };

    #[tactic(auto, using(crate::proofs::DiffLists::no_diffs, crate::proofs::DiffLists::first_diff, crate::proofs::DiffLists::first_refusal))]
    fn next(&mut self) -> Option<Result<JsonDiff<'a>, JsonDiffError>> {
        if self.rest.is_empty() {
            return None;
        }
        match JsonDiff::read(self.rest) {
            Ok((diff, rest)) => {
                self.rest = rest;
                Some(Ok(diff))
            }
            Err(error) => {
                self.rest = &[];
                Some(Err(error))
            }
        }
    }
}
