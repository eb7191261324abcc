//! Lists of diffs, applied.
ghost use Rattle.std.specs.Prelude.{◌≡◌, option_map, IfOk, IfErr};
ghost use Rattle.binary_json.specs.Views.{json, document_json};
ghost use Rattle.binary_json.specs.Diffs.{diff_of, diffs_left};
ghost use Rattle.binary_json_writing.specs.Owned.{owned_value};
ghost use Rattle.binary_json_writing.specs.Applied.{IsUnbegun, Makes, IsRefused, AllWrite, NotApplied};

use crate::changing::changed;
use crate::error::JsonChangeError;
use crate::owned::OwnedDocument;
use crate::paths::{JsonPath, JsonPathError};
use crate::rewriting::rewritten;
use binary_json::{Document, JsonDiff, JsonDiffError, JsonDiffs, Value};
use std::alloc::Global;

/// Why a list of diffs isn't applied to a document.
#[derive(Clone, Copy, Debug, PartialEq, Eq)]
pub enum JsonApplyError {
    /// The bytes of the list are refused.
    Diff(JsonDiffError),
    /// The path of a diff is refused.
    Path(JsonPathError),
    /// A diff can't be done, or the document after it can't be written.
    Change(JsonChangeError),
}

impl From<JsonDiffError> for JsonApplyError {
    ghost use Rattle.binary_json_writing.specs.declared.applying.JsonApplyError.TheVariants.{Diff};

    ghost from_gives = { λ fault error. error ≡ Diff fault };

    fn from(fault: JsonDiffError) -> JsonApplyError {
        JsonApplyError::Diff(fault)
    }
}

impl From<JsonPathError> for JsonApplyError {
    ghost use Rattle.binary_json_writing.specs.declared.applying.JsonApplyError.TheVariants.{Path};

    ghost from_gives = { λ fault error. error ≡ Path fault };

    fn from(fault: JsonPathError) -> JsonApplyError {
        JsonApplyError::Path(fault)
    }
}

impl From<JsonChangeError> for JsonApplyError {
    ghost use Rattle.binary_json_writing.specs.declared.applying.JsonApplyError.TheVariants.{Change};

    ghost from_gives = { λ fault error. error ≡ Change fault };

    fn from(fault: JsonChangeError) -> JsonApplyError {
        JsonApplyError::Change(fault)
    }
}

// The value of a diff's document.
fn value_of<'a>(diff: &JsonDiff<'a>) -> Option<Value<'a>>
    ensures { option_map json result ≡ (diff_of diff.now).value }
{
    match diff.document() {
        Some(document) => Some(document.value()),
        None => None,
    }
}

// The document after a diff.
fn after(
    alloc: Global,
    document: &OwnedDocument,
    diff: &JsonDiff<'_>,
) -> Result<OwnedDocument, JsonApplyError>
    ensures made { IfOk result (λ d. Makes (diff_of diff.now) (owned_value document.now) (owned_value d)) }
    ensures refused { IfErr result (IsRefused (diff_of diff.now) (owned_value document.now)) }
{
    let path = JsonPath::parse(alloc, diff.path())?;
    let value = document.document().value();
    let new = value_of(diff);
    let document = changed(alloc, diff.operation(), &new, path.legs(), &value)?;
    Ok(document)
}

// The document written anew.
fn begun(alloc: Global, document: &Document<'_>) -> Result<OwnedDocument, JsonApplyError>
    ensures made { IfOk result (λ d. owned_value d ≡ document_json document.now) }
    ensures refused { IfErr result (IsUnbegun (document_json document.now)) }
{
    match rewritten(alloc, &document.value()) {
        Ok(document) => Ok(document),
        Err(error) => Err(JsonApplyError::Change(JsonChangeError::Write(error))),
    }
}

/// The document after all diffs of a list, each of which changes what those before it have made. Its bytes are those that MySQL's
/// serializer writes.
///
/// - A replaced value becomes that of the diff, as by JSON_REPLACE; at the path `$` it is the whole document.
/// - An inserted member is added to its object, as by JSON_INSERT, in the order of keys. An inserted element stands at its place,
///   and those from there on move up, as by JSON_ARRAY_INSERT; in an array with fewer elements it stands at the end.
/// - A removed value goes, with its key, as by JSON_REMOVE.
///
/// # Errors
///
/// The first refusal: `Diff` by the bytes of the list, `Path` by a path, and `Change` by what a diff does: where one of these
/// functions would change nothing, or where the document after the diff can't be written. `Change` with `Write` too, where the
/// document can't be written anew before the first diff, which takes a value of 2^32 bytes. Where memory is refused, it is `Path` with
/// `Memory`, or `Change` with `Write` and `Memory`.
pub fn apply(
    alloc: Global,
    document: &Document<'_>,
    diffs: JsonDiffs<'_>,
) -> Result<OwnedDocument, JsonApplyError>
    ensures made { IfOk result (λ d. AllWrite (diffs_left diffs.entry) (document_json document.now) (owned_value d)) }
    ensures refused { IfErr result (NotApplied (diffs_left diffs.entry) (document_json document.now)) }
{
    let mut current = begun(alloc, document)?;
    'diffs: for item in diffs {
        let diff = item?;
        current = after(alloc, &current, &diff)?;
    }
    Ok(current)
}
