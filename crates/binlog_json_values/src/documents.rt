//! Documents of JSON columns and lists of diffs as JSON.

ghost use Rattle.std.specs.Prelude.{◌≡◌, Some, option_map, option_copied, IfOk};
ghost use Rattle.std.specs.Bool.{OnTrue, OnFalse};
ghost use Rattle.json_line.specs.Lines.{IsPlainText};
ghost use Rattle.json_line.specs.Tokens.{Adds};
ghost use Rattle.binary_json.specs.Values.{Json};
ghost use Rattle.binary_json_lines.specs.HasText.{HasText};
ghost use Rattle.binlog_json_values.specs.Parts.{Writes};
ghost use Rattle.binary_json_writing.specs.Owned.{owned_value};
ghost use Rattle.binary_json_writing.specs.Applied.{IsMemory};
ghost use Rattle.binlog_json_values.specs.Documents.{encoded_value, json_parts, ShowsIfText, diffs_value, are_few, document_after, after_member, diff_list_parts};

use binary_json::{Document, JsonDiffs};
use binary_json_lines::{
    diffs_have_text, has_text, write_diffs, write_document, write_document_if_text,
};
use binary_json_writing::{
    JsonApplyError, JsonChangeError, JsonPathError, JsonWriteError, OwnedDocument, apply,
};
use json_line::Line;
use std::alloc::{AllocError, Global};

/// How many diffs of a list are applied at most: each of them copies the document.
const MOST_DIFFS: usize = 100;

/// Writes an object with one member: bytes that aren't decoded.
pub(crate) fn write_encoded(line: &mut Line, name: &str, bytes: &[u8]) -> Result<(), AllocError>
    requires { IsPlainText name.now }
    ensures { Adds result line.old line.new (encoded_value name.now bytes.now) }
{
    line.begin_object()?;
    line.bytes_member(name, bytes)?;
    line.end_object()
}

/// Writes an object with one member, the value of the document in the bytes, if they are one that has a text. Answers whether they are;
/// if not, the line stays as it was.
fn write_shown(line: &mut Line, memory: &mut String, bytes: &[u8]) -> Result<bool, AllocError>
    ensures { IfOk result (λ is_shown. ShowsIfText is_shown bytes.now line.old line.new) }
{
    let Ok(document) = Document::read(bytes) else {
        return Ok(false);
    };
    let start = line.mark();
    line.begin_object()?;
    line.key("json")?;
    if !write_document_if_text(line, memory, &document)? {
        line.cut(start);
        return Ok(false);
    }
    line.end_object()?;
    Ok(true)
}

/// Writes the bytes of a JSON column: an object with the value, if they are a document that has a text, or else with their
/// hexadecimal digits. `memory` is memory that is reused.
pub(crate) fn write_json(
    line: &mut Line,
    memory: &mut String,
    bytes: &[u8],
) -> Result<(), AllocError>
    ensures { Writes result line.old line.new (json_parts bytes.now) }
{
    if write_shown(line, memory, bytes)? {
        return Ok(());
    }
    write_encoded(line, "jsonb", bytes)
}

/// Writes the diffs of a list, if the bytes are such a list, and it has a text, or else the hexadecimal digits of the bytes.
/// `memory` is memory that is reused.
fn write_diffs_value(line: &mut Line, memory: &mut String, bytes: &[u8]) -> Result<(), AllocError>
    ensures { Writes result line.old line.new (diffs_value bytes.now) }
{
    if diffs_have_text(bytes) {
        return write_diffs(line, memory, bytes);
    }
    line.bytes(bytes)
}

/// Whether memory was refused.
fn is_memory(error: &JsonApplyError) -> bool
    ensures memory { OnTrue result (IsMemory error.now) }
    ensures others { OnFalse result (¬ (IsMemory error.now)) }
{
    matches!(
        error,
        JsonApplyError::Path(JsonPathError::Memory)
            | JsonApplyError::Change(JsonChangeError::Write(JsonWriteError::Memory))
    )
}

/// Whether a list has so few diffs that it is applied.
fn are_few(diffs: &[u8]) -> bool
    ensures { result ≡ are_few diffs.now }
{
    // Each of them has a byte at least.
    let _most = diffs.len();
    JsonDiffs::new(diffs).count() <= MOST_DIFFS
}

/// The document that a list of diffs makes of the document in the bytes before. None if there are more than
/// [`MOST_DIFFS`], if these are no document, if a diff is refused, or if the document after has no text.
fn document_after(
    alloc: Global,
    before: Option<&[u8]>,
    diffs: &[u8],
) -> Result<Option<OwnedDocument>, AllocError>
    ensures { IfOk result (λ found. option_map owned_value found ≡ document_after (option_copied before.entry) diffs.now) }
{
    let Some(bytes) = before else {
        return Ok(None);
    };
    if !are_few(diffs) {
        return Ok(None);
    }
    let Ok(document) = Document::read(bytes) else {
        return Ok(None);
    };
    match apply(alloc, &document, JsonDiffs::new(diffs)) {
        Ok(after) => {
            if has_text(&after.document()) {
                Ok(Some(after))
            } else {
                Ok(None)
            }
        }
        Err(error) => {
            if is_memory(&error) {
                Err(AllocError)
            } else {
                Ok(None)
            }
        }
    }
}

/// Writes the member of the document after, if there is one, which has a text.
fn write_after(
    line: &mut Line,
    memory: &mut String,
    after: &Option<OwnedDocument>,
) -> Result<(), AllocError>
    requires { (w : Json) → option_map owned_value after.now ≡ Some w → HasText w }
    ensures { Writes result line.old line.new (after_member (option_map owned_value after.now)) }
{
    match after {
        Some(document) => {
            line.key("json")?;
            write_document(line, memory, &document.document())
        }
        None => Ok(()),
    }
}

/// Writes the bytes of a list of diffs: an object with the diffs, if they are such a list, and it has a text, or else with their
/// hexadecimal digits; and with the document that they make of the one in the bytes before, if they do, and it has a text.
/// `memory` is memory that is reused.
pub(crate) fn write_diff_list(
    alloc: Global,
    line: &mut Line,
    memory: &mut String,
    before: Option<&[u8]>,
    bytes: &[u8],
) -> Result<(), AllocError>
    ensures { Writes result line.old line.new (diff_list_parts (option_copied before.entry) bytes.now) }
{
    line.begin_object()?;
    line.key("diffs")?;
    write_diffs_value(line, memory, bytes)?;
    let after = document_after(alloc, before, bytes)?;
    write_after(line, memory, &after)?;
    line.end_object()
}
