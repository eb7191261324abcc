//! Lists of diffs as JSON.
ghost use Rattle.std.specs.Prelude.{◌≡◌, true, option_map, IsUtf8};
ghost use Rattle.json_line.specs.Lines.{IsPlainText};
ghost use Rattle.json_line.specs.Tokens.{Adds};
ghost use Rattle.binary_json.specs.Views.{document_json};
ghost use Rattle.binary_json.specs.Diffs.{diff_of, diff_items, item_of};
ghost use Rattle.binary_json_lines.specs.Parts.{Writes};
ghost use Rattle.binary_json_lines.specs.Diffs.{operation_name, value_has_text, item_has_text, items_have_text, diff_has_text, diff_head, value_member, diff_parts, item_parts, diffs_parts};

use crate::documents::write_document;
use crate::texts::{has_text, is_utf8};
use binary_json::{Document, JsonDiff, JsonDiffError, JsonDiffOperation, JsonDiffs};
use json_line::Line;
use std::alloc::AllocError;

// Whether the value of a diff, if it has one, has a text.
#[tactic(auto, using(crate::proofs::TextTests::tested, crate::proofs::TextTests::fails))]
fn value_has_text(document: Option<Document<'_>>) -> bool
    ensures { result ≡ value_has_text (option_map document_json document.entry) }
{
    match document {
        Some(document) => has_text(&document),
        None => true,
    }
}

// Whether a diff isn't refused, and has a text.
#[tactic(auto, using(crate::proofs::DiffLemmas::utf8_tested, crate::proofs::DiffLemmas::utf8_fails))]
fn item_has_text(item: &Result<JsonDiff<'_>, JsonDiffError>) -> bool
    ensures { result ≡ item_has_text (item_of item.now) }
{
    match item {
        Ok(diff) => {
            if !is_utf8(diff.path()) {
                return false;
            }
            value_has_text(diff.document())
        }
        Err(_) => false,
    }
}

/// Whether bytes are a list of diffs that has a text: no diff is refused, all paths are UTF-8, and all values have a text.
pub fn diffs_have_text(bytes: &[u8]) -> bool
    ensures { result ≡ items_have_text (diff_items bytes.now) }
{
    'diffs: for item in JsonDiffs::new(bytes) {
        if !item_has_text(&item) {
            return false;
        }
    }
    true
}

// The name of an operation.
fn operation_name(operation: JsonDiffOperation) -> &'static str
    ensures name { result.now ≡ operation_name operation }
    ensures plain { IsPlainText result.now }
{
    match operation {
        JsonDiffOperation::Replace => "replace",
        JsonDiffOperation::Insert => "insert",
        JsonDiffOperation::Remove => "remove",
    }
}

// Begins the object of a diff, with its operation and its path.
#[tactic(auto, using(std::proofs::Common::append_assoc, json_line::proofs::Texts::text_is_string))]
fn write_head(line: &mut Line, operation: JsonDiffOperation, path: &[u8]) -> Result<(), AllocError>
    requires { IsUtf8 path.now }
    ensures { Adds result line.old line.new (diff_head operation path.now) }
{
    line.begin_object()?;
    line.key("op")?;
    line.plain_string(operation_name(operation))?;
    line.key("path")?;
    line.text(path)
}

// Writes the member of the value of a diff, if it has one.
#[tactic(auto, using(crate::proofs::TextTests::passes))]
fn write_value_member(
    line: &mut Line,
    memory: &mut String,
    document: Option<Document<'_>>,
) -> Result<(), AllocError>
    requires { value_has_text (option_map document_json document) ≡ true }
    ensures { Writes result line.old line.new (value_member (option_map document_json document.entry)) }
{
    match document {
        Some(document) => {
            line.key("value")?;
            write_document(line, memory, &document)
        }
        None => Ok(()),
    }
}

// Writes a diff.
fn write_diff(line: &mut Line, memory: &mut String, diff: &JsonDiff<'_>) -> Result<(), AllocError>
    requires { diff_has_text (diff_of diff.now) ≡ true }
    ensures { Writes result line.old line.new (diff_parts (diff_of diff.now)) }
{
    write_head(line, diff.operation(), diff.path())?;
    write_value_member(line, memory, diff.document())?;
    line.end_object()
}

// Writes a diff that isn't refused.
fn write_item(
    line: &mut Line,
    memory: &mut String,
    item: &Result<JsonDiff<'_>, JsonDiffError>,
) -> Result<(), AllocError>
    requires { item_has_text (item_of item.now) ≡ true }
    ensures { Writes result line.old line.new (item_parts (item_of item.now)) }
{
    match item {
        Ok(diff) => write_diff(line, memory, diff),
        Err(_) => unreachable!(),
    }
}

/// Writes a list of diffs that has a text, as [`diffs_have_text`] says: an array with an object for each, in order, with the members
/// `op` (`"replace"`, `"insert"`, `"remove"`), `path`, and `value` but for a removal. `memory` is for parts of the text, and may be used
/// again.
///
/// # Errors
///
/// `AllocError` if memory is refused. A part of the text may have been written.
pub fn write_diffs(line: &mut Line, memory: &mut String, bytes: &[u8]) -> Result<(), AllocError>
    requires { items_have_text (diff_items bytes.now) ≡ true }
    ensures { Writes result line.old line.new (diffs_parts (diff_items bytes.now)) }
{
    line.begin_array()?;
    'diffs: for item in JsonDiffs::new(bytes) {
        write_item(line, memory, &item)?;
    }
    line.end_array()
}
