//! Which documents have a text.
ghost use Rattle.std.specs.Prelude.{IsUtf8};
ghost use Rattle.std.specs.Bool.{OnTrue, OnFalse};
ghost use Rattle.binary_json.specs.Views.{json, document_json};
ghost use Rattle.binary_json.specs.Decoding.{entries_in};
ghost use Rattle.binary_json_lines.specs.HasText.{HasText, ElementsHaveText, MembersHaveText};

use binary_json::{Array, Document, Object, Value};
use std::str;

/// Whether the bytes are UTF-8.
#[tactic(auto, using(crate::proofs::TextTests::ascii_is_utf8))]
pub(crate) fn is_utf8(bytes: &[u8]) -> bool
    ensures is { OnTrue result (IsUtf8 bytes.now) }
    ensures isnt { OnFalse result (¬ (IsUtf8 bytes.now)) }
{
    if bytes.is_ascii() {
        return true;
    }
    match str::from_utf8(bytes) {
        Ok(_) => true,
        Err(_) => false,
    }
}

// Whether all values of an array have a text.
#[cycle(texts)]
fn elements_have_text(array: &Array<'_>) -> bool
    ensures have { OnTrue result (ElementsHaveText (entries_in array.now.container.kind array.now.container.bytes.now)) }
    ensures havent { OnFalse result (¬ (ElementsHaveText (entries_in array.now.container.kind array.now.container.bytes.now))) }
{
    'elements: for value in array.iter() {
        if !value_has_text(&value) {
            return false;
        }
    }
    true
}

// Whether all keys and all values of an object have a text.
#[cycle(texts)]
fn members_have_text(object: &Object<'_>) -> bool
    ensures have { OnTrue result (MembersHaveText (entries_in object.now.container.kind object.now.container.bytes.now)) }
    ensures havent { OnFalse result (¬ (MembersHaveText (entries_in object.now.container.kind object.now.container.bytes.now))) }
{
    'members: for (key, value) in object.iter() {
        if !is_utf8(key) {
            return false;
        }
        if !value_has_text(&value) {
            return false;
        }
    }
    true
}

/// Whether a value of a document has a text: all strings and keys in it are UTF-8, and all its floating-point numbers are finite.
#[cycle(texts)]
pub fn value_has_text(value: &Value<'_>) -> bool
    ensures has { OnTrue result (HasText (json value.now)) }
    ensures hasnt { OnFalse result (¬ (HasText (json value.now))) }
{
    match value {
        Value::F64(double) => double.to_f64().is_finite(),
        Value::String(text) => is_utf8(text),
        Value::Array(array) => elements_have_text(array),
        Value::Object(object) => members_have_text(object),
        _ => true,
    }
}

/// Whether a document has a text, as [`value_has_text`] says of its value. Servers write no others.
pub fn has_text(document: &Document<'_>) -> bool
    ensures has { OnTrue result (HasText (document_json document.now)) }
    ensures hasnt { OnFalse result (¬ (HasText (document_json document.now))) }
{
    value_has_text(&document.value())
}
