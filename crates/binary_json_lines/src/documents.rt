//! Documents as JSON.
ghost use Rattle.std.specs.Prelude.{IfOk};
ghost use Rattle.binary_json.specs.Values.{scalar, double as double_of, array as array_of, object as object_of};
ghost use Rattle.binary_json.specs.Views.{json, document_json};
ghost use Rattle.binary_json.specs.Decoding.{entries_in};
ghost use Rattle.binary_json_lines.specs.HasText.{HasText};
ghost use Rattle.binary_json_lines.specs.Parts.{Writes};
ghost use Rattle.binary_json_lines.specs.Documents.{value_parts, BeginsText, WritesIfText};

use crate::doubles::write_double;
use crate::opaques::write_opaque;
use binary_json::{Array, Document, Double, Object, Value};
use json_line::Line;
use std::alloc::AllocError;

// Writes the text of an array, or a beginning of it in front of a part that has none. Answers whether the array has a text.
#[cycle(write)]
fn write_array(line: &mut Line, memory: &mut String, array: &Array<'_>) -> Result<bool, AllocError>
    ensures { IfOk result (λ has_text. BeginsText has_text (array_of (entries_in array.now.container.kind array.now.container.bytes.now)) line.old line.new) }
{
    line.begin_array()?;
    'elements: for value in array.iter() {
        if !write_text(line, memory, &value)? {
            return Ok(false);
        }
    }
    line.end_array()?;
    Ok(true)
}

// The same of an object.
#[cycle(write)]
fn write_object(
    line: &mut Line,
    memory: &mut String,
    object: &Object<'_>,
) -> Result<bool, AllocError>
    ensures { IfOk result (λ has_text. BeginsText has_text (object_of (entries_in object.now.container.kind object.now.container.bytes.now)) line.old line.new) }
{
    line.begin_object()?;
    'members: for (key, value) in object.iter() {
        if !line.key_if_utf8(key)? {
            return Ok(false);
        }
        if !write_text(line, memory, &value)? {
            return Ok(false);
        }
    }
    line.end_object()?;
    Ok(true)
}

// Writes a floating-point number, if it is finite. Answers whether it is.
#[tactic(auto, using(crate::proofs::Begun::infinite))]
fn write_finite(line: &mut Line, memory: &mut String, double: &Double) -> Result<bool, AllocError>
    ensures { IfOk result (λ has_text. BeginsText has_text (scalar (double_of double.now.bits)) line.old line.new) }
{
    if !double.to_f64().is_finite() {
        return Ok(false);
    }
    write_double(line, memory, double)?;
    Ok(true)
}

// Writes the text of a value, or a beginning of it in front of a part that has none. Answers whether the value has a text.
#[cycle(write)]
#[tactic(auto, using(crate::proofs::PartLemmas::shows_token, crate::proofs::Begun::string_begun))]
fn write_text(line: &mut Line, memory: &mut String, value: &Value<'_>) -> Result<bool, AllocError>
    ensures { IfOk result (λ has_text. BeginsText has_text (json value.now) line.old line.new) }
{
    match value {
        Value::Null => line.null()?,
        Value::Bool(value) => line.boolean(*value)?,
        Value::I16(number) => line.signed_number(i64::from(*number))?,
        Value::U16(number) => line.number(u64::from(*number))?,
        Value::I32(number) => line.signed_number(i64::from(*number))?,
        Value::U32(number) => line.number(u64::from(*number))?,
        Value::I64(number) => line.signed_number(*number)?,
        Value::U64(number) => line.number(*number)?,
        Value::F64(double) => return write_finite(line, memory, double),
        Value::String(text) => return line.string_if_utf8(text),
        Value::Opaque(opaque) => write_opaque(line, memory, opaque)?,
        Value::Array(array) => return write_array(line, memory, array),
        Value::Object(object) => return write_object(line, memory, object),
    }
    Ok(true)
}

/// Writes the text of a value, if it has one, as [`value_has_text`](crate::value_has_text) says, and answers whether it has one: values
/// and members in the order in which they are stored, integers and decimal numbers with all their digits, floating-point numbers as MySQL
/// prints them, dates and times as strings, and other opaque values as strings with the column type and the bytes in base64. For a value
/// without a text the line stays as it was. `memory` is for parts of the text, and may be used again.
///
/// # Errors
///
/// `AllocError` if memory is refused. A part of the text may have been written.
pub fn write_value_if_text(
    line: &mut Line,
    memory: &mut String,
    value: &Value<'_>,
) -> Result<bool, AllocError>
    ensures { IfOk result (λ has_text. WritesIfText has_text (json value.now) line.old line.new) }
{
    let start = line.mark();
    if !write_text(line, memory, value)? {
        line.cut(start);
        return Ok(false);
    }
    Ok(true)
}

/// Writes the text of a document, if it has one, as [`has_text`](crate::has_text) says: [`write_value_if_text`] of its value.
///
/// # Errors
///
/// `AllocError` if memory is refused. A part of the text may have been written.
pub fn write_document_if_text(
    line: &mut Line,
    memory: &mut String,
    document: &Document<'_>,
) -> Result<bool, AllocError>
    ensures { IfOk result (λ has_text. WritesIfText has_text (document_json document.now) line.old line.new) }
{
    write_value_if_text(line, memory, &document.value())
}

/// Writes the text of a document that has one: [`write_document_if_text`], which always finds one then.
///
/// # Errors
///
/// `AllocError` if memory is refused. A part of the text may have been written.
pub fn write_document(
    line: &mut Line,
    memory: &mut String,
    document: &Document<'_>,
) -> Result<(), AllocError>
    requires { HasText (document_json document.now) }
    ensures { Writes result line.old line.new (value_parts (document_json document.now)) }
{
    if write_text(line, memory, &document.value())? {
        return Ok(());
    }
    unreachable!()
}
