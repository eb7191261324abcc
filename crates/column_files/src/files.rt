//! The lines of a file of columns.
ghost use Rattle.std.specs.Prelude.{◌≡◌, ◌⊎◌, ◌++◌, ◌<◌, List, ℕ, [], length, option_map, Ok, IfOk, IfErr, IfSome, IfNone};
ghost use Rattle.column_files.specs.declared.error.ColumnFileError.TheVariants.{Memory};
ghost use Rattle.column_files.specs.Reading.{Gives};
ghost use Rattle.column_files.specs.Files.{header, behind_line_feed, behind_end, IsBody, line_at, AreLines, IsFile, IsFaultAt, IsInvalidAfter, IsInvalid};

use crate::error::{ColumnFileError, ColumnFileFault, Fault};
use crate::field::Field;
use crate::reading::{field_at, last_field_at, number_at};
use std::alloc::Global;

/// The first line of a file, without its end: the names of the six columns.
pub const HEADER: &[u8] =
    b"TABLE_SCHEMA\tTABLE_NAME\tORDINAL_POSITION\tCOLUMN_NAME\tCOLUMN_TYPE\tCHARACTER_SET_NAME";

/// The description of a column: a line of the file.
#[derive(Drop)]
pub struct ColumnLine<'a> {
    /// The name of the table's schema.
    pub schema: Field<'a>,
    /// The name of the table.
    pub table: Field<'a>,
    /// The position of the column in its table, from 1.
    pub position: u32,
    /// The name of the column.
    pub name: Field<'a>,
    /// The type, as the server spells it: `int(10) unsigned`.
    pub column_type: Field<'a>,
    /// The name of the character set, or `NULL`.
    pub character_set: Field<'a>,
}

// Reads a line.
#[tactic(auto, unfolding(crate::specs::Files::line_at))]
fn line_at(text: &[u8]) -> Result<(ColumnLine<'_>, &[u8]), Fault>
    ensures value { Gives (λ x. (x.0, x.1.now)) result (line_at text.now) }
    ensures short { IfOk result (λ x. length x.1.now < length text.now) }
{
    let (schema, rest) = field_at(text, b'\t')?;
    let (table, rest) = field_at(rest, b'\t')?;
    let (position, rest) = number_at(rest)?;
    let (name, rest) = field_at(rest, b'\t')?;
    let (column_type, rest) = field_at(rest, b'\t')?;
    let (character_set, rest) = last_field_at(rest)?;
    let line = ColumnLine {
        schema,
        table,
        position,
        name,
        column_type,
        character_set,
    };
    Ok((line, rest))
}

// Reads the line at the start of what is left of a text of this length.
fn next_line(len: usize, rest: &[u8]) -> Result<(ColumnLine<'_>, &[u8]), ColumnFileError>
    ensures ok { IfOk result (λ x. line_at rest.now ≡ Ok (x.0, x.1.now)) }
    ensures shorter { IfOk result (λ x. length x.1.now < length rest.now) }
    ensures err { IfErr result (IsFaultAt len (line_at rest.now)) }
{
    match line_at(rest) {
        Ok(found) => Ok(found),
        Err(fault) => Err(fault.in_text(len)),
    }
}

// Reads all lines of what is left of a text of this length.
fn lines_of<'a>(
    alloc: Global,
    len: usize,
    body: &'a [u8],
) -> Result<Vec<ColumnLine<'a>>, ColumnFileError>
    ensures ok { IfOk result (λ lines. AreLines body.now lines.items []) }
    ensures err { IfErr result (λ e. (e ≡ Memory) ⊎ IsInvalidAfter len body.now e) }
{
    let mut lines = Vec::new(alloc);
    let mut rest = body;
    while !rest.is_empty() {
        let (line, next) = next_line(len, rest)?;
        if lines.push(line).is_err() {
            return Err(ColumnFileError::Memory);
        }
        rest = next;
    }
    Ok(lines)
}

// What is behind the names of the columns.
#[tactic(auto, unfolding(crate::specs::Files::header))]
fn behind_header(text: &[u8]) -> Option<&[u8]>
    ensures some { IfSome result (λ rest. text.now ≡ header ++ rest.now) }
    ensures none { IfNone result ((rest : List ℕ) → ¬ (text.now ≡ header ++ rest)) }
{
    text.strip_prefix(HEADER)
}

// What is behind a line feed.
fn behind_line_feed(text: &[u8]) -> Option<&[u8]>
    ensures { option_map (λ rest. rest.now) result ≡ behind_line_feed text.now }
{
    match text.split_first() {
        Some((b'\n', rest)) => Some(rest),
        _ => None,
    }
}

// What is behind the end of a line.
fn behind_end(text: &[u8]) -> Option<&[u8]>
    ensures { option_map (λ rest. rest.now) result ≡ behind_end text.now }
{
    match text.split_first() {
        Some((b'\r', rest)) => behind_line_feed(rest),
        _ => behind_line_feed(text),
    }
}

// What is behind the first line.
#[tactic(auto, using(crate::proofs::Headers::body_found, crate::proofs::Headers::unended, crate::proofs::Headers::headerless))]
fn body_of(text: &[u8]) -> Option<&[u8]>
    ensures some { IfSome result (λ body. IsBody text.now body.now) }
    ensures none { IfNone result ((body : List ℕ) → ¬ (IsBody text.now body)) }
{
    match behind_header(text) {
        Some(rest) => behind_end(rest),
        None => None,
    }
}

/// Reads the text of a file: a line that is [`HEADER`], and any number of lines, each the description of a column. A line has six
/// fields with tabs between. It ends with a line feed, or with a carriage return and a line feed. The third field is a number from 1
/// on, in decimal digits without a 0 before them; the others are texts in UTF-8, as [`Field`] says. The lines stand in any order; a
/// column may have several, which are all in the list, in the order of the text.
///
/// # Errors
///
/// - [`ColumnFileError::Invalid`] if the text isn't that of a file; with the first fault and its place.
/// - [`ColumnFileError::Memory`] if an allocation fails.
#[tactic(auto, using(crate::proofs::Lines::file_read, crate::proofs::Lines::file_refused))]
pub fn parse(alloc: Global, text: &[u8]) -> Result<Vec<ColumnLine<'_>>, ColumnFileError>
    ensures ok { IfOk result (λ lines. IsFile text.now lines.items) }
    ensures err { IfErr result (λ e. (e ≡ Memory) ⊎ IsInvalid text.now e) }
{
    match body_of(text) {
        Some(body) => lines_of(alloc, text.len(), body),
        None => Err(ColumnFileError::Invalid(ColumnFileFault::Header, 0)),
    }
}
