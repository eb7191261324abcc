//! The fields of a line.
ghost use Rattle.std.specs.Prelude.{◌≡◌, [], true, IfOk, is_some, option_map, unwrap_or};
ghost use Rattle.column_files.specs.Fields.{step_of, is_plain, escaped, field_text};

use std::alloc::{AllocError, Global};
use std::marker::Model;

/// A field of a line, in place. Contracts see it as its text: in the file a tab, a line feed, a NUL and a backslash of the text are
/// `\t`, `\n`, `\0` and `\\`, and all other bytes are themselves.
#[derive(Drop)]
pub struct Field<'a> {
    raw: &'a [u8],
}

impl<'a> Model for Field<'a> {
    ghost use Rattle.std.specs.Prelude.{◌≡◌, true, [], List, ℕ, is_some, unwrap_or};
    ghost use Rattle.column_files.specs.Fields.{field_text};

    ghost Value = { List ℕ };

    ghost view = { λ field. unwrap_or (field_text field.raw.now) [] };

    ghost invariant = { λ field. is_some (field_text field.raw.now) ≡ true };
}

/// What a byte of a field does.
#[derive(Drop)]
pub(crate) enum Step {
    /// It ends a byte of the text.
    Byte(u8),
    /// It is a backslash that begins one.
    Begun,
    /// It can't stand here.
    Refused,
}

// Whether a byte stands for itself.
fn is_plain(byte: u8) -> bool
    ensures { result ≡ is_plain byte }
{
    !matches!(byte, b'\0' | b'\t' | b'\n' | b'\\')
}

// The byte for which a letter behind a backslash stands.
fn escaped(letter: u8) -> Step
    ensures { result ≡ escaped letter }
{
    match letter {
        b't' => Step::Byte(b'\t'),
        b'n' => Step::Byte(b'\n'),
        b'0' => Step::Byte(b'\0'),
        b'\\' => Step::Byte(b'\\'),
        _ => Step::Refused,
    }
}

// What a byte does, behind a backslash that begins a byte of the text or not.
fn step_of(is_begun: bool, byte: u8) -> Step
    ensures { result ≡ step_of is_begun byte }
{
    if is_begun {
        escaped(byte)
    } else if byte == b'\\' {
        Step::Begun
    } else if is_plain(byte) {
        Step::Byte(byte)
    } else {
        Step::Refused
    }
}

// Whether the bytes are those of a field.
#[tactic(auto, using(crate::proofs::FieldTexts::byte_read, crate::proofs::FieldTexts::escape_begun, crate::proofs::FieldTexts::refused, crate::proofs::FieldTexts::nothing_left))]
fn is_field(raw: &[u8]) -> bool
    ensures { result ≡ is_some (field_text raw.now) }
{
    let mut rest = raw;
    let mut is_begun = false;
    while let Some((byte, behind)) = rest.split_first() {
        match step_of(is_begun, *byte) {
            Step::Byte(_) => is_begun = false,
            Step::Begun => is_begun = true,
            Step::Refused => return false,
        }
        rest = behind;
    }
    !is_begun
}

impl<'a> Field<'a> {
    /// The field of these bytes, if they are those of one.
    pub(crate) fn new(raw: &'a [u8]) -> Option<Self>
        ensures { option_map (λ field. field) result ≡ field_text raw.now }
    {
        if is_field(raw) {
            Some(Field { raw })
        } else {
            None
        }
    }

    /// The text, in memory of its own.
    ///
    /// # Errors
    ///
    /// [`AllocError`] if an allocation fails.
    pub fn text(&self, alloc: Global) -> Result<Vec<u8>, AllocError>
        ensures { IfOk result (λ text. text.items ≡ self.now) }
    {
        text_of(alloc, self.raw)
    }
}

// The text of a field of these bytes.
#[tactic(auto, using(crate::proofs::FieldTexts::text_started, crate::proofs::FieldTexts::byte_added, crate::proofs::FieldTexts::escape_joined, crate::proofs::FieldTexts::never_refused, crate::proofs::FieldTexts::text_ended))]
fn text_of(alloc: Global, raw: &[u8]) -> Result<Vec<u8>, AllocError>
    requires { is_some (field_text raw.now) ≡ true }
    ensures { IfOk result (λ text. text.items ≡ unwrap_or (field_text raw.now) []) }
{
    let mut text = Vec::new(alloc);
    let mut rest = raw;
    let mut is_begun = false;
    while let Some((byte, behind)) = rest.split_first() {
        match step_of(is_begun, *byte) {
            Step::Byte(byte) => {
                text.push(byte)?;
                is_begun = false;
            }
            Step::Begun => is_begun = true,
            Step::Refused => unreachable!(),
        }
        rest = behind;
    }
    Ok(text)
}
