//! Numbers as bytes, and bytes behind their length.
ghost use Rattle.std.specs.Prelude.{◌≡◌, ◌∷◌, ◌++◌, IfOk, OnOk};
ghost use Rattle.byteorder.specs.Endian.{little_bytes};
ghost use Rattle.binary_json.specs.Layout.{width};
ghost use Rattle.binary_json_writing.specs.Written.{variable_bytes, counted_bytes};

use std::alloc::{AllocError, Global};

/// The most bytes of a length behind its first one.
const MORE_BYTES: u8 = 4;

/// The number of bytes of a number in an array or an object of this type.
pub(crate) fn width(kind: u8) -> usize
    ensures { result ≡ width kind }
{
    if kind % 2 == 1 { 4 } else { 2 }
}

/// Appends the two low bytes of a number.
pub(crate) fn push_short(out: &mut Vec<u8>, number: usize) -> Result<(), AllocError>
    ensures { OnOk result (out.new.items ≡ out.old.items ++ little_bytes 2 number) }
{
    out.extend_from_slice(&[(number % 256) as u8, (number / 256 % 256) as u8])
}

// Appends the four low bytes of a number.
fn push_long(out: &mut Vec<u8>, number: usize) -> Result<(), AllocError>
    ensures { OnOk result (out.new.items ≡ out.old.items ++ little_bytes 4 number) }
{
    out.extend_from_slice(&[
        (number % 256) as u8,
        (number / 256 % 256) as u8,
        (number / 65_536 % 256) as u8,
        (number / 16_777_216 % 256) as u8,
    ])
}

/// Appends a number of an array or an object of this type.
pub(crate) fn push_word(out: &mut Vec<u8>, kind: u8, number: usize) -> Result<(), AllocError>
    ensures { OnOk result (out.new.items ≡ out.old.items ++ little_bytes (width kind) number) }
{
    if kind % 2 == 1 {
        push_long(out, number)
    } else {
        push_short(out, number)
    }
}

// Appends a length: seven bits a byte, the least significant first, with at most so many bytes behind the first one.
#[tactic(auto, unfolding(crate::specs::Written::variable_bytes))]
fn push_variable(out: &mut Vec<u8>, most: u8, number: usize) -> Result<(), AllocError>
    ensures { OnOk result (out.new.items ≡ out.old.items ++ variable_bytes most number) }
{
    if most == 0 {
        out.push((number % 128) as u8)?;
        return Ok(());
    }
    if number < 128 {
        out.push(number as u8)?;
        return Ok(());
    }
    out.push((number % 128) as u8 + 128)?;
    push_variable(out, most - 1, number / 128)
}

/// A document: its type and its bytes.
pub(crate) fn document(alloc: Global, kind: u8, bytes: &[u8]) -> Result<Vec<u8>, AllocError>
    ensures { IfOk result (λ v. v.items ≡ kind ∷ bytes.now) }
{
    let mut out = Vec::with_capacity(alloc, bytes.len() + 1)?;
    out.push(kind)?;
    out.extend_from_slice(bytes)?;
    Ok(out)
}

/// Appends bytes behind their length, which is read back if it is below 2^32.
pub(crate) fn push_counted(out: &mut Vec<u8>, bytes: &[u8]) -> Result<(), AllocError>
    ensures { OnOk result (out.new.items ≡ out.old.items ++ counted_bytes bytes.now) }
{
    push_variable(out, MORE_BYTES, bytes.len())?;
    out.extend_from_slice(bytes)
}
