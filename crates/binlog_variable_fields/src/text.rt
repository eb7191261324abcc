//! Strings after a variable-length length.
ghost use Rattle.binlog_wire.specs.Reading.{Gives, result_now};
ghost use Rattle.binlog_variable_fields.specs.VarlenTexts.{varlen_text};

use crate::varlen::Varlen;
use binlog_wire::{Error, IntRepr, ParseBuf};

/// Takes a length, a variable-length integer, and as many bytes from the start of `buf`, and answers the bytes. The
/// only error is [`Error::EndOfBody`], where the bytes end within these. No memory is allocated.
pub fn read_varlen_text<'a>(buf: &mut ParseBuf<'a>) -> Result<&'a [u8], Error>
    ensures { Gives ⊥ buf.new (result_now result) (varlen_text.reads buf.old) }
{
    let len = Varlen::read(buf)?;
    buf.checked_eat(len as usize).ok_or(Error::EndOfBody)
}
