//! Indexes of columns.
ghost use Rattle.binlog_wire.specs.Reading.{Gives};
ghost use Rattle.binlog_optional_metadata.specs.Columns.{column_index};

use binlog_variable_fields::LenEnc;
use binlog_wire::{Error, IntRepr, Invalid, ParseBuf};

/// There is no column with the index.
const NO_COLUMN: Error = Error::InvalidData(Invalid::FieldRange(0));

/// Takes the index of one of this many columns from the start of `buf`.
pub(crate) fn read_column_index(columns: u64, buf: &mut ParseBuf<'_>) -> Result<u64, Error>
    ensures { Gives ⊥ buf.new result ((column_index columns).reads buf.old) }
{
    let index = LenEnc::read(buf)?;
    if index >= columns {
        return Err(NO_COLUMN);
    }
    Ok(index)
}
