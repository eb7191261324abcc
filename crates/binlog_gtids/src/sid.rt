//! The UUIDs of sources.
ghost use Rattle.binlog_wire.specs.Reading.{Gives};
ghost use Rattle.binlog_wire.specs.Fields.{block_at};

use binlog_wire::{Error, ParseBuf};

/// Reads a source's UUID from the start of `buf`.
pub(crate) fn read_sid(buf: &mut ParseBuf<'_>) -> Result<[u8; 16], Error>
    ensures { Gives ⊥ buf.new result (block_at 16 buf.old) }
{
    let (sid, rest) = buf.0.split_first_chunk::<16>().ok_or(Error::EndOfBody)?;
    buf.0 = rest;
    Ok(*sid)
}
