//! Reading and copying. The helpers return plain values and take no runtime, which keeps the tests small and their proofs
//! short.
use binlog_consts::BinlogVersion;
use binlog_event_data::EventData;
use binlog_event_format::{BinlogCtx, BinlogEventHeader, DescriptionRef};
use binlog_wire::{Error, TryClone};
use std::alloc::Global;

/// A GTID with the tag `backup` and the number 1, of the source of 16 bytes `ab`.
pub const BACKUP: &[u8] =
    b"\x02\x88\0\0\0\x02\xad\x02\xad\x02\xad\x02\xad\x02\xad\x02\xad\x02\xad\x02\xad\x02\xad\x02\xad\x02\xad\x02\xad\x02\xad\x02\xad\x02\xad\x02\xad\x02\x04\x04\x06\x0cbackup\x08\0\x0a\0\x0c\x41\x1f\x0e\xa1\x0f\x10\0\x12\xc3\x02\x0b\x14\xa3\xff\x0a";

/// A table map of one column.
pub const ONE_COLUMN: &[u8] = b"\x05\0\0\0\0\0\x01\0\x01d\0\x01t\0\x01\x03\0\x01";

/// Reads the data of an event of this type under the default description.
pub fn read<'a>(alloc: Global, number: u8, body: &'a [u8]) -> Result<Option<EventData<'a>>, Error> {
    let fde = DescriptionRef::new(BinlogVersion::Version4);
    EventData::read(
        alloc,
        BinlogCtx::new(BinlogEventHeader::LEN + body.len(), fde, number),
        body,
    )
}

/// Whether data that was read is equal to its copy; None if there was none.
pub fn is_copied<T: TryClone + PartialEq + Drop>(
    alloc: Global,
    data: Result<Option<T>, Error>,
) -> Result<Option<bool>, Error> {
    let Some(data) = data? else {
        return Ok(None);
    };
    let copy = data.clone(alloc)?;
    Ok(Some(copy == data))
}
