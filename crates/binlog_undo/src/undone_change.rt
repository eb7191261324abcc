//! Row events that are undone.
use crate::inverse_event::InverseEvent;
use binlog_event_format::BinlogEventHeader;

/// A row event that is undone.
#[derive(Clone, Copy, Debug)]
pub struct UndoneChange<'a> {
    /// The header of its table map.
    pub map_header: BinlogEventHeader,
    /// The body that is written for the table map.
    pub map_body: &'a [u8],
    /// The header of the row event.
    pub header: BinlogEventHeader,
    /// The event that undoes it.
    pub inverse: &'a InverseEvent,
}
