//! Descriptions under which events are written.
ghost use Rattle.std.specs.Prelude.{◌≡◌, is_some};
ghost use Rattle.binlog_undo_log.specs.Descriptions.{has_checksums_under};
ghost use Rattle.binlog_event_format.specs.DescriptionRefs.{description_of};
ghost use Rattle.binlog_undo_log.specs.Heads.{has_lengths, has_algorithm, is_writable, rows_length, has_rows_length};

use binlog_event_format::DescriptionRef;
use binlog_file::{BinlogVersion, EventType};

// Whether the post-headers of QUERY, XID and TABLE_MAP have the lengths of binlog version 4.
fn has_lengths(fde: DescriptionRef<'_>) -> bool
    ensures { result ≡ has_lengths (description_of fde.entry) }
{
    fde.get_event_type_header_length(EventType::QUERY_EVENT) == 13
        && fde.get_event_type_header_length(EventType::XID_EVENT) == 0
        && fde.get_event_type_header_length(EventType::TABLE_MAP_EVENT) == 8
}

// Whether events have no checksum, or a CRC-32.
fn has_algorithm(fde: DescriptionRef<'_>) -> bool
    ensures { result ≡ has_algorithm (description_of fde.entry) }
{
    match fde.footer().checksum_alg_raw() {
        None => true,
        Some(number) => number <= 1,
    }
}

/// Whether the events that undo a log can be written under its description: its binlog version is 4, its algorithm is none or CRC-32, and
/// the post-headers of QUERY, XID and TABLE_MAP have 13, 0 and 8 bytes.
pub fn is_writable(fde: DescriptionRef<'_>) -> bool
    ensures { result ≡ is_writable (description_of fde.entry) }
{
    fde.binlog_version() == BinlogVersion::Version4 && has_algorithm(fde) && has_lengths(fde)
}

// The length of the post-header of row events of this type in binlog version 4.
fn rows_length(event_type: EventType) -> u8
    ensures { result ≡ rows_length event_type }
{
    match event_type {
        EventType::WRITE_ROWS_EVENT_V1
        | EventType::UPDATE_ROWS_EVENT_V1
        | EventType::DELETE_ROWS_EVENT_V1 => 8,
        _ => 10,
    }
}

/// Whether the post-header of row events of this type has the length of binlog version 4. A server may state another one for types that
/// it doesn't write.
pub(crate) fn has_rows_length(fde: DescriptionRef<'_>, event_type: EventType) -> bool
    ensures { result ≡ has_rows_length (description_of fde.entry) event_type }
{
    fde.get_event_type_header_length(event_type) == rows_length(event_type)
}

/// Whether a description states an algorithm: only then it has a checksum itself.
pub(crate) fn states_algorithm(fde: DescriptionRef<'_>) -> bool
    ensures { result ≡ is_some (description_of fde.entry).footer.checksum_alg }
{
    match fde.footer().checksum_alg_raw() {
        Some(_) => true,
        None => false,
    }
}

/// Whether events under a description have a CRC-32: under the algorithm 1.
pub(crate) fn has_checksums(fde: DescriptionRef<'_>) -> bool
    ensures { result ≡ has_checksums_under (description_of fde.entry).footer.checksum_alg }
{
    match fde.footer().checksum_alg_raw() {
        Some(number) => number == 1,
        None => false,
    }
}
