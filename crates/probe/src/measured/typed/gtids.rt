//! Sums over the fields of the GTIDs of a log.
use binlog_file::GtidEvent;

/// Sums over the GTIDs of a log, modulo 2^64.
#[derive(Clone, Copy, Default)]
pub(crate) struct GtidSums {
    /// The number of GTIDs.
    gtids: u64,
    /// The number of bytes in their tags.
    tag_bytes: u64,
    /// The bytes of their SIDs, and all their integer fields.
    numbers: u64,
}

impl GtidSums {
    /// All sums, in order.
    pub(crate) fn numbers(&self) -> [u64; 3] {
        [self.gtids, self.tag_bytes, self.numbers]
    }

    pub(crate) fn count(&mut self, event: &GtidEvent) {
        self.gtids = self.gtids.wrapping_add(1);
        if let Some(tag) = event.tag() {
            self.tag_bytes = self.tag_bytes.wrapping_add(tag.as_str().len() as u64);
        }
        self.numbers = self.numbers.wrapping_add(numbers(event));
    }
}

// The sum of the bytes of the SID and the integer fields.
fn numbers(event: &GtidEvent) -> u64 {
    let numbers = [
        event.gno(),
        event.last_committed(),
        event.sequence_number(),
        event.immediate_commit_timestamp(),
        event.original_commit_timestamp(),
        event.tx_length(),
        u64::from(event.immediate_server_version()),
        u64::from(event.original_server_version()),
        event.commit_group_ticket(),
    ];
    let mut sum = u64::from(event.flags_raw());
    for byte in event.sid() {
        sum = sum.wrapping_add(u64::from(byte));
    }
    for number in numbers {
        sum = sum.wrapping_add(number);
    }
    sum
}
