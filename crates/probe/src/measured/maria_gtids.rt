//! Sums over the fields of MariaDB's GTIDs.
use crate::measured::numbers::write_numbers;
use binlog_file::{BinlogCtx, BinlogFile, BinlogVersion, Error, EventRef};
use binlog_mariadb::{GtidExtra, MariaEventType, MariaGtidEvent, XaId, read_maria_body};
use std::alloc::Global;
use std::io::{BufRead, Write};

/// Writes the line of the sums over a log.
///
/// # Errors
///
/// That of the first item that is one, of a GTID that can't be read, of memory, and of the output.
pub(crate) fn write_sums<R: BufRead + Drop, W: Write>(
    alloc: Global,
    input: R,
    output: &mut W,
) -> Result<(), Error> {
    let sums = sums_of(alloc, input)?;
    write_numbers(&[sums.gtids, sums.xa_bytes, sums.numbers], output)
}

/// Sums over the GTIDs of a log, modulo 2^64.
#[derive(Clone, Copy, Default)]
struct Sums {
    /// The number of GTIDs.
    gtids: u64,
    /// The number of bytes in their XA ids.
    xa_bytes: u64,
    /// All their integer fields.
    numbers: u64,
}

impl Sums {
    // Counts an event if it is a GTID.
    fn count_event(&mut self, alloc: Global, event: EventRef<'_>) -> Result<(), Error> {
        let raw_type = event.header().event_type_raw();
        if raw_type != u8::from(MariaEventType::GTID_EVENT) {
            return Ok(());
        }
        let ctx = BinlogCtx::new(event.frame().len(), event.fde(), raw_type);
        let gtid: MariaGtidEvent<'_> = read_maria_body(alloc, ctx, event.data())?;
        self.count(&gtid);
        Ok(())
    }

    fn count(&mut self, gtid: &MariaGtidEvent<'_>) {
        let commit_id = gtid.commit_id().unwrap_or(0);
        self.gtids = self.gtids.wrapping_add(1);
        self.numbers = self
            .numbers
            .wrapping_add(gtid.sequence())
            .wrapping_add(u64::from(gtid.domain()))
            .wrapping_add(u64::from(gtid.flags_raw()))
            .wrapping_add(commit_id);
        if let Some(xa_id) = gtid.xa_id() {
            self.count_xa_id(xa_id);
        }
        if let Some(extra) = gtid.extra() {
            self.count_extra(extra);
        }
    }

    fn count_xa_id(&mut self, xa_id: &XaId<'_>) {
        let bytes = xa_id.gtrid().len().wrapping_add(xa_id.bqual().len());
        self.xa_bytes = self.xa_bytes.wrapping_add(bytes as u64);
        self.numbers = self.numbers.wrapping_add(u64::from(xa_id.format_id()));
    }

    fn count_extra(&mut self, extra: &GtidExtra<'_>) {
        let sequence = extra.alter_sequence().unwrap_or(0);
        self.numbers = self
            .numbers
            .wrapping_add(u64::from(extra.flags()))
            .wrapping_add(u64::from(extra.engines().unwrap_or(0)))
            .wrapping_add(u64::from(extra.thread_id().unwrap_or(0)))
            .wrapping_add(sequence);
    }
}

// The sums over a binlog file with a file header. The error is that of the first item that is one, or of a GTID that can't be
// read.
fn sums_of<R: BufRead + Drop>(alloc: Global, input: R) -> Result<Sums, Error> {
    match BinlogFile::new(alloc, BinlogVersion::Version4, input) {
        Ok(mut file) => sums_of_events(alloc, &mut file),
        Err(error) => Err(error),
    }
}

fn sums_of_events<R: BufRead + Drop>(
    alloc: Global,
    file: &mut BinlogFile<R>,
) -> Result<Sums, Error> {
    let mut sums = Sums::default();
    // Bounded, so that the loop is proved to end; borrowed events can't be given by an iterator.
    'items: for _ in 0..u64::MAX {
        let Some(item) = file.next_ref() else {
            return Ok(sums);
        };
        sums.count_event(alloc, item?)?;
    }
    Ok(sums)
}
