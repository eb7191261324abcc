//! What the first pass sees of compressed rows.
ghost use Rattle.std.specs.Prelude.{◌≡◌, IfErr, IfOk};
ghost use Rattle.binlog_wire.specs.declared.error.Error.TheVariants.{Memory};
ghost use Rattle.binlog_events.specs.EventRefs.{view_of};
ghost use Rattle.binlog_file.specs.State.{state_of};
ghost use Rattle.binlog_undo_log.specs.Looking.{LooksAtRead, LooksAtBody, LooksAtCompressed};

use crate::compressed::{read_uncompressed, uncompressed_body};
use crate::scan::UndoScan;
use crate::scan::seeing::RowsLook;
use binlog_file::{Error, EventData, EventRef, EventStreamReader};
use binlog_mariadb::{CompressionError, RowsCompressedEvent};
use binlog_undo_index::Reason;

impl UndoScan {
    /// What is seen of compressed rows: what is seen of them as they were. Rows of more than 1 GiB are refused; those whose bytes can't be
    /// decompressed are damaged.
    pub(super) fn look_at_compressed(
        &self,
        event: &EventRef<'_>,
        compressed: &RowsCompressedEvent<'_>,
        reader: &EventStreamReader,
    ) -> Result<RowsLook, Error>
        ensures ok { IfOk result (LooksAtCompressed self.now (state_of reader.now).table_maps (view_of event.now) compressed.now) }
        ensures memory { IfErr result (λ e. e ≡ Memory) }
    {
        match uncompressed_body(self.alloc, event, compressed) {
            Ok(body) => self.look_at_body(event, body.as_slice(), reader),
            Err(CompressionError::Memory) => Err(Error::Memory),
            Err(CompressionError::TooLong) => Ok(RowsLook::Refused(Reason::Compressed)),
            Err(_) => Ok(RowsLook::Damaged),
        }
    }

    // What is seen of an event that was compressed, and had this body.
    fn look_at_body(
        &self,
        event: &EventRef<'_>,
        body: &[u8],
        reader: &EventStreamReader,
    ) -> Result<RowsLook, Error>
        ensures ok { IfOk result (LooksAtBody self.now (state_of reader.now).table_maps (view_of event.now) body.now) }
        ensures memory { IfErr result (λ e. e ≡ Memory) }
    {
        let read = read_uncompressed(self.alloc, event, body);
        let look = self.look_at_read(event, &read, reader);
        drop(read);
        look
    }

    // The same, if this was read of its body.
    fn look_at_read(
        &self,
        event: &EventRef<'_>,
        read: &Result<Option<EventData<'_>>, Error>,
        reader: &EventStreamReader,
    ) -> Result<RowsLook, Error>
        ensures ok { IfOk result (LooksAtRead self.now (state_of reader.now).table_maps (view_of event.now) read.now) }
        ensures memory { IfErr result (λ e. e ≡ Memory) }
    {
        match read {
            Ok(Some(EventData::RowsEvent(rows))) => self.look_at_rows(event, rows, reader),
            Err(Error::Memory) => Err(Error::Memory),
            _ => Ok(RowsLook::Damaged),
        }
    }
}
