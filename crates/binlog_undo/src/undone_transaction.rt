//! What undoes a row event.
ghost use Rattle.std.specs.Prelude.{◌≡◌, ◌≤◌, length, take, true, OnOk, OnErr, IsOkUnless};
ghost use Rattle.binlog_undo.specs.Events.{IsUnchanged};
ghost use Rattle.binlog_undo.specs.Transactions.{change_events, fits_change, AreWritten, HasGrown, RefusesChange};
ghost use Rattle.binlog_undo.specs.declared.write_error.WriteError.TheVariants.{Memory};

use crate::events_writer::{EventsWriter, place_behind};
use crate::undone_change::UndoneChange;
use crate::write_error::WriteError;
use std::alloc::Global;

impl EventsWriter {
    /// Writes what undoes a row event: its table map, and the event that undoes it.
    ///
    /// # Errors
    ///
    /// - [`WriteError::TooLong`] if one of them has more than 4,294,967,295 bytes, or the place behind them is above 2^64 - 1.
    /// - [`WriteError::Memory`] if memory is refused.
    ///
    /// Neither of them is written then.
    pub fn push_change(
        &mut self,
        alloc: Global,
        change: &UndoneChange<'_>,
    ) -> Result<(), WriteError>
        ensures written { OnOk result (AreWritten (change_events change.now) self.old self.new) }
        ensures refused { RefusesChange self.old change.now result }
        ensures unchanged { OnErr result (IsUnchanged self.old self.new) }
    {
        let between = place_behind(self.has_checksums, self.place, change.map_body)?;
        place_behind(self.has_checksums, between, change.inverse.body())?;
        let (len, place) = (self.bytes.len(), self.place);
        let written = self.push_both(alloc, change);
        if written.is_err() {
            self.bytes.truncate(len);
            self.place = place;
        }
        written
    }

    // Writes the table map and the event, which fit. The table map may be written where memory is refused.
    fn push_both(&mut self, alloc: Global, change: &UndoneChange<'_>) -> Result<(), WriteError>
        requires { fits_change self.old change.now ≡ true }
        ensures written { OnOk result (AreWritten (change_events change.now) self.old self.new) }
        ensures memory { IsOkUnless result Memory }
        ensures grown { OnErr result (HasGrown self.old self.new) }
    {
        self.push_table_map(alloc, &change.map_header, change.map_body)?;
        self.push_inverse(alloc, &change.header, change.inverse)
    }
}
