//! Writes what is written for the events inside compressed transactions.
ghost use Rattle.std.specs.Prelude.{◌≡◌, Ok, option_copied, IfErr, OnOk};
ghost use Rattle.binlog_events.specs.EventRefs.{view_of};
ghost use Rattle.binlog_file.specs.LogData.{ReadsLogData};
ghost use Rattle.binlog_json_lines.specs.ReadRows.{map_of_rows};
ghost use Rattle.binlog_payload_visits.specs.PartMaps.{maps_of};
ghost use Rattle.binlog_visits.specs.Visits.{IsNoReaderError};
ghost use Rattle.binlog_change_lines.specs.Written.{WritesPart, RefusesPart};

use crate::change_writer::{ChangeWriter, note};
use crate::heads::EventPlace;
use crate::rows_read::rows_read;
use binlog_file::{
    CountedRef, Error, EventRef, LogEventData, RowsEventData, TableMapEvent, read_log_data,
};
use binlog_json_lines::PartPlace;
use binlog_payload_visits::{PartTableMaps, PartVisitor};
use binlog_payloads::PayloadError;
use binlog_visits::write_line;
use std::io::Write;

// The table map in force inside a compressed transaction for the table id of a row event, if one was read.
fn part_table_map<'a, 'c>(
    rows: Option<&RowsEventData<'_>>,
    maps: &'a PartTableMaps<'c>,
) -> Option<&'a TableMapEvent<'c>>
    ensures { option_copied result ≡ map_of_rows (maps_of maps.now) (option_copied rows.entry) }
{
    match rows {
        Some(rows) => maps.get(rows.table_id()),
        None => None,
    }
}

impl<W: Write> ChangeWriter<W> {
    // Visits a part of whose data this was read.
    fn visit_read_part(
        &mut self,
        index: u64,
        number: u64,
        event: &EventRef<'_>,
        read: &Result<Option<LogEventData<'_>>, Error>,
        maps: &PartTableMaps<'_>,
    ) -> Result<(), Error>
        requires { ReadsLogData (view_of event.now) read.now }
        ensures ok { OnOk result (WritesPart W.contents self.old (maps_of maps.now) index number (Ok (view_of event.now)) self.new) }
        ensures err { IfErr result (λ e. RefusesPart W.contents self.old (maps_of maps.now) index number (Ok (view_of event.now)) e self.new) }
        ensures reader { IfErr result IsNoReaderError }
    {
        let table_map = part_table_map(rows_read(event, read), maps);
        let place = EventPlace {
            file: self.file.as_str(),
            position: self.position,
            part: Some(number),
            gtid: self.gtid.as_str(),
        };
        let part = PartPlace { index, number };
        let line = self.lines.read_part_text(
            self.alloc,
            &place,
            part,
            event,
            read,
            table_map,
            &self.options,
        )?;
        note(&mut self.contradictions, table_map, line.contradiction)?;
        let mut output = CountedRef::new(&mut self.output);
        write_line(&mut output, line.text)
    }
}

/// A visit writes the text of the part, at the place of the event with the payload. It is refused as the visit of an item is.
impl<W: Write> PartVisitor for ChangeWriter<W> {
    ghost use Rattle.binlog_change_lines.specs.Written.{WritesPart, RefusesPart};

    ghost visits_part = { λ old maps index number part new. WritesPart W.contents old maps index number part new };

    ghost refuses_part = { λ old maps index number part error new. RefusesPart W.contents old maps index number part error new };

    fn visit_part(
        &mut self,
        index: u64,
        number: u64,
        event: &EventRef<'_>,
        maps: &PartTableMaps<'_>,
    ) -> Result<(), Error> {
        let read = read_log_data(self.alloc, event);
        let visited = self.visit_read_part(index, number, event, &read, maps);
        drop(read);
        visited
    }

    fn visit_part_error(
        &mut self,
        index: u64,
        number: u64,
        error: &PayloadError,
        _maps: &PartTableMaps<'_>,
    ) -> Result<(), Error> {
        let part = PartPlace { index, number };
        let line = self.lines.part_error_line(part, error)?;
        let mut output = CountedRef::new(&mut self.output);
        write_line(&mut output, line)
    }
}
