//! The first pass: the items of a file, from its front to its end.
ghost use Rattle.std.specs.Prelude.{◌≡◌, IfErr, IfOk, OnOk};
ghost use Rattle.binlog_wire.specs.declared.error.Error.TheVariants.{Memory};
ghost use Rattle.binlog_events.specs.EventRefs.{view_of};
ghost use Rattle.binlog_file.specs.State.{state_of};
ghost use Rattle.binlog_undo_log.specs.Contents.{ScansEvent};
ghost use Rattle.binlog_undo_log.specs.Files.{IsFresh};
ghost use Rattle.binlog_undo_log.specs.Scanning.{LooksAtData, IsRole, place_behind, seen_event, SeesData, SeesUnread, SeesRead, Sees, Stops, Describes, DescribesIf, Notes, NotesMark, NotesIf, is_past_stop, Closes, has_no_tail, EndsWhole, EndsScan};

mod compressed_rows;
pub(crate) mod content;
pub(crate) mod seeing;

use crate::choice::Choice;
use crate::looking::{compressed_in, rows_in, seen_mark, table_id_in, unread_mark};
use binlog_file::{
    BinlogFileHeader, Error, EventRef, EventStreamReader, LogEventData, read_log_data,
};
use binlog_mariadb::is_maria_log;
use binlog_transactions::{Mark, Refusal, Role};
use binlog_undo::ForeignKeyChecks;
use binlog_undo_index::{Reason, Rules, SeenEvent, Skips, UndoIndex};
use binlog_visits::Visitor;
use seeing::RowsLook;
use std::alloc::Global;

/// The flag LOG_EVENT_IGNORABLE_F of an event's header.
const IGNORABLE: u16 = 0x80;

/// The first pass over a file: a visitor of its verified items, which keeps the places of the row events that are undone.
pub struct UndoScan {
    alloc: Global,
    choice: Choice,
    checks: ForeignKeyChecks,
    index: UndoIndex,
    place: u64,
    description: Option<u64>,
    is_stopped: bool,
    is_wanted: bool,
    items: u64,
}

impl Drop for UndoScan {
    // By hand, so that it is proved here and not again in each crate that owns a scan.
    fn drop(self) {
        let Self {
            alloc: _,
            choice,
            checks: _,
            index,
            place: _,
            description: _,
            is_stopped: _,
            is_wanted: _,
            items: _,
        } = self;
        drop(choice);
        drop(index);
    }
}

impl UndoScan {
    /// In front of the first item of a file. Transactions that are refused for one of the reasons `skips` alone are left as they are.
    pub fn new(alloc: Global, choice: Choice, checks: ForeignKeyChecks, skips: Skips) -> UndoScan
        ensures { IsFresh choice checks skips result }
    {
        let is_wanted = choice.transactions.takes_first();
        let rules = Rules {
            skips,
            positions: choice.positions(),
        };
        UndoScan {
            alloc,
            choice,
            checks,
            index: UndoIndex::new(alloc, rules),
            place: BinlogFileHeader::LEN as u64,
            description: None,
            is_stopped: false,
            is_wanted,
            items: 0,
        }
    }

    /// What is kept.
    pub fn index(&self) -> &UndoIndex
        ensures { result.now ≡ self.now.index }
    {
        &self.index
    }

    /// How foreign keys are checked while the log that undoes the file is applied.
    pub fn checks(&self) -> ForeignKeyChecks
        ensures { result ≡ self.now.checks }
    {
        self.checks
    }

    /// The place of the description under which all events are that are undone, if there is one.
    pub fn description(&self) -> Option<u64>
        ensures { result ≡ self.now.description }
    {
        self.description
    }

    // What is seen of the rows of an event, if it has rows.
    fn look_at_data(
        &self,
        event: &EventRef<'_>,
        body: &LogEventData<'_>,
        reader: &EventStreamReader,
    ) -> Result<RowsLook, Error>
        ensures ok { IfOk result (LooksAtData self.now (state_of reader.now).table_maps (view_of event.now) body.now) }
        ensures memory { IfErr result (λ e. e ≡ Memory) }
    {
        match rows_in(body) {
            Some(rows) => self.look_at_rows(event, rows, reader),
            None => match compressed_in(body) {
                Some(compressed) => self.look_at_compressed(event, compressed, reader),
                None => Ok(RowsLook::Left),
            },
        }
    }

    // The place behind an event that begins at the place of the pass.
    fn place_behind(&self, event: &EventRef<'_>) -> u64
        ensures { result ≡ place_behind self.now (view_of event.now) }
    {
        self.place.saturating_add(event.frame().len() as u64)
    }

    // The event with this index, this mark and these rows.
    fn seen(
        &self,
        index: u64,
        event: &EventRef<'_>,
        mark: Mark,
        table_id: Option<u64>,
        look: RowsLook,
    ) -> SeenEvent
        ensures { result ≡ seen_event self.now index (view_of event.now) mark table_id look }
    {
        let header = event.header();
        let (change, refusal) = match look {
            RowsLook::Left | RowsLook::Damaged => (None, None),
            RowsLook::Undone(change) => (Some(change), None),
            RowsLook::Refused(reason) => (None, Some(reason)),
        };
        SeenEvent {
            index,
            place: self.place,
            end: self.place_behind(event),
            read_at: self.place,
            mark,
            table_id,
            change,
            refusal,
            takes_first: self.choice.positions().has(self.place)
                && self.choice.takes_first(&header, self.is_wanted),
            takes_last: self.choice.takes_last(&header),
        }
    }

    // What is seen of an event with this data; None if the data isn't that of an event of its type, or compressed rows can't be read.
    fn see_data(
        &self,
        index: u64,
        event: &EventRef<'_>,
        body: &LogEventData<'_>,
        reader: &EventStreamReader,
    ) -> Result<Option<SeenEvent>, Error>
        ensures ok { IfOk result (SeesData self.now (state_of reader.now).table_maps index (view_of event.now) body.now) }
        ensures memory { IfErr result (λ e. e ≡ Memory) }
    {
        let look = self.look_at_data(event, body, reader)?;
        match seen_mark(role_of(event), body, look) {
            Some(mark) => Ok(Some(self.seen(index, event, mark, table_id_in(body), look))),
            None => Ok(None),
        }
    }

    // What is seen of an event whose data can't be read, or isn't known; None if that is damage.
    fn see_unread(&self, index: u64, event: &EventRef<'_>, is_known: bool) -> Option<SeenEvent>
        ensures { SeesUnread self.now index (view_of event.now) is_known result }
    {
        match unread_mark(role_of(event), is_known) {
            Some(mark) => Some(self.seen(index, event, mark, None, RowsLook::Left)),
            None => None,
        }
    }

    // What is seen of an event of which this was read; None if it is damaged.
    fn see_read(
        &self,
        index: u64,
        event: &EventRef<'_>,
        read: &Result<Option<LogEventData<'_>>, Error>,
        reader: &EventStreamReader,
    ) -> Result<Option<SeenEvent>, Error>
        ensures ok { IfOk result (SeesRead self.now (state_of reader.now).table_maps index (view_of event.now) read.now) }
        ensures memory { IfErr result (λ e. e ≡ Memory) }
    {
        match read {
            Ok(Some(body)) => self.see_data(index, event, body, reader),
            Ok(None) => Ok(self.see_unread(index, event, false)),
            Err(Error::Memory) => Err(Error::Memory),
            Err(_) => Ok(self.see_unread(index, event, true)),
        }
    }

    // What is seen of an event; None if it is damaged.
    fn see(
        &self,
        index: u64,
        event: &EventRef<'_>,
        reader: &EventStreamReader,
    ) -> Result<Option<SeenEvent>, Error>
        ensures ok { IfOk result (Sees self.now (state_of reader.now).table_maps index (view_of event.now)) }
        ensures memory { IfErr result (λ e. e ≡ Memory) }
    {
        let read = read_log_data(self.alloc, event);
        let answer = self.see_read(index, event, &read, reader);
        drop(read);
        answer
    }

    // Nothing that follows is looked at.
    fn stop(&mut self, index: u64, reason: Reason) -> Result<(), Error>
        ensures ok { OnOk result (Stops index reason self.old self.new) }
        ensures memory { IfErr result (λ e. e ≡ Memory) }
    {
        self.is_stopped = true;
        self.index.refuse(index, self.place, reason)?;
        Ok(())
    }

    // A description is in force from here on. All events that are undone have to be under one.
    fn describe(&mut self, index: u64) -> Result<(), Error>
        ensures ok { OnOk result (Describes index self.old self.new) }
        ensures memory { IfErr result (λ e. e ≡ Memory) }
    {
        if !self.index.transactions().is_empty() {
            return self.stop(index, Reason::Description);
        }
        self.description = Some(self.place);
        Ok(())
    }

    fn describe_if(&mut self, is_description: bool, index: u64) -> Result<(), Error>
        ensures ok { OnOk result (DescribesIf is_description index self.old self.new) }
        ensures memory { IfErr result (λ e. e ≡ Memory) }
    {
        if is_description {
            return self.describe(index);
        }
        Ok(())
    }

    // Notes what is seen of an event.
    fn note(&mut self, index: u64, event: &EventRef<'_>, seen: &SeenEvent) -> Result<(), Error>
        ensures ok { OnOk result (Notes index (view_of event.now) seen.now self.old self.new) }
        ensures memory { IfErr result (λ e. e ≡ Memory) }
    {
        self.index.note(seen)?;
        self.describe_if(event.is_description(), index)?;
        self.place = self.place_behind(event);
        self.items = index.saturating_add(1);
        Ok(())
    }

    // Notes what is seen of an event, unless it ends the pass.
    fn note_mark(&mut self, index: u64, event: &EventRef<'_>, seen: &SeenEvent) -> Result<(), Error>
        ensures ok { OnOk result (NotesMark seen.now.mark index (view_of event.now) seen.now self.old self.new) }
        ensures memory { IfErr result (λ e. e ≡ Memory) }
    {
        match seen.mark {
            Mark::Encryption => self.stop(index, Reason::Transaction(Refusal::Encrypted)),
            _ => self.note(index, event, seen),
        }
    }

    // Notes what is seen of an event, or that it is damaged.
    fn note_if(
        &mut self,
        index: u64,
        event: &EventRef<'_>,
        seen: Option<SeenEvent>,
    ) -> Result<(), Error>
        ensures ok { OnOk result (NotesIf index (view_of event.now) seen self.old self.new) }
        ensures memory { IfErr result (λ e. e ≡ Memory) }
    {
        match seen {
            Some(seen) => self.note_mark(index, event, &seen),
            None => self.stop(index, Reason::Damaged),
        }
    }

    // Scans an event, or the events inside.
    fn scan_event(
        &mut self,
        index: u64,
        event: &EventRef<'_>,
        reader: &EventStreamReader,
    ) -> Result<(), Error>
        ensures ok { OnOk result (ScansEvent (state_of reader.now).table_maps index (view_of event.now) self.old self.new) }
        ensures memory { IfErr result (λ e. e ≡ Memory) }
    {
        let transactions = &self.choice.transactions;
        let is_wanted = transactions.follow(self.alloc, self.is_wanted, event)?;
        self.is_wanted = is_wanted;
        self.scan_any(index, event, reader)
    }

    // No transaction goes across the end of a file.
    fn end_whole(&mut self) -> Result<(), Error>
        ensures ok { OnOk result (EndsWhole self.old self.new) }
        ensures memory { IfErr result (λ e. e ≡ Memory) }
    {
        let border = SeenEvent {
            index: self.items,
            place: self.place,
            end: self.place,
            read_at: self.place,
            mark: Mark::Border,
            table_id: None,
            change: None,
            refusal: None,
            takes_first: true,
            takes_last: true,
        };
        self.index.note(&border)?;
        Ok(())
    }

    // Whether what follows is behind the stop position, and no transaction is read that begins before it.
    fn is_past_stop(&self) -> bool
        ensures { result ≡ is_past_stop self.now }
    {
        self.choice.positions().is_past(self.place) && !self.index.is_within()
    }

    // The pass ends at the stop position as at the end of a file: nothing that follows is looked at.
    fn close(&mut self) -> Result<(), Error>
        ensures ok { OnOk result (Closes self.old self.new) }
        ensures memory { IfErr result (λ e. e ≡ Memory) }
    {
        self.is_stopped = true;
        self.end_whole()
    }

    /// Behind the last item of a file, behind which this is the length of the tail.
    ///
    /// # Errors
    ///
    /// [`Error::Memory`] if memory is refused.
    pub fn end(&mut self, tail_len: Option<usize>) -> Result<(), Error>
        ensures ok { OnOk result (EndsScan self.old.is_stopped tail_len self.old self.new) }
        ensures memory { IfErr result (λ e. e ≡ Memory) }
    {
        if self.is_stopped {
            return Ok(());
        }
        if has_no_tail(tail_len) || self.is_past_stop() {
            return self.end_whole();
        }
        self.stop(self.items, Reason::Tail)
    }
}

// Whether nothing is behind the last item of a file.
fn has_no_tail(tail_len: Option<usize>) -> bool
    ensures { result ≡ has_no_tail tail_len }
{
    match tail_len {
        Some(tail_len) => tail_len == 0,
        None => false,
    }
}

// The role of an event among transactions.
fn role_of(event: &EventRef<'_>) -> Role
    ensures { IsRole (view_of event.now) result }
{
    let header = event.header();
    Role::of_type(
        header.event_type_raw(),
        is_maria_log(&event.fde()),
        header.flags_raw() & IGNORABLE != 0,
    )
}

/// A visit notes what is seen of the item. It is refused with [`Error::Memory`] alone.
impl Visitor for UndoScan {
    ghost use Rattle.std.specs.Prelude.{◌≡◌};
    ghost use Rattle.binlog_wire.specs.declared.error.Error.TheVariants.{Memory};
    ghost use Rattle.binlog_undo_log.specs.Contents.{ScansItem};

    ghost visits = { λ old maps index item new. ScansItem old.is_stopped maps index item old new };

    ghost refuses = { λ old maps index item error new. error ≡ Memory };

    fn visit_event(
        &mut self,
        index: u64,
        event: &EventRef<'_>,
        reader: &EventStreamReader,
    ) -> Result<(), Error> {
        if self.is_stopped {
            return Ok(());
        }
        if self.is_past_stop() {
            return self.close();
        }
        self.scan_event(index, event, reader)
    }

    fn visit_error(
        &mut self,
        index: u64,
        _error: &Error,
        _reader: &EventStreamReader,
    ) -> Result<(), Error> {
        if self.is_stopped {
            return Ok(());
        }
        if self.is_past_stop() {
            return self.close();
        }
        self.stop(index, Reason::Damaged)
    }
}
