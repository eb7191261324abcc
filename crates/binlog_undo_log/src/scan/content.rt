//! The events inside compressed transactions of MySQL's.
ghost use Rattle.std.specs.Prelude.{◌≡◌, ◌≢◌, [], Ok, Some, IfErr, IfOk, OnOk};
ghost use Rattle.std.specs.Arc.{arc_value};
ghost use Rattle.binlog_wire.specs.declared.error.Error.TheVariants.{Memory};
ghost use Rattle.binlog_event_format.specs.DescriptionRefs.{description_of};
ghost use Rattle.binlog_event_format.specs.Footers.{default_footer};
ghost use Rattle.binlog_events.specs.EventRefs.{view_of};
ghost use Rattle.binlog_file.specs.State.{state_of};
ghost use Rattle.binlog_payloads.specs.Events.{payload_in, payload_of};
ghost use Rattle.binlog_payloads.specs.InnerEvents.{inner_fde};
ghost use Rattle.binlog_undo_log.specs.Contents.{inside, border_of, span_of, ScansInside, ScansNext, ScansEvents, ScansContent, EndsContent, lack_of, IsTakenWhole, SeesWhole, ScansAny};

use crate::compressed::MOST_BYTES;
use crate::scan::UndoScan;
use binlog_event_format::FormatDescriptionEvent;
use binlog_file::{BinlogVersion, Error, EventRef, EventStreamReader};
use binlog_payloads::{
    PayloadError, TransactionPayloadEvent, content_description, read_decompressed,
};
use binlog_transactions::Mark;
use binlog_undo_index::{Reason, SeenEvent};
use std::sync::Arc;

/// Where an event that has others inside is in its file.
#[derive(Clone, Copy)]
pub(crate) struct Span {
    /// Where it begins.
    pub(crate) place: u64,
    /// The place behind it.
    pub(crate) end: u64,
}

/// Why a content, or an event of it, isn't there.
#[derive(Clone, Copy)]
enum Lack {
    /// Memory is refused.
    Memory,
    /// It has too many bytes.
    TooLong,
    /// It is damaged.
    Damaged,
}

// Why it isn't there, by its refusal.
fn lack_of(error: &PayloadError) -> Lack
    ensures { result ≡ lack_of error.now }
{
    match error {
        PayloadError::Memory => Lack::Memory,
        PayloadError::Limit => Lack::TooLong,
        _ => Lack::Damaged,
    }
}

impl UndoScan {
    /// Scans an event, or the events inside.
    pub(super) fn scan_any(
        &mut self,
        index: u64,
        event: &EventRef<'_>,
        reader: &EventStreamReader,
    ) -> Result<(), Error>
        ensures ok { OnOk result (ScansAny (state_of reader.now).table_maps index (view_of event.now) self.old self.new) }
        ensures memory { IfErr result (λ e. e ≡ Memory) }
    {
        match TransactionPayloadEvent::of_event(event) {
            Ok(None) => self.scan_whole(index, event, reader),
            Ok(Some(payload)) => self.scan_payload(index, event, &payload, reader),
            Err(_) => self.stop(index, Reason::Damaged),
        }
    }

    // Scans an event as it is.
    fn scan_whole(
        &mut self,
        index: u64,
        event: &EventRef<'_>,
        reader: &EventStreamReader,
    ) -> Result<(), Error>
        requires { IsTakenWhole (view_of event.now) self.old }
        ensures ok { OnOk result ((seen : _) × SeesWhole (state_of reader.now).table_maps index (view_of event.now) seen self.old self.new) }
        ensures memory { IfErr result (λ e. e ≡ Memory) }
    {
        let seen = self.see(index, event, reader)?;
        self.note_if(index, event, seen)
    }

    // Scans the events inside an event with this payload. It is scanned as it is if a row event is undone that is in its transaction, but
    // outside, or if it has more than 1 GiB inside.
    fn scan_payload(
        &mut self,
        index: u64,
        event: &EventRef<'_>,
        payload: &TransactionPayloadEvent<'_>,
        reader: &EventStreamReader,
    ) -> Result<(), Error>
        requires { payload_in (view_of event.now) ≡ Ok (Some (payload_of payload.now)) }
        ensures ok { OnOk result (ScansAny (state_of reader.now).table_maps index (view_of event.now) self.old self.new) }
        ensures memory { IfErr result (λ e. e ≡ Memory) }
    {
        if !self.index.has_no_change() {
            return self.scan_whole(index, event, reader);
        }
        match payload.decompressed(self.alloc, MOST_BYTES) {
            Ok(content) => self.scan_content(index, event, &content),
            Err(error) => match lack_of(&error) {
                Lack::Memory => Err(Error::Memory),
                Lack::TooLong => self.scan_whole(index, event, reader),
                Lack::Damaged => self.stop(index, Reason::Damaged),
            },
        }
    }

    // Scans the events of this content of an event.
    fn scan_content(
        &mut self,
        index: u64,
        event: &EventRef<'_>,
        content: &[u8],
    ) -> Result<(), Error>
        ensures ok { OnOk result (ScansContent index (view_of event.now) content.now self.old self.new) }
        ensures memory { IfErr result (λ e. e ≡ Memory) }
    {
        let Ok(fde) = content_description(self.alloc, event.fde()) else {
            return Err(Error::Memory);
        };
        let span = self.span_of(event);
        self.place = 0;
        let is_whole = self.scan_events(index, span, &fde, content)?;
        self.place = span.place;
        if is_whole {
            self.end_content(index, span)
        } else {
            self.stop(index, Reason::Damaged)
        }
    }

    // Where an event is that begins at the place of the pass.
    fn span_of(&self, event: &EventRef<'_>) -> Span
        ensures { result ≡ span_of self.now (view_of event.now) }
    {
        Span {
            place: self.place,
            end: self.place_behind(event),
        }
    }

    // Scans the events of a content; false if one is damaged.
    fn scan_events(
        &mut self,
        index: u64,
        span: Span,
        fde: &Arc<FormatDescriptionEvent<'static>>,
        content: &[u8],
    ) -> Result<bool, Error>
        requires { (arc_value fde.now).footer ≡ default_footer }
        ensures ok { IfOk result (λ whole. ScansEvents whole span index (arc_value fde.now) content.now self.old self.new) }
        ensures memory { IfErr result (λ e. e ≡ Memory) }
    {
        let mut reader = EventStreamReader::new(self.alloc, BinlogVersion::Version4);
        let mut left = content;
        'events: while !left.is_empty() {
            if !self.scan_next(index, span, fde, &mut reader, &mut left)? {
                return Ok(false);
            }
        }
        Ok(true)
    }

    // Scans the next event of a content of which these bytes are left; false if it is damaged.
    fn scan_next(
        &mut self,
        index: u64,
        span: Span,
        fde: &Arc<FormatDescriptionEvent<'static>>,
        reader: &mut EventStreamReader,
        left: &mut &[u8],
    ) -> Result<bool, Error>
        requires footer { (arc_value fde.now).footer ≡ default_footer }
        requires some { left.old.now ≢ [] }
        ensures ok { IfOk result (λ more. ScansNext more span index (arc_value fde.now) (state_of reader.old) (state_of reader.new) left.old.now left.new.now self.old self.new) }
        ensures memory { IfErr result (λ e. e ≡ Memory) }
    {
        match read_decompressed(self.alloc, reader, fde, left) {
            Ok(Some(event)) => self.scan_inside(index, span, &event.as_ref(), reader),
            Ok(None) => Ok(false),
            Err(error) => match lack_of(&error) {
                Lack::Memory => Err(Error::Memory),
                Lack::TooLong => Ok(false),
                Lack::Damaged => Ok(false),
            },
        }
    }

    // Scans an event of a content; false if it is damaged.
    fn scan_inside(
        &mut self,
        index: u64,
        span: Span,
        event: &EventRef<'_>,
        reader: &EventStreamReader,
    ) -> Result<bool, Error>
        ensures ok { IfOk result (λ more. ScansInside more span (state_of reader.now).table_maps index (view_of event.now) self.old self.new) }
        ensures memory { IfErr result (λ e. e ≡ Memory) }
    {
        let Some(seen) = self.see(index, event, reader)? else {
            return Ok(false);
        };
        let first = self.inside(span, event, seen);
        self.index.note(&first)?;
        self.place = self.place_behind(event);
        Ok(true)
    }

    // What is seen of an event of a content, where the event is that has it.
    fn inside(&self, span: Span, event: &EventRef<'_>, seen: SeenEvent) -> SeenEvent
        ensures { result ≡ inside span self.now (view_of event.now) seen }
    {
        SeenEvent {
            place: span.place,
            end: span.end,
            takes_first: self.choice.positions().has(span.place)
                && self.choice.takes_first(&event.header(), self.is_wanted),
            ..seen
        }
    }

    // No transaction goes across the end of a content. The pass goes on behind the event that has it.
    fn end_content(&mut self, index: u64, span: Span) -> Result<(), Error>
        ensures ok { OnOk result (EndsContent index span self.old self.new) }
        ensures memory { IfErr result (λ e. e ≡ Memory) }
    {
        let border = SeenEvent {
            index,
            place: span.place,
            end: span.end,
            read_at: span.place,
            mark: Mark::Border,
            table_id: None,
            change: None,
            refusal: None,
            takes_first: true,
            takes_last: true,
        };
        self.index.note(&border)?;
        self.place = span.end;
        self.items = index.saturating_add(1);
        Ok(())
    }
}
