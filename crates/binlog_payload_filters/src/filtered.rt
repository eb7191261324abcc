//! A visitor that is shown the events that a filter takes, by what is inside compressed transactions.
ghost use Rattle.std.specs.Prelude.{◌≡◌, true, None, Ok, OnOk, IfErr, IfOk};
ghost use Rattle.binlog_wire.specs.declared.error.Error.TheVariants.{Memory};
ghost use Rattle.binlog_events.specs.EventRefs.{view_of};
ghost use Rattle.binlog_file.specs.State.{state_of};
ghost use Rattle.binlog_visits.specs.Visits.{IsNoReaderError};
ghost use Rattle.binlog_filters.specs.Filtering.{begun};
ghost use Rattle.binlog_payload_filters.specs.Payloads.{is_payload};
ghost use Rattle.binlog_payload_filters.specs.Taking.{TakesIfMet};
ghost use Rattle.binlog_payload_filters.specs.Filtering.{FiltersPayloads, RefusesTaken, ShowsPayload, RefusesPayload};

use crate::concerned::takes_content;
use binlog_consts::EventType;
use binlog_events::EventRef;
use binlog_file::EventStreamReader;
use binlog_filters::{Filter, Filtered, TableFilter};
use binlog_visits::{Refusing, Visitor};
use binlog_wire::Error;
use std::alloc::Global;

/// Shows a visitor the events of a log that a filter takes, and each error, as [`Filtered`] does. If the filter has conditions of
/// tables, they take an event with a payload by the events inside: if one of these is of the tables, or may change one of them,
/// or if something in the payload can't be read.
#[derive(Drop)]
pub struct PayloadFiltered<T> {
    alloc: Global,
    /// The most bytes of a content: one with more can't be read.
    pub limit: usize,
    /// The filter, and the visitor.
    pub filtered: Filtered<T>,
}

impl<T> PayloadFiltered<T> {
    /// The visitor is shown what the filter takes of a log.
    pub fn new(alloc: Global, limit: usize, filter: Filter, visitor: T) -> Self
        ensures limit { result.limit ≡ limit }
        ensures filter { result.filtered.filter ≡ filter }
        ensures visitor { result.filtered.visitor ≡ visitor }
        ensures start { result.filtered ≡ begun result.filtered }
        ensures none { result.filtered.state.left_out ≡ 0 }
    {
        PayloadFiltered {
            alloc,
            limit,
            filtered: Filtered::new(alloc, filter, visitor),
        }
    }

    /// Begins with another log. The events that were left out stay counted.
    pub fn begin(&mut self)
        ensures { self.new ≡ record self.old { filtered = begun self.old.filtered } }
    {
        self.filtered.begin();
    }
}

impl<T: Visitor> PayloadFiltered<T> {
    // Shows an event with a payload, if the filter takes it. It isn't inlined, so that a visit of other events is made in one place.
    #[inline(never)]
    fn visit_with_payload(
        &mut self,
        index: u64,
        event: &EventRef<'_>,
        reader: &EventStreamReader,
    ) -> Result<(), Error>
        requires { is_payload (view_of event.now) ≡ true }
        ensures ok { OnOk result (FiltersPayloads T.visits self.old (state_of reader.now).table_maps index (Ok (view_of event.now)) self.new) }
        ensures err { IfErr result (λ e. RefusesTaken T.refuses self.old (state_of reader.now).table_maps index (Ok (view_of event.now)) e self.new) }
        ensures reader { IfErr result IsNoReaderError }
    {
        match self.filtered.filter.take_tables() {
            None => self.filtered.visit_event(index, event, reader),
            Some(tables) => {
                let answer = self.visit_payload(&tables, index, event, reader);
                self.filtered.filter.set_tables(tables);
                answer
            }
        }
    }

    // Shows an event with a payload, if each condition takes it. The filter's conditions of tables are passed apart.
    fn visit_payload(
        &mut self,
        tables: &TableFilter,
        index: u64,
        event: &EventRef<'_>,
        reader: &EventStreamReader,
    ) -> Result<(), Error>
        requires tables { self.old.filtered.filter.tables ≡ None }
        requires payload { is_payload (view_of event.now) ≡ true }
        ensures ok { OnOk result (ShowsPayload T.visits tables.now self.old (state_of reader.now).table_maps index (view_of event.now) self.new) }
        ensures err { IfErr result (λ e. RefusesPayload T.refuses tables.now self.old (state_of reader.now).table_maps index (view_of event.now) e self.new) }
        ensures reader { IfErr result IsNoReaderError }
    {
        let start = self.filtered.place.of_event(event);
        let (state, meets) = self
            .filtered
            .filter
            .filter()
            .decide(self.alloc, self.filtered.state, start, event, reader)?;
        let is_taken = self.takes_if_met(meets, tables, event, reader)?;
        self.filtered.state = state;
        self.filtered.place = self.filtered.place.behind_event(event);
        if !is_taken {
            return Ok(());
        }
        self.filtered.visitor.visit_event(index, event, reader)
    }

    // Whether an event with a payload is taken, where `meets` says whether each condition but those of tables takes it.
    fn takes_if_met(
        &self,
        meets: bool,
        tables: &TableFilter,
        event: &EventRef<'_>,
        reader: &EventStreamReader,
    ) -> Result<bool, Error>
        ensures ok { IfOk result (TakesIfMet meets self.now.limit tables.now (view_of event.now)) }
        ensures memory { IfErr result (λ e. e ≡ Memory) }
    {
        if !meets {
            return Ok(false);
        }
        takes_content(self.alloc, self.limit, tables, event, reader)
    }
}

// Whether an event has a payload, by its type.
#[inline(always)]
fn is_payload(event: &EventRef<'_>) -> bool
    ensures { result ≡ is_payload (view_of event.now) }
{
    event.header().event_type_raw() == EventType::TRANSACTION_PAYLOAD_EVENT as u8
}

/// A visit of an item that the filter takes is one of the visitor; another one leaves the visitor as it was.
impl<T: Visitor> Visitor for PayloadFiltered<T> {
    ghost use Rattle.binlog_payload_filters.specs.Filtering.{FiltersPayloads, RefusesTaken};

    ghost visits = { λ old maps index item new. FiltersPayloads T.visits old maps index item new };

    ghost refuses = { λ old maps index item error new. RefusesTaken T.refuses old maps index item error new };

    #[inline(always)]
    fn visit_event(
        &mut self,
        index: u64,
        event: &EventRef<'_>,
        reader: &EventStreamReader,
    ) -> Result<(), Error> {
        if is_payload(event) {
            return self.visit_with_payload(index, event, reader);
        }
        self.filtered.visit_event(index, event, reader)
    }

    fn visit_error(
        &mut self,
        index: u64,
        error: &Error,
        reader: &EventStreamReader,
    ) -> Result<(), Error> {
        self.filtered.visit_error(index, error, reader)
    }
}

impl<T: Refusing> Refusing for PayloadFiltered<T> {
    ghost refusals = { λ filtered. T.refusals filtered.filtered.visitor };

    fn refused(&self) -> u64 {
        self.filtered.refused()
    }
}
