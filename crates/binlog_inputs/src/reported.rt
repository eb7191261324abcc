//! A visitor that writes messages.
ghost use Rattle.std.specs.Prelude.{◌≡◌, ◌≢◌, codes, false, IfErr};
ghost use Rattle.binlog_wire.specs.declared.error.Error.TheVariants.{Writer};
ghost use Rattle.binlog_inputs.specs.Positions.{positions_of};
ghost use Rattle.binlog_inputs.specs.Reports.{begun_file, ended_file, taking, with_visitor};

use crate::follower::Follower;
use crate::positions::Positions;
use crate::progress::Progress;
use binlog_file::{
    Error, EventData, EventRef, EventStreamReader, GtidTracker, LogEventData, read_log_data,
};
use binlog_filters::Place;
use binlog_payload_filters::PayloadFiltered;
use binlog_payload_visits::first_part_error;
use binlog_visits::{Refusing, Visitor};
use std::alloc::Global;
use std::fmt;
use std::marker::Model;

/// The most bytes that the events inside a compressed transaction may have: 1 GiB. One with more can't be read.
pub const CONTENT_LIMIT: usize = 1_073_741_824;

/// The name of a file in messages: that of standard input for `-`.
pub fn shown_name(name: &str) -> &str
    ensures input { name.now ≡ codes "-" → result.now ≡ codes "standard input" }
    ensures file { name.now ≢ codes "-" → result.now ≡ name.now }
{
    if name == "-" { "standard input" } else { name }
}

/// Writes a message for each error of a file and the progress in it, and shows everything to another visitor.
///
/// Contracts see the other visitor, whether the file has an error, and whether it ends within an event.
#[derive(Drop)]
pub struct Reported<'a, E, T> {
    rt: &'a E,
    file: &'a str,
    // The index of the next item. Where it begins is known to the visitor.
    index: u64,
    progress: Progress,
    // Whether the file has an error.
    has_errors: bool,
    // Whether the file ends within an event.
    is_cut: bool,
    visitor: T,
}

impl<'a, E, T> Model for Reported<'a, E, T> {
    ghost use Rattle.binlog_inputs.specs.Reports.{ReportedView};

    ghost Value = { ReportedView T };

    ghost view = { λ reported. record { visitor = reported.visitor; has_errors = reported.has_errors; is_cut = reported.is_cut } };
}

impl<'a, E, T> Reported<'a, E, T> {
    /// Whether the file has an error.
    pub fn has_errors(&self) -> bool
        ensures { result ≡ self.now.has_errors }
    {
        self.has_errors
    }

    /// Whether the file ends within an event. It has an error then.
    pub fn is_cut(&self) -> bool
        ensures { result ≡ self.now.is_cut }
    {
        self.is_cut
    }

    /// The other visitor.
    pub fn visitor(&self) -> &T
        ensures { result.now ≡ self.now.visitor }
    {
        &self.visitor
    }

    /// The other visitor.
    pub fn into_visitor(self) -> T
        ensures { result ≡ self.entry.visitor }
    {
        self.visitor
    }
}

impl<'a, E: Eprint, T> Reported<'a, E, PayloadFiltered<T>> {
    /// Messages go to the standard error of `rt`.
    pub fn new(rt: &'a E, visitor: PayloadFiltered<T>) -> Self
        ensures { result ≡ record { visitor = visitor; has_errors = false; is_cut = false } }
    {
        Reported {
            rt,
            file: "",
            index: 0,
            progress: Progress::hidden(),
            has_errors: false,
            is_cut: false,
            visitor,
        }
    }

    /// Goes on with another visitor, which is shown what the same filter takes.
    pub fn replace_visitor(&mut self, visitor: T)
    where
        T: Drop,
        ensures { self.new ≡ record self.old { visitor = with_visitor self.old.visitor visitor } }
    {
        self.visitor.filtered.visitor = visitor;
    }

    /// The positions that the filter takes.
    pub fn positions(&self) -> Positions
        ensures { result ≡ positions_of self.now.visitor.filtered.filter }
    {
        Positions::of(self.visitor.filtered.filter.filter())
    }

    /// Goes on with a filter that takes these positions.
    pub fn take_positions(&mut self, positions: Positions)
        ensures { self.new ≡ taking positions self.old }
    {
        positions.put_into(&mut self.visitor.filtered.filter);
    }

    /// Goes on behind a pause between two items, in which a follower does with the other visitor what it does then.
    ///
    /// # Errors
    ///
    /// [`Error::Writer`] if the output failed.
    pub fn pause<F: Follower<T>>(&mut self, follower: &mut F) -> Result<(), Error>
        ensures same { self.new ≡ record self.old { visitor = with_visitor self.old.visitor self.new.visitor.filtered.visitor } }
        ensures rests { F.rests follower.old self.old.visitor.filtered.visitor follower.new self.new.visitor.filtered.visitor }
        ensures err { IfErr result (λ error. error ≡ Writer) }
    {
        follower.rest(&mut self.visitor.filtered.visitor)
    }

    /// Begins with this file, and shows this progress in it.
    pub fn begin(&mut self, file: &'a str, progress: Progress)
        ensures { self.new ≡ begun_file self.old }
    {
        self.file = shown_name(file);
        self.index = 0;
        self.progress = progress;
        self.has_errors = false;
        self.is_cut = false;
        self.visitor.begin();
    }

    /// Ends the file, which is read: wipes the progress in it. If bytes lie behind its last item, they are the beginning of an
    /// event; this is an error of the file, and has its message.
    pub fn end(&mut self, tail_len: usize)
        ensures { self.new ≡ ended_file tail_len self.old }
    {
        self.progress.wipe(self.rt);
        if tail_len == 0 {
            return;
        }
        report_cut(self.rt, self.file, self.place(), tail_len);
        self.has_errors = true;
        self.is_cut = true;
    }

    /// Writes the message of an error of the file as a whole.
    pub fn report_file(&self, error: &Error) {
        let _ = eprintln!(self.rt; "binlog: {}: {error}", self.file);
    }

    /// Writes the message of an error that ended the file, at the next item.
    pub fn report_end(&self, error: &Error) {
        report(self.rt, self.file, self.index, self.place(), error);
    }

    // Where the next item begins, as the filter knows it.
    #[inline(always)]
    fn place(&self) -> Place {
        self.visitor.filtered.place
    }
}

// Writes a message. There is nowhere to say that it can't be written.
fn report<E: Eprint, D: fmt::Display>(rt: &E, file: &str, index: u64, place: Place, error: &D) {
    let _ = match place.position {
        Some(position) => {
            eprintln!(rt; "binlog: {file}: event {index} at byte {position}: {error}")
        }
        None => eprintln!(rt; "binlog: {file}: event {index}: {error}"),
    };
}

// Writes the message of an event that the end of the file cuts: it has this many bytes there, from this place on.
fn report_cut<E: Eprint>(rt: &E, file: &str, place: Place, tail_len: usize) {
    let _ = match place.position {
        Some(position) => {
            eprintln!(rt;
                "binlog: {file}: the last {tail_len} bytes, from byte {position} on, are the beginning of an event"
            )
        }
        None => eprintln!(rt;
            "binlog: {file}: the last {tail_len} bytes are the beginning of an event"
        ),
    };
}

/// Writes the message of events that were left out though they may change a table that is asked for, if there are some.
pub fn report_left_out<E: Eprint>(rt: &E, left_out: u64) {
    if left_out == 0 {
        return;
    }
    let _ = eprintln!(rt;
        "binlog: events left out that don't tell which tables they change: {left_out}"
    );
}

// Writes the message of an event that the other visitor counts as an error: why its GTIDs can't be read or added, which doesn't
// depend on the set, or what in its compressed transaction can't be read.
#[inline(never)]
fn report_refused<E: Eprint + AllocGlobal>(
    rt: &E,
    file: &str,
    index: u64,
    place: Place,
    event: &EventRef<'_>,
    reader: &EventStreamReader,
) {
    if let Err(error) = add_alone(rt.alloc(), event) {
        report(rt, file, index, place, &error);
        return;
    }
    match first_part_error(rt.alloc(), CONTENT_LIMIT, event, reader) {
        Ok(Some(error)) => report(rt, file, index, place, &error),
        Ok(None) => {}
        Err(error) => report(rt, file, index, place, &error),
    }
}

// Adds the GTIDs of an event to an empty set. All GTIDs of MariaDB's that can be read can be added.
fn add_alone(alloc: Global, event: &EventRef<'_>) -> Result<(), Error> {
    let data = read_log_data(alloc, event);
    let added = match &data {
        Ok(Some(LogEventData::Mysql(data))) => add_data(alloc, data),
        Ok(_) => Ok(()),
        Err(error) => Err(*error),
    };
    drop(data);
    added
}

// Adds the GTIDs of what was read to an empty set.
fn add_data(alloc: Global, data: &EventData<'_>) -> Result<(), Error> {
    let mut alone = GtidTracker::new(alloc);
    alone.add_event(data)
}

/// A visit is one of the other visitor, and notes an error.
impl<'a, E: Eprint + AllocGlobal, T: Visitor + Refusing> Visitor
    for Reported<'a, E, PayloadFiltered<T>> {
    ghost use Rattle.binlog_payload_filters.specs.Filtering.{FiltersPayloads, RefusesTaken};
    ghost use Rattle.binlog_inputs.specs.Reports.{Reports};

    ghost visits = { λ old maps index item new. Reports (FiltersPayloads T.visits) (λ filtered. T.refusals filtered.filtered.visitor) old maps index item new };

    ghost refuses = { λ old maps index item error new. RefusesTaken T.refuses old.visitor maps index item error new.visitor };

    #[inline(always)]
    fn visit_event(
        &mut self,
        index: u64,
        event: &EventRef<'_>,
        reader: &EventStreamReader,
    ) -> Result<(), Error> {
        let place = self.place();
        let refused = self.visitor.refused();
        self.index = index.saturating_add(1);
        let answer = self.visitor.visit_event(index, event, reader);
        let behind = self.place();
        self.progress.note(self.rt, behind.position, self.index);
        if self.visitor.refused() != refused {
            self.progress.wipe(self.rt);
            report_refused(self.rt, self.file, index, place, event, reader);
            self.has_errors = true;
        }
        answer
    }

    fn visit_error(
        &mut self,
        index: u64,
        error: &Error,
        reader: &EventStreamReader,
    ) -> Result<(), Error> {
        self.progress.wipe(self.rt);
        report(self.rt, self.file, index, self.place(), error);
        self.has_errors = true;
        self.index = index.saturating_add(1);
        self.visitor.visit_error(index, error, reader)
    }
}
