//! A visitor that writes what is written for the items that a filter takes.
ghost use Rattle.std.specs.Prelude.{◌≡◌, [], OnOk, Some};
ghost use Rattle.binlog_change_lines.specs.Written.{Begins, KeepsMost, damaged_of, parts_of, with_positions, writer_of};

use crate::change_writer::ChangeWriter;
use binlog_declared_columns::Contradictions;
use binlog_file::{Error, EventRef, EventStreamReader};
use binlog_filters::{Filter, Place, TableFilter};
use binlog_json_lines::LineOptions;
use binlog_payload_filters::{PayloadFiltered, TakenParts};
use binlog_payload_visits::{Noted, Spliced};
use binlog_statistics::follow_gtid;
use binlog_visits::{Refusing, Visitor};
use std::alloc::{AllocError, Global};
use std::io::Write;

/// Shows a writer of the lines of rows the items that a filter takes, and of the events inside the compressed transactions among them those
/// of the tables that are asked for. It is to be shown all items of a log: the position of an event and the GTID of its transaction are
/// found in the events before it, whichever the filter takes. It counts the events of which a part is an error.
#[derive(Drop)]
pub struct ChangeFilter<W> {
    alloc: Global,
    filtered: PayloadFiltered<Spliced<Noted<TakenParts<ChangeWriter<W>>>>>,
}

impl<W> ChangeFilter<W> {
    /// Writes to this output the lines of rows that this filter takes, inside compressed transactions those of these tables: the
    /// filter's conditions of tables. A compressed transaction with more than `limit` bytes is refused. The files of columns are those of
    /// the options. Nothing is allocated.
    pub fn new(
        alloc: Global,
        filter: Filter,
        tables: Option<TableFilter>,
        limit: usize,
        output: W,
        options: LineOptions,
    ) -> Self
        ensures filter { result.filtered.filtered.filter ≡ filter }
        ensures tables { (parts_of result).tables ≡ tables }
        ensures limits { (result.filtered.limit ≡ limit) × (result.filtered.filtered.visitor.limit ≡ limit) }
        ensures output { (writer_of result).output ≡ output }
        ensures options { (writer_of result).options ≡ options }
        ensures none { (writer_of result).contradictions.columns.entries ≡ [] }
        ensures undamaged { damaged_of result ≡ 0 }
    {
        let writer = ChangeWriter::new(alloc, output, options);
        let taken = TakenParts::new(alloc, tables, writer);
        let spliced = Spliced::new(alloc, limit, Noted::new(taken));
        ChangeFilter {
            alloc,
            filtered: PayloadFiltered::new(alloc, limit, filter, spliced),
        }
    }

    /// Begins with the file of this name, in which no transaction has begun. The events that were left out stay counted.
    ///
    /// # Errors
    ///
    /// [`AllocError`] if an allocation fails. Nothing is written then, and nothing that is noted is lost.
    pub fn begin(&mut self, file: &str) -> Result<(), AllocError>
        ensures ok { OnOk result (Begins file.now self.old self.new) }
        ensures kept { KeepsMost self.old self.new }
    {
        self.filtered.begin();
        let writer = &mut self.filtered.filtered.visitor.visitor.visitor.visitor;
        writer.begin(file)
    }

    /// The filter.
    pub fn filter(&self) -> &Filter
        ensures { result.now ≡ self.now.filtered.filtered.filter }
    {
        self.filtered.filtered.filter.filter()
    }

    /// Goes on with a filter that takes the positions from `start` on, before `stop` if there is one.
    pub fn take_positions(&mut self, start: u64, stop: Option<u64>)
        ensures { self.new ≡ with_positions self.old start stop }
    {
        self.filtered.filtered.filter.set_positions(start, stop);
    }

    /// Goes on at this byte of the file: the items in front of it aren't shown.
    pub fn go_on_at(&mut self, position: u64)
        ensures { self.new ≡ record self.old { filtered = record self.old.filtered { filtered = record self.old.filtered.filtered { place = record { position = Some position } } } } }
    {
        self.filtered.filtered.place = Place {
            position: Some(position),
        };
    }

    /// How many events the filter left out though they may change one of its tables.
    pub fn left_out(&self) -> u64
        ensures { result ≡ self.now.filtered.filtered.state.left_out }
    {
        self.filtered.filtered.state.left_out
    }

    /// The tables so far that contradict the files of columns: each once, with the first column of the first row event in which one
    /// did.
    pub fn contradictions(&self) -> &Contradictions
        ensures { result.now ≡ (writer_of self.now).contradictions }
    {
        &self
            .filtered
            .filtered
            .visitor
            .visitor
            .visitor
            .visitor
            .contradictions
    }

    /// The output.
    pub fn into_output(self) -> W
        ensures { result ≡ (writer_of self).output }
    {
        let filtered = self.filtered;
        let within = filtered.filtered;
        let spliced = within.visitor;
        let noted = spliced.visitor;
        let taken = noted.visitor;
        let writer = taken.visitor;
        writer.output
    }
}

/// A visit is one of the filter, with a writer that is told where the item stands. It is refused as that of the filter is, or with
/// [`Error::Memory`] if an allocation failed for a GTID; nothing is written then.
impl<W: Write> Visitor for ChangeFilter<W> {
    ghost use Rattle.binlog_change_lines.specs.Written.{WritesTaken, RefusesTold};

    ghost visits = { λ old maps index item new. WritesTaken W.contents old maps index item new };

    ghost refuses = { λ old maps index item error new. RefusesTold W.contents old maps index item error new };

    #[inline(always)]
    fn visit_event(
        &mut self,
        index: u64,
        event: &EventRef<'_>,
        reader: &EventStreamReader,
    ) -> Result<(), Error> {
        let position = self.filtered.filtered.place.of_event(event);
        let writer = &mut self.filtered.filtered.visitor.visitor.visitor.visitor;
        writer.position = position;
        follow_gtid(&mut writer.gtid, self.alloc, event)?;
        self.filtered.visit_event(index, event, reader)
    }

    fn visit_error(
        &mut self,
        index: u64,
        error: &Error,
        reader: &EventStreamReader,
    ) -> Result<(), Error> {
        let writer = &mut self.filtered.filtered.visitor.visitor.visitor.visitor;
        writer.gtid.clear();
        self.filtered.visit_error(index, error, reader)
    }
}

/// An event of which a part is an error is one for the log. Other data that can't be read has its line, and is none.
impl<W> Refusing for ChangeFilter<W> {
    ghost use Rattle.binlog_change_lines.specs.Written.{damaged_of};

    ghost refusals = { λ lines. damaged_of lines };

    fn refused(&self) -> u64 {
        self.filtered.refused()
    }
}
