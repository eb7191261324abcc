//! The command that writes the rows of logs, a line for each.
ghost use Rattle.std.specs.Prelude.{◌≡◌, ◌⊎◌, ◌^◌, IfErr, IfOk, OnOk};
ghost use Rattle.std.specs.Io.Buffered.{writer_capacity};
ghost use Rattle.clap.specs.Matches.{found_of};
ghost use Rattle.binlog_change_lines.specs.Written.{damaged_of, parts_of, writer_of};
ghost use Rattle.binlog_cli.specs.FilterWords.{NeverBegins};
ghost use Rattle.binlog_cli.specs.declared.exit_status.Status.TheVariants.{Fine};
ghost use Rattle.binlog_event_commands.specs.Changes.{ChangesFile, ChangesFiles, WritesChanges};
ghost use Rattle.binlog_event_commands.specs.Columns.{AreColumnFiles, IsUnreadColumns};
ghost use Rattle.binlog_inputs.specs.Reading.{unless_followed, ShowsFile};
ghost use Rattle.binlog_inputs.specs.Requests.{StatesTablesOf, lines_capacity};
ghost use Rattle.binlog_inputs.specs.StandardOutput.{IsApart};

use crate::columns::{read_columns, report_contradictions};
use binlog_change_lines::ChangeFilter;
use binlog_cli::{Outcome, Status, filter, out_of_memory};
use binlog_file::{BinlogFileHeader, Error, Retrying};
use binlog_filters::Filter;
use binlog_inputs::{
    CONTENT_LIMIT, Follower, Inputs, Positions, Reading, Reported, Request, begin_output, follow,
    goes_on, read_file, report_left_out,
};
use binlog_json_lines::LineOptions;
use binlog_payload_filters::PayloadFiltered;
use binlog_visits::{Refusing, Visitor};
use std::alloc::AllocError;
use std::io::{BufWriter, Write};
use std::time::Clock;

/// `binlog json --compact`: writes the lines of the rows of the events that the filter takes, and of those inside compressed
/// transactions that are of the tables that it asks for. An event whose payload can't be read is damaged. The files of columns are read
/// before; behind the logs each table that contradicts them has a message.
///
/// # Errors
///
/// The status of a command that can't begin, after its message: [`Status::Usage`] if an option or a file of columns can't be read,
/// [`Status::Failed`] if there is no memory, or if standard output is one of the files that are read.
pub fn changes<'a, S: Inputs, R: Clock + Eprint + AllocGlobal, W: Write + Drop>(
    rt: &'a R,
    inputs: &S,
    request: &Request<'_, 'a>,
    writer: W,
) -> Result<(Status, W), Status>
    ensures ok { IfOk result (λ ended. WritesChanges ⟦<BufWriter<Retrying<W>> as Write>⟧.contents (found_of request.now.options.now) request.now.reading.is_verified request.now.reading.is_followed
        (λ name. name.now) (λ name. S.bytes inputs.now name.now) request.now.files.now
        (λ lines. (lines.filtered.limit ≡ 2 ^ 30) × (lines.filtered.filtered.visitor.limit ≡ 2 ^ 30) × (damaged_of lines ≡ 0) × StatesTablesOf (found_of request.now.options.now) (parts_of lines).tables
        × ((writer_of lines).options.keeps_stored ≡ request.now.keeps_stored)
        × AreColumnFiles (λ name. S.bytes inputs.now name.now) request.now.columns.now (writer_of lines).options.files.items
        × (writer_capacity (writer_of lines).output.inner ≡ lines_capacity request.now.reading.is_followed))
        (W.contents writer) ended.0 (W.contents ended.1)) }
    ensures apart { OnOk result (IsApart (S.has_named inputs.now) (λ name. name.now) request.now.files.now) }
    ensures columns { OnOk result (IsApart (S.has_named inputs.now) (λ name. name.now) request.now.columns.now) }
    ensures err { IfErr result (λ status. NeverBegins (found_of request.now.options.now) status ⊎ IsUnreadColumns request.now.columns.now status) }
{
    let capacity = request.reading.output_capacity();
    let output = begin_output(rt, inputs, request, capacity, writer)?;
    let files = read_columns(rt, inputs, request.columns)?;
    let mut asked = filter(rt, request.options)?;
    let tables = asked.tables.take();
    let filter = filter(rt, request.options)?;
    let options = LineOptions {
        keeps_stored: request.keeps_stored,
        files,
    };
    let lines = ChangeFilter::new(rt.alloc(), filter, tables, CONTENT_LIMIT, output, options);
    let (outcome, lines) = write_files(rt, inputs, request.files, request.reading, lines);
    report_left_out(rt, lines.left_out());
    report_contradictions(rt, lines.contradictions());
    Ok(lines.into_output().finish(rt, outcome))
}

// Writes the lines of files in order. Only the last one is followed. The positions of the filter are one of the first file and one of the
// last file. If the output fails, no further file is read, and the outcome says so.
fn write_files<'a, S: Inputs, R: Clock + Eprint + AllocGlobal, W: Write + Drop>(
    rt: &'a R,
    inputs: &S,
    names: &[&'a str],
    reading: Reading,
    lines: ChangeFilter<W>,
) -> (Outcome, ChangeFilter<W>)
    ensures { ChangesFiles W.contents reading.is_verified reading.is_followed (λ name. name.now) (λ name. S.bytes inputs.now name.now) names.now Fine lines result.0 result.1 }
{
    let mut lines = lines;
    let asked = Positions::of(lines.filter());
    let mut status = Status::Fine;
    for (place, name) in names.iter().enumerate() {
        let is_last = place + 1 == names.len();
        let positions = asked.in_file(place == 0, is_last);
        lines.take_positions(positions.start, positions.stop);
        let (read, behind) = write_file(rt, inputs, name, reading.of_file(is_last), lines);
        lines = behind;
        match read {
            Ok(found) => status = status.worse(found),
            Err(_) => return (Outcome::unwritten(status), lines),
        }
    }
    (Outcome::written(status), lines)
}

// Writes the lines of a file. The only error is that the output failed.
fn write_file<'a, S: Inputs, R: Clock + Eprint + AllocGlobal, W: Write + Drop>(
    rt: &'a R,
    inputs: &S,
    name: &'a str,
    reading: Reading,
    lines: ChangeFilter<W>,
) -> (Result<Status, Error>, ChangeFilter<W>)
    ensures { ChangesFile W.contents reading.is_verified (unless_followed reading.is_followed (S.bytes inputs.now name.now)) name.now lines result.0 result.1 }
{
    let mut lines = lines;
    let positions = Positions::of(lines.filter());
    let mut files = NamedFile { name, positions };
    match lines.begin(name) {
        Ok(()) => { show_file(rt, inputs, name, reading, lines, &mut files) }
        Err(_) => (Ok(out_of_memory(rt)), lines),
    }
}

// The file that is named of a log that is followed, and the positions that are taken of it. Lines of rows have the names of all files
// that are followed, and the places in them.
#[derive(Clone, Copy)]
struct NamedFile<'a> {
    name: &'a str,
    positions: Positions,
}

impl<'a, W> Follower<ChangeFilter<W>> for NamedFile<'a> {
    ghost rests = { λ old shown new after. (new ≡ old) × (after ≡ shown) };

    fn begin_file(
        &mut self,
        lines: &mut ChangeFilter<W>,
        path: &str,
        start: u64,
    ) -> Result<(), AllocError> {
        lines.begin(path)?;
        let positions = self.positions.in_followed(path == self.name);
        lines.take_positions(positions.start, positions.stop);
        lines.go_on_at(start.max(BinlogFileHeader::LEN as u64));
        Ok(())
    }

    fn rest(&mut self, _lines: &mut ChangeFilter<W>) -> Result<(), Error> {
        Ok(())
    }
}

// Shows a visitor all items of a file. If it is followed, the follower is told of each file.
fn show_file<
    'a,
    S: Inputs,
    R: Clock + Eprint + AllocGlobal,
    T: Visitor + Refusing + Drop,
    F: Follower<T>,
>(
    rt: &'a R,
    inputs: &S,
    name: &'a str,
    reading: Reading,
    visitor: T,
    follower: &mut F,
) -> (Result<Status, Error>, T)
    ensures { ShowsFile T.visits T.refuses T.refusals reading.is_verified (unless_followed reading.is_followed (S.bytes inputs.now name.now)) visitor result.0 result.1 }
{
    let every = Filter::new(rt.alloc());
    let all = PayloadFiltered::new(rt.alloc(), CONTENT_LIMIT, every, visitor);
    if goes_on(name, reading) {
        let (read, all) = follow(rt, inputs, name, all, follower);
        return (read, all.filtered.visitor);
    }
    let mut reported = Reported::new(rt, all);
    let read = read_file(rt, inputs, name, reading, &mut reported);
    (read, reported.into_visitor().filtered.visitor)
}
