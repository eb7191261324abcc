//! The commands that list events. Each is generic over the files that it reads and its writer, which it gives back with its
//! status. A status in place of a result is that of a command that can't begin.
ghost use Rattle.std.specs.Prelude.{◌≡◌, ◌⊎◌, ◌^◌, IfErr, IfOk, OnOk};
ghost use Rattle.std.specs.Io.Buffered.{writer_capacity};
ghost use Rattle.clap.specs.Matches.{found_of};
ghost use Rattle.binlog_cli.specs.FilterWords.{NeverBegins};
ghost use Rattle.binlog_event_commands.specs.Columns.{AreColumnFiles, IsUnreadColumns};
ghost use Rattle.binlog_event_commands.specs.Commands.{WritesShown};
ghost use Rattle.binlog_inputs.specs.Requests.{StatesTablesOf, lines_capacity};
ghost use Rattle.binlog_inputs.specs.StandardOutput.{IsApart};

use crate::columns::{read_columns, report_contradictions};
use binlog_cli::{Output, Status, filter};
use binlog_file::{Counted, Retrying};
use binlog_inputs::{CONTENT_LIMIT, Inputs, Request, begin_output, read_all};
use binlog_json_lines::{JsonWriter, LineOptions};
use binlog_listing::TextLines;
use binlog_payload_filters::TakenParts;
use binlog_payload_visits::{Noted, Spliced};
use binlog_visits::{ItemLines, LineWriter, Visitor};
use std::io::{BufWriter, Write};
use std::time::Clock;

/// `binlog list`: writes the line of the listing of each item that the filter takes.
///
/// # Errors
///
/// The status of a command that can't begin, after its message: [`Status::Usage`] if an option can't be read, [`Status::Failed`] if
/// there is no memory, or if standard output is one of the files that are read.
pub fn list<'a, S: Inputs, R: Clock + Eprint + AllocGlobal, W: Write + Drop>(
    rt: &'a R,
    inputs: &S,
    request: &Request<'_, 'a>,
    writer: W,
) -> Result<(Status, W), Status>
    ensures ok { IfOk result (λ ended. WritesShown ⟦<BufWriter<Retrying<W>> as Write>⟧.contents (found_of request.now.options.now) request.now.reading.is_verified request.now.reading.is_followed
        (λ name. S.bytes inputs.now name.now) request.now.files.now
        ⟦<LineWriter<TextLines, Counted<Output<BufWriter<Retrying<W>>>>> as Visitor>⟧.visits ⟦<LineWriter<TextLines, Counted<Output<BufWriter<Retrying<W>>>>> as Visitor>⟧.refuses (λ lines. 0) (λ lines. lines.output.inner)
        (λ lines. writer_capacity lines.output.inner.inner ≡ lines_capacity request.now.reading.is_followed)
        (W.contents writer) ended.0 (W.contents ended.1)) }
    ensures apart { OnOk result (IsApart (S.has_named inputs.now) (λ name. name.now) request.now.files.now) }
    ensures err { IfErr result (λ status. NeverBegins (found_of request.now.options.now) status) }
{
    write_lines(rt, inputs, request, TextLines::new(), writer)
}

/// `binlog json`: writes the line of JSON of each item that the filter takes, with the stored bytes of all rows if they are asked
/// for, and behind that of an event with a payload those of the events in it, of the tables that the filter asks for. An event whose
/// payload can't be read is damaged. The files of columns are read before; behind the logs each table that contradicts them has a message.
///
/// # Errors
///
/// The status of a command that can't begin, after its message: [`Status::Usage`] if an option or a file of columns can't be read,
/// [`Status::Failed`] if there is no memory, or if standard output is one of the files that are read.
pub fn json<'a, S: Inputs, R: Clock + Eprint + AllocGlobal, W: Write + Drop>(
    rt: &'a R,
    inputs: &S,
    request: &Request<'_, 'a>,
    writer: W,
) -> Result<(Status, W), Status>
    ensures ok { IfOk result (λ ended. WritesShown ⟦<BufWriter<Retrying<W>> as Write>⟧.contents (found_of request.now.options.now) request.now.reading.is_verified request.now.reading.is_followed
        (λ name. S.bytes inputs.now name.now) request.now.files.now
        ⟦<Spliced<Noted<TakenParts<JsonWriter<Output<BufWriter<Retrying<W>>>>>>> as Visitor>⟧.visits ⟦<Spliced<Noted<TakenParts<JsonWriter<Output<BufWriter<Retrying<W>>>>>>> as Visitor>⟧.refuses
        (λ spliced. spliced.visitor.damaged) (λ spliced. spliced.visitor.visitor.visitor.output)
        (λ spliced. (spliced.limit ≡ 2 ^ 30) × (spliced.visitor.damaged ≡ 0) × StatesTablesOf (found_of request.now.options.now) spliced.visitor.visitor.tables
        × (spliced.visitor.visitor.visitor.options.keeps_stored ≡ request.now.keeps_stored)
        × AreColumnFiles (λ name. S.bytes inputs.now name.now) request.now.columns.now spliced.visitor.visitor.visitor.options.files.items
        × (writer_capacity spliced.visitor.visitor.visitor.output.inner ≡ lines_capacity request.now.reading.is_followed))
        (W.contents writer) ended.0 (W.contents ended.1)) }
    ensures apart { OnOk result (IsApart (S.has_named inputs.now) (λ name. name.now) request.now.files.now) }
    ensures columns { OnOk result (IsApart (S.has_named inputs.now) (λ name. name.now) request.now.columns.now) }
    ensures err { IfErr result (λ status. NeverBegins (found_of request.now.options.now) status ⊎ IsUnreadColumns request.now.columns.now status) }
{
    let capacity = request.reading.output_capacity();
    let output = begin_output(rt, inputs, request, capacity, writer)?;
    let files = read_columns(rt, inputs, request.columns)?;
    let options = LineOptions {
        keeps_stored: request.keeps_stored,
        files,
    };
    let lines = JsonWriter::new(rt.alloc(), output, options);
    let mut asked = filter(rt, request.options)?;
    let tables = asked.tables.take();
    let taken = TakenParts::new(rt.alloc(), tables, lines);
    let noted = Noted::new(taken);
    let spliced = Spliced::new(rt.alloc(), CONTENT_LIMIT, noted);
    let (outcome, spliced) = read_all(rt, inputs, request, spliced)?;
    let lines = spliced.visitor.visitor.visitor;
    report_contradictions(rt, lines.contradictions());
    Ok(lines.into_output().finish(rt, outcome))
}

// Writes the line of each item that the filter takes.
fn write_lines<
    'a,
    S: Inputs,
    R: Clock + Eprint + AllocGlobal,
    L: ItemLines + Drop,
    W: Write + Drop,
>(
    rt: &'a R,
    inputs: &S,
    request: &Request<'_, 'a>,
    lines: L,
    writer: W,
) -> Result<(Status, W), Status>
    ensures ok { IfOk result (λ ended. WritesShown ⟦<BufWriter<Retrying<W>> as Write>⟧.contents (found_of request.now.options.now) request.now.reading.is_verified request.now.reading.is_followed
        (λ name. S.bytes inputs.now name.now) request.now.files.now
        ⟦<LineWriter<L, Counted<Output<BufWriter<Retrying<W>>>>> as Visitor>⟧.visits ⟦<LineWriter<L, Counted<Output<BufWriter<Retrying<W>>>>> as Visitor>⟧.refuses (λ lines. 0) (λ lines. lines.output.inner)
        (λ lines. writer_capacity lines.output.inner.inner ≡ lines_capacity request.now.reading.is_followed)
        (W.contents writer) ended.0 (W.contents ended.1)) }
    ensures apart { OnOk result (IsApart (S.has_named inputs.now) (λ name. name.now) request.now.files.now) }
    ensures err { IfErr result (λ status. NeverBegins (found_of request.now.options.now) status) }
{
    let capacity = request.reading.output_capacity();
    let output = begin_output(rt, inputs, request, capacity, writer)?;
    let lines = LineWriter::new(rt.alloc(), lines, Counted::new(output));
    let (outcome, lines) = read_all(rt, inputs, request, lines)?;
    Ok(lines.into_output().into_inner().finish(rt, outcome))
}
