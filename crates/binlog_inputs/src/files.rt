//! The files that a command reads.
ghost use Rattle.std.specs.Fn.{FnReturnsAt};
ghost use Rattle.std.specs.Prelude.{◌≡◌, ◌<◌, ◌^◌, length, IfErr, IfSome};
ghost use Rattle.binlog_wire.specs.declared.error.Error.TheVariants.{Writer};
ghost use Rattle.crc32_ieee.specs.Checksums.{IsCrc32, GivesCrc32};
ghost use Rattle.binlog_visits.specs.Visits.{VisitsVerifiedLog};
ghost use Rattle.binlog_cli.specs.declared.exit_status.Status.TheVariants.{Fine};
ghost use Rattle.binlog_inputs.specs.Reading.{VisitsInput, tail_behind, status_behind, unless_followed, ReadsInput, ReadsFile, ReadsFrom};

use crate::following::Following;
use crate::inputs::Inputs;
use crate::positions::Positions;
use crate::progress::Progress;
use crate::reported::{Reported, shown_name};
use crate::request::Reading;
use binlog_cli::{Outcome, Status};
use binlog_file::{Counted, Error, ReadCounted, Retrying};
use binlog_payload_filters::PayloadFiltered;
use binlog_visits::{Refusing, Visitor, visit_counted, visit_verified_counted};
use crc32_ieee::Crc32;
use std::alloc::Global;
use std::io::Read;
use std::time::Clock;

/// Reads files in order. Only the last one is followed. The filter takes the positions that are asked for: the start position is one of
/// the first file, and the stop position one of the last file. The worst status counts. If the output fails, no further file is read, and
/// the outcome says so.
pub(crate) fn read_files<'a, S: Inputs, R: Clock + Eprint + AllocGlobal, T: Visitor + Refusing>(
    rt: &R,
    inputs: &S,
    names: &[&'a str],
    reading: Reading,
    asked: Positions,
    visitor: &mut Reported<'a, R, PayloadFiltered<T>>,
) -> Outcome
    ensures { ReadsFrom T.visits T.refuses T.refusals reading.is_verified reading.is_followed (λ name. S.bytes inputs.now name.now) asked 0 names.now Fine visitor.old result visitor.new }
{
    let mut status = Status::Fine;
    for (place, name) in names.iter().enumerate() {
        let is_last = place + 1 == names.len();
        visitor.take_positions(asked.in_file(place == 0, is_last));
        match read_file(rt, inputs, name, reading.of_file(is_last), visitor) {
            Ok(found) => status = status.worse(found),
            Err(_) => return Outcome::unwritten(status),
        }
    }
    Outcome::written(status)
}

/// Reads a file, and shows a visitor what its filter takes of it. The answer is [`Status::NotOpened`] if the file can't be opened or is no log,
/// [`Status::Damaged`] if something in it is damaged, and [`Status::Failed`] if it can't be read to its end.
///
/// # Errors
///
/// [`Error::Writer`] if the output failed.
pub fn read_file<'a, S: Inputs, R: Clock + Eprint + AllocGlobal, T: Visitor + Refusing>(
    rt: &R,
    inputs: &S,
    name: &'a str,
    reading: Reading,
    visitor: &mut Reported<'a, R, PayloadFiltered<T>>,
) -> Result<Status, Error>
    ensures reads { ReadsFile T.visits T.refuses T.refusals reading.is_verified (unless_followed reading.is_followed (S.bytes inputs.now name.now)) visitor.old result visitor.new }
    ensures err { IfErr result (λ error. error ≡ Writer) }
{
    visitor.begin(name, progress_in(inputs, name, reading));
    match inputs.open(name) {
        Ok(input) => read_input(rt, input, reading, visitor),
        Err(error) => {
            let _ = eprintln!(rt; "binlog: {}: {error}", shown_name(name));
            Ok(Status::NotOpened)
        }
    }
}

// The progress that is shown in a file.
fn progress_in<S: Inputs>(inputs: &S, name: &str, reading: Reading) -> Progress {
    if !reading.shows_progress {
        return Progress::hidden();
    }
    match inputs.size(name) {
        Some(size) => Progress::in_file(size),
        None => Progress::hidden(),
    }
}

// Reads an open file.
fn read_input<'a, R: Clock + Eprint + AllocGlobal, I: Read + Drop, T: Visitor + Refusing>(
    rt: &R,
    input: I,
    reading: Reading,
    visitor: &mut Reported<'a, R, PayloadFiltered<T>>,
) -> Result<Status, Error>
    ensures reads { IfSome (unless_followed reading.is_followed (I.remaining input)) (λ bytes. length bytes < 2 ^ 64 →
        ReadsInput T.visits T.refuses T.refusals reading.is_verified bytes visitor.old result visitor.new) }
    ensures err { IfErr result (λ error. error ≡ Writer) }
{
    let input = Following::new(rt, input, reading.is_followed);
    let visited = visit_input(rt.alloc(), input, reading.is_verified, visitor);
    visitor.end(tail_behind(&visited));
    if let Err(error) = &visited {
        report(visitor, error);
    }
    status_behind(visitor.has_errors(), visited)
}

// Writes the message of the error that ended the visit of a file. A failed output keeps its own.
pub(crate) fn report<'a, R: Eprint, T>(
    visitor: &Reported<'a, R, PayloadFiltered<T>>,
    error: &Error,
) {
    match error {
        Error::Writer => {}
        Error::EndOfInput | Error::InvalidFileHeader => visitor.report_file(error),
        _ => visitor.report_end(error),
    }
}

// How many bytes lie behind the last item of a file, by the result of its visit.
pub(crate) fn tail_behind(visited: &Result<Option<usize>, Error>) -> usize
    ensures { result ≡ tail_behind visited.now }
{
    match visited {
        Ok(Some(tail_len)) => *tail_len,
        Ok(None) | Err(_) => 0,
    }
}

// The status behind a file, by the result of its visit.
pub(crate) fn status_behind(
    has_errors: bool,
    visited: Result<Option<usize>, Error>,
) -> Result<Status, Error>
    ensures status { result ≡ status_behind has_errors visited }
    ensures err { IfErr result (λ error. error ≡ Writer) }
{
    match visited {
        Ok(_) if has_errors => Ok(Status::Damaged),
        Ok(_) => Ok(Status::Fine),
        Err(Error::Writer) => Err(Error::Writer),
        Err(Error::EndOfInput | Error::InvalidFileHeader) => Ok(Status::NotOpened),
        Err(_) => Ok(Status::Failed),
    }
}

// Visits the items of an open file. The checksums are the CRC-32 of IEEE 802.3, as in MySQL's logs.
fn visit_input<I: Read + Drop, T: Visitor>(
    alloc: Global,
    input: I,
    is_verified: bool,
    visitor: &mut T,
) -> Result<Option<usize>, Error>
    ensures { IfSome (I.remaining input) (λ bytes. length bytes < 2 ^ 64 →
        VisitsInput T.visits T.refuses is_verified bytes visitor.old result visitor.new) }
{
    let mut input = Counted::new(Retrying::new(input));
    if !is_verified {
        return visit_counted(alloc, &mut input, visitor);
    }
    let crc32 = Crc32::new();
    let checksum = |bytes: &[u8]| -> u32
        ensures { IsCrc32 bytes.now result }
    { crc32.checksum(bytes) };
    visit_by_crc32(alloc, checksum, &mut input, visitor)
}

// Visits the items of an open file whose checksums are verified by a function that gives the CRC-32.
fn visit_by_crc32<F: Fn(&[u8]) -> u32 + Drop, I: ReadCounted, T: Visitor>(
    alloc: Global,
    checksum: F,
    input: &mut I,
    visitor: &mut T,
) -> Result<Option<usize>, Error>
    requires callable { F.IsAlwaysCallable checksum }
    requires gives { GivesCrc32 (λ bytes given. FnReturnsAt F.Fn checksum bytes given) }
    ensures { IfSome (I.remaining input.old) (λ bytes. length bytes < 2 ^ 64 →
        VisitsVerifiedLog IsCrc32 T.visits T.refuses bytes visitor.old result visitor.new) }
{
    visit_verified_counted(alloc, checksum, input, visitor)
}
