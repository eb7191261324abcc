//! The output of a command.
ghost use Rattle.std.specs.Prelude.{◌≡◌, [], Some, None, IfErr, IfOk, IfSome, OnOk};
ghost use Rattle.std.specs.Io.Buffered.{writer_buffer, writer_capacity};
ghost use Rattle.std.specs.Io.{WritesAtMost};
ghost use Rattle.std.specs.Io.KnownBytes.{Keeps, WriteAppends};
ghost use Rattle.binlog_cli.specs.declared.exit_status.Status.TheVariants.{Failed};
ghost use Rattle.binlog_cli.specs.Statuses.{EndsBehind};
ghost use Rattle.binlog_cli.specs.Outputs.{EndsFile, EndsWith, Finishes, FinishesFile, HasBytes, failure_behind};

use crate::exit_status::{Outcome, Status, out_of_memory};
use binlog_ends::Retrying;
use std::io;
use std::io::{BufWriter, ErrorKind, Write};

/// The size of an output's buffer, in bytes.
pub const BUFFER_SIZE: usize = 65_536;

/// A writer that keeps why it failed.
#[derive(Drop)]
pub struct Output<B> {
    inner: B,
    failure: Option<io::Error>,
}

impl<W: Write + Drop> Output<BufWriter<Retrying<W>>> {
    /// Writes to this writer by a buffer of its own, of this capacity in bytes. An interrupted call is retried.
    pub fn new<R: Eprint + AllocGlobal>(rt: &R, capacity: usize, inner: W) -> Result<Self, Status>
        ensures bytes { IfOk result (λ output. ⟦<BufWriter<Retrying<W>> as Write>⟧.contents output.inner ≡ W.contents inner) }
        ensures capacity { IfOk result (λ output. writer_capacity output.inner ≡ capacity) }
        ensures fine { IfOk result (λ output. output.failure ≡ None) }
        ensures err { IfErr result (λ status. status ≡ Failed) }
    {
        match BufWriter::with_capacity(rt.alloc(), capacity, Retrying::new(inner)) {
            Ok(inner) => Ok(Output {
                inner,
                failure: None,
            }),
            Err(_) => Err(out_of_memory(rt)),
        }
    }

    /// Flushes the output, and gives back its writer with the status of the run: that of its outcome, and at least
    /// [`Status::Failed`] if the output failed. A pipe that nobody reads any more ends a run without a message.
    ///
    /// The writer has all bytes of the output, or a front of them if the output failed.
    pub fn finish<E: Eprint>(self, rt: &E, outcome: Outcome) -> (Status, W)
        ensures { Finishes self.failure (⟦<BufWriter<Retrying<W>> as Write>⟧.contents self.inner) outcome result.0 (W.contents result.1) }
    {
        let (failure, writer) = self.close();
        (end(rt, failure, outcome), writer)
    }

    /// The same of the output of a file, which is whole only if nothing failed: the status is [`Status::Failed`] then, also if a pipe is closed.
    /// `name` is that of the file, for the message.
    pub fn finish_file<E: Eprint>(self, rt: &E, name: &str, outcome: Outcome) -> (Status, W)
        ensures { FinishesFile self.failure (⟦<BufWriter<Retrying<W>> as Write>⟧.contents self.inner) outcome result.0 (W.contents result.1) }
    {
        let (failure, writer) = self.close();
        (end_file(rt, name, failure, outcome), writer)
    }

    // Flushes the output. Why it failed, if it did, and its writer.
    fn close(mut self) -> (Option<io::Error>, W)
        ensures first { IfSome self.failure (λ failure. result.0 ≡ Some failure) }
        ensures written { HasBytes result.0 (⟦<BufWriter<Retrying<W>> as Write>⟧.contents self.inner) (W.contents result.1) }
    {
        // A failure is kept.
        let _ = self.flush();
        let Output { inner, failure } = self;
        let (inner, _unwritten) = inner.into_parts();
        (failure, inner.into_inner())
    }
}

impl<B: Write> Output<B> {
    // Keeps why a call failed if it is the first failure.
    fn note<T>(&mut self, answer: &io::Result<T>)
        ensures inner { self.new.inner ≡ self.old.inner }
        ensures failure { self.new.failure ≡ failure_behind self.old.failure answer.now }
    {
        if let Err(error) = answer
            && self.failure.is_none()
        {
            self.failure = Some(*error);
        }
    }
}

// The status of a run, whose output may have failed.
fn end<E: Eprint>(rt: &E, failure: Option<io::Error>, outcome: Outcome) -> Status
    ensures { EndsWith failure outcome result }
{
    match failure {
        Some(failure) => end_behind(rt, &failure, outcome.status),
        None if outcome.is_written => outcome.status,
        None => outcome.status.max(Status::Failed),
    }
}

// The status of a run behind a failure of its output.
fn end_behind<E: Eprint>(rt: &E, failure: &io::Error, status: Status) -> Status
    ensures { EndsBehind failure.now status result }
{
    if failure.kind() == ErrorKind::BrokenPipe {
        return status;
    }
    let _ = eprintln!(rt; "binlog: the output: {failure}");
    status.max(Status::Failed)
}

// The status of a run that writes a file, whose output may have failed.
fn end_file<E: Eprint>(rt: &E, name: &str, failure: Option<io::Error>, outcome: Outcome) -> Status
    ensures { EndsFile failure outcome result }
{
    match failure {
        Some(failure) => {
            let _ = eprintln!(rt; "binlog: {name}: {failure}");
            Status::Failed
        }
        None if outcome.is_written => outcome.status,
        None => Status::Failed,
    }
}

/// Its bytes are those of the writer. Why the first call failed is kept.
impl<W: Write + Drop> Write for Output<BufWriter<Retrying<W>>> {
    ghost contents = { λ output. ⟦<BufWriter<Retrying<W>> as Write>⟧.contents output.inner };

    fn write(&mut self, buf: &[u8]) -> io::Result<usize>
        ensures bound { WritesAtMost result buf.now }
        ensures bytes { WriteAppends (⟦<BufWriter<Retrying<W>> as Write>⟧.contents self.old.inner) (⟦<BufWriter<Retrying<W>> as Write>⟧.contents self.new.inner) result buf.now }
        ensures failure { self.new.failure ≡ failure_behind self.old.failure result }
    {
        let written = self.inner.write(buf);
        self.note(&written);
        written
    }

    fn flush(&mut self) -> io::Result<()>
        ensures bytes { Keeps (⟦<BufWriter<Retrying<W>> as Write>⟧.contents self.old.inner) (⟦<BufWriter<Retrying<W>> as Write>⟧.contents self.new.inner) }
        ensures empty { OnOk result (writer_buffer self.new.inner ≡ []) }
        ensures failure { self.new.failure ≡ failure_behind self.old.failure result }
    {
        let flushed = self.inner.flush();
        self.note(&flushed);
        flushed
    }
}
