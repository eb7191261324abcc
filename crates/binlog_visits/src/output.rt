//! Writing to the output of a listing.
ghost use Rattle.std.specs.Prelude.{◌≡◌, OnOk, OnErr, IfErr};
ghost use Rattle.std.specs.Io.KnownBytes.{Appends};
ghost use Rattle.binlog_ends.specs.Counts.{AppendsFront};
ghost use Rattle.binlog_file.specs.Writing.{CountsWriter};

use binlog_file::{Error, Failed, WriteCounted};

/// Writes a line. The only error is [`Error::Writer`]; a prefix of the line is then written.
#[inline(always)]
pub fn write_line<W: WriteCounted>(output: &mut W, line: &[u8]) -> Result<(), Error>
    ensures ok { OnOk result (Appends (W.contents output.old) (W.contents output.new) line.now) }
    ensures front { OnErr result (AppendsFront (W.contents output.old) (W.contents output.new) line.now) }
    ensures err { IfErr result (λ e. e ≡ Error.Writer) }
    ensures counts { CountsWriter result (W.count output.old) (W.count output.new) }
{
    match output.write_whole(line) {
        Ok(()) => Ok(()),
        Err(Failed) => Err(Error::Writer),
    }
}
