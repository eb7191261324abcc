//! Writing all of some bytes.
ghost use Rattle.std.specs.Prelude.{◌≡◌, ◌<◌, length, OnOk, OnErr};
ghost use Rattle.std.specs.Io.KnownBytes.{Appends};
ghost use Rattle.binlog_ends.specs.Counts.{AppendsFront};

use std::io::{ErrorKind, Write};

/// What an interrupted write is.
#[derive(Clone, Copy, Debug, PartialEq, Eq)]
pub(crate) enum Interrupted {
    /// A failure like any other.
    Fails,
    /// Retried.
    Retries,
}

/// Writes all of the bytes, in as many writes as needed. It fails if a write fails or writes 0 bytes.
pub(crate) fn write_each<W: Write>(
    output: &mut W,
    bytes: &[u8],
    interrupted: Interrupted,
) -> Result<(), ErrorKind>
    ensures written { OnOk result (Appends (W.contents output.old) (W.contents output.new) bytes.now) }
    ensures front { OnErr result (AppendsFront (W.contents output.old) (W.contents output.new) bytes.now) }
    ensures empty { OnErr result (0 < length bytes.now) }
{
    if bytes.is_empty() {
        return Ok(());
    }
    let mut rest = bytes;
    // Bounded, so that the loop is proved to end.
    'writes: for _ in 0..u64::MAX {
        match output.write(rest) {
            Ok(count) if count == rest.len() => return Ok(()),
            Ok(0) => return Err(ErrorKind::WriteZero),
            Ok(count) => rest = &rest[count..],
            Err(error)
                if interrupted == Interrupted::Retries && error.kind() == ErrorKind::Interrupted =>
                {}
            Err(error) => return Err(error.kind()),
        }
    }
    Err(ErrorKind::Interrupted)
}
