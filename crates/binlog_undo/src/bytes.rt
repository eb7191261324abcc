//! What slices hold.
ghost use Rattle.binlog_wire.specs.Fields.{IsBytes};

/// A slice holds bytes.
pub(crate) fn are_bytes(bytes: &[u8])
    ensures { IsBytes bytes.now }
{}
