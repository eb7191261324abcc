//! The lines of MariaDB's GTIDs. No memory is taken.
ghost use Rattle.std.specs.Prelude.{◌≡◌};
ghost use Rattle.binlog_events.specs.Writing.{CountsWriter};
ghost use Rattle.binlog_gtid_listing.specs.GroupLines.{Writes};
ghost use Rattle.binlog_gtid_listing.specs.MariaLines.{maria_line, is_missing_in, missing_line, maria_lines};

use crate::parts::{write_number, write_part};
use binlog_file::{Error, WriteCounted};
use binlog_maria_gtids::MariaGtidTracker;
use binlog_mariadb::MariaGtid;

/// Writes a line `domain-server_id-sequence` for the last GTID of each domain and server that `others` lack, in ascending order
/// of the domains, and then of the servers' ids. Others lack a GTID if they have none of its domain and server, or their last
/// one has a lesser sequence number.
///
/// # Errors
///
/// [`Error::Writer`] if the writer failed; it has a front of the lines.
pub(crate) fn write_maria_gtids<W: WriteCounted>(
    gtids: &MariaGtidTracker,
    others: &MariaGtidTracker,
    output: &mut W,
) -> Result<(), Error>
    ensures writes { Writes (maria_lines others.now gtids.now) (W.contents output.old) result (W.contents output.new) }
    ensures writer { CountsWriter result (W.count output.old) (W.count output.new) }
{
    write_gtids(gtids.entries(), others, output)
}

// Writes the line of each GTID that others lack, in order.
fn write_gtids<W: WriteCounted>(
    gtids: &[MariaGtid],
    others: &MariaGtidTracker,
    output: &mut W,
) -> Result<(), Error>
    ensures writes { Writes (maria_lines others.now gtids.now) (W.contents output.old) result (W.contents output.new) }
    ensures writer { CountsWriter result (W.count output.old) (W.count output.new) }
{
    for gtid in gtids {
        write_missing(gtid, others, output)?;
    }
    Ok(())
}

// Writes the line of a GTID if others lack it.
fn write_missing<W: WriteCounted>(
    gtid: &MariaGtid,
    others: &MariaGtidTracker,
    output: &mut W,
) -> Result<(), Error>
    ensures writes { Writes (missing_line others.now gtid.now) (W.contents output.old) result (W.contents output.new) }
    ensures writer { CountsWriter result (W.count output.old) (W.count output.new) }
{
    if !is_missing_in(others, gtid) {
        return Ok(());
    }
    write_gtid(gtid, output)
}

// Whether others lack a GTID.
fn is_missing_in(others: &MariaGtidTracker, gtid: &MariaGtid) -> bool
    ensures { result ≡ is_missing_in others.now gtid.now }
{
    match others.last(gtid.domain(), gtid.server_id()) {
        Some(last) => last < gtid.sequence(),
        None => true,
    }
}

// Writes the line of a GTID.
fn write_gtid<W: WriteCounted>(gtid: &MariaGtid, output: &mut W) -> Result<(), Error>
    ensures writes { Writes (maria_line gtid.now) (W.contents output.old) result (W.contents output.new) }
    ensures writer { CountsWriter result (W.count output.old) (W.count output.new) }
{
    let domain = u64::from(gtid.domain());
    let server_id = u64::from(gtid.server_id());
    write_numbers(domain, server_id, gtid.sequence(), output)
}

// Writes the line of a GTID with these numbers.
fn write_numbers<W: WriteCounted>(
    domain: u64,
    server_id: u64,
    sequence: u64,
    output: &mut W,
) -> Result<(), Error>
    ensures writes { Writes (maria_line (record { domain = domain; server_id = server_id; sequence = sequence })) (W.contents output.old) result (W.contents output.new) }
    ensures writer { CountsWriter result (W.count output.old) (W.count output.new) }
{
    write_number(domain, output)?;
    write_part(b"-", output)?;
    write_number(server_id, output)?;
    write_part(b"-", output)?;
    write_number(sequence, output)?;
    write_part(b"\n", output)
}
