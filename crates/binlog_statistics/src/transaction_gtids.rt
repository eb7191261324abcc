//! The text of the GTID of a transaction.
ghost use Rattle.std.specs.Prelude.{◌≡◌, ◌++◌, is_none, option_copied, OnOk, IsOkUnless};
ghost use Rattle.std.specs.String.{string_bytes};
ghost use Rattle.binlog_wire.specs.declared.error.Error.TheVariants.{Memory};
ghost use Rattle.binlog_events.specs.EventRefs.{view_of};
ghost use Rattle.binlog_gtid_sets.specs.AddedGtids.{only, bad_gno_in};
ghost use Rattle.binlog_filters.specs.Reading.{IsReadAs};
ghost use Rattle.binlog_statistics.specs.TransactionGtids.{known_text, mysql_text, maria_text, text_in, text_read, tag_part, FollowsGtid};

use binlog_file::{Error, EventData, EventRef, GtidEvent, LogEventData, Tag, read_log_data};
use binlog_filters::begins_transaction;
use binlog_mariadb::{MariaEventData, MariaGtidEvent};
use binlog_values::text::push_number;
use std::alloc::{AllocError, Global};
use uuid::Uuid;

// The number after the greatest one of a transaction of MySQL's.
const GNO_END: u64 = 1 << 63;

// Whether a GTID of MySQL's can have this number.
fn is_gno(number: u64) -> bool
    ensures { result ≡ is_none (bad_gno_in (only number)) }
{
    1 <= number && number < GNO_END
}

// Appends a tag behind a colon, if there is one.
fn push_tag(text: &mut String, tag: Option<&Tag<'_>>) -> Result<(), AllocError>
    ensures { OnOk result (string_bytes text.new ≡ string_bytes text.old ++ tag_part (option_copied tag.entry)) }
{
    match tag {
        Some(tag) => {
            text.push_str(":")?;
            text.push_str(tag.as_str())
        }
        None => Ok(()),
    }
}

// Appends the text of a GTID of MySQL's.
fn push_mysql(text: &mut String, event: &GtidEvent) -> Result<(), AllocError>
    ensures { OnOk result (string_bytes text.new ≡ string_bytes text.old ++ mysql_text event.now) }
{
    let mut buffer = Uuid::encode_buffer();
    let sid = Uuid::from_bytes(event.sid())
        .hyphenated()
        .encode_lower(&mut buffer);
    text.push_str(sid)?;
    push_tag(text, event.tag())?;
    text.push_str(":")?;
    push_number(text, event.gno())
}

// The same if a GTID can have its number; nothing otherwise.
fn push_known(text: &mut String, event: &GtidEvent) -> Result<(), AllocError>
    ensures { OnOk result (string_bytes text.new ≡ string_bytes text.old ++ known_text event.now) }
{
    if is_gno(event.gno()) {
        push_mysql(text, event)
    } else {
        Ok(())
    }
}

// Appends the text of a GTID of MariaDB's, of an event of this server.
fn push_maria(
    text: &mut String,
    server_id: u32,
    event: &MariaGtidEvent<'_>,
) -> Result<(), AllocError>
    ensures { OnOk result (string_bytes text.new ≡ string_bytes text.old ++ maria_text server_id event.now) }
{
    push_number(text, u64::from(event.domain()))?;
    text.push_str("-")?;
    push_number(text, u64::from(server_id))?;
    text.push_str("-")?;
    push_number(text, event.sequence())
}

// Appends the text of the GTID that this data of an event of this server has; nothing if it has none.
fn push_gtid(text: &mut String, server_id: u32, data: &LogEventData<'_>) -> Result<(), AllocError>
    ensures { OnOk result (string_bytes text.new ≡ string_bytes text.old ++ text_in server_id data.now) }
{
    match data {
        LogEventData::Mysql(EventData::GtidEvent(event)) => push_known(text, event),
        LogEventData::Maria(MariaEventData::GtidEvent(event)) => push_maria(text, server_id, event),
        _ => Ok(()),
    }
}

// Makes a text that of the GTID in what was read of an event of this server. The only error is [`Error::Memory`].
fn write_read(
    text: &mut String,
    server_id: u32,
    read: &Result<Option<LogEventData<'_>>, Error>,
) -> Result<(), Error>
    ensures ok { OnOk result (IsReadAs (text_read server_id) read.now (string_bytes text.new)) }
    ensures memory { IsOkUnless result Memory }
{
    text.clear();
    match read {
        Ok(Some(data)) => {
            push_gtid(text, server_id, data)?;
            Ok(())
        }
        Err(Error::Memory) => Err(Error::Memory),
        Ok(None) | Err(_) => Ok(()),
    }
}

/// Makes a text that of the GTID of the transaction of this event: a new one if the event begins a transaction, and empty if that has
/// no GTID, one that can't be read, or one of MySQL's with the number 0 or one from 2^63 on, which no set of GTIDs has. If the event begins none, the text stays as it is.
///
/// # Errors
///
/// [`Error::Memory`] alone, if an allocation fails. Nothing is said of the text then.
pub fn follow_gtid(text: &mut String, alloc: Global, event: &EventRef<'_>) -> Result<(), Error>
    ensures ok { OnOk result (FollowsGtid (string_bytes text.old) (view_of event.now) (string_bytes text.new)) }
    ensures memory { IsOkUnless result Memory }
{
    let header = event.header();
    if !begins_transaction(header.event_type_raw()) {
        return Ok(());
    }
    let read = read_log_data(alloc, event);
    let written = write_read(text, header.server_id(), &read);
    drop(read);
    written
}
