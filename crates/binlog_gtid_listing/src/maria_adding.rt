//! What the events of a log add to the last of MariaDB's GTIDs.
ghost use Rattle.std.specs.Prelude.{◌≡◌};
ghost use Rattle.binlog_events.specs.EventRefs.{view_of};
ghost use Rattle.binlog_gtid_listing.specs.MariaItems.{is_maria_gtid_type, has_maria_gtids, ReadsMaria, AddsMariaGtids};

use binlog_event_types::is_of_maria;
use binlog_file::{Error, EventRef};
use binlog_maria_gtids::MariaGtidTracker;
use binlog_mariadb::{MariaEventData, MariaEventType, read_maria_data};
use std::alloc::Global;

/// Whether an event is one of MariaDB's with GTIDs. Only in a log of MariaDB's are its types those of `binlog_mariadb`.
#[inline(always)]
pub(crate) fn has_maria_gtids(event: &EventRef<'_>) -> bool
    ensures { result ≡ has_maria_gtids (view_of event.now) }
{
    is_maria_gtid_type(event.header().event_type_raw()) && is_of_maria(&event.fde())
}

/// Adds the GTIDs of an event that has MariaDB's GTIDs. An error leaves the last GTIDs unchanged.
///
/// # Errors
///
/// Those of [`read_maria_data`], and [`Error::Memory`] if an allocation fails.
pub(crate) fn add_maria_gtids(
    alloc: Global,
    event: &EventRef<'_>,
    gtids: &mut MariaGtidTracker,
) -> Result<(), Error>
    ensures { AddsMariaGtids (view_of event.now) gtids.old result gtids.new }
{
    match read_data(alloc, event) {
        Ok(Some(data)) => {
            let added = gtids.add_event(event.header().server_id(), &data);
            drop(data);
            added
        }
        Ok(None) => Ok(()),
        Err(error) => Err(error),
    }
}

// Reads the data of an event as MariaDB's.
fn read_data<'a>(alloc: Global, event: &EventRef<'a>) -> Result<Option<MariaEventData<'a>>, Error>
    ensures { ReadsMaria (view_of event.now) result }
{
    let number = event.header().event_type_raw();
    read_maria_data(alloc, event.fde(), number, event.data())
}

// Whether this is a type of MariaDB's whose events have GTIDs.
fn is_maria_gtid_type(number: u8) -> bool
    ensures { result ≡ is_maria_gtid_type number }
{
    number == MariaEventType::GTID_EVENT as u8 || number == MariaEventType::GTID_LIST_EVENT as u8
}
