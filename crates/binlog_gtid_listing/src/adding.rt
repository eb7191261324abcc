//! What the events of a log add to the set of its GTIDs.
ghost use Rattle.std.specs.Prelude.{◌≡◌};
ghost use Rattle.binlog_events.specs.EventRefs.{view_of};
ghost use Rattle.binlog_gtid_listing.specs.GtidItems.{has_gtids, AddsGtids};

use binlog_file::{Error, EventRef, EventType, GtidTracker};
use std::alloc::Global;

/// Adds the GTIDs of an event to the set; nothing if its type has none. An error leaves the set unchanged.
///
/// # Errors
///
/// Those of [`EventRef::read_data`] and of [`GtidTracker::add_event`].
pub(crate) fn add_gtids(
    alloc: Global,
    event: &EventRef<'_>,
    gtids: &mut GtidTracker,
) -> Result<(), Error>
    ensures { AddsGtids (view_of event.now) gtids.old result gtids.new }
{
    if !has_gtids(event) {
        return Ok(());
    }
    match event.read_data(alloc) {
        Ok(Some(data)) => {
            let added = gtids.add_event(&data);
            drop(data);
            added
        }
        Ok(None) => Ok(()),
        Err(error) => Err(error),
    }
}

// Whether events of this one's type have GTIDs.
#[inline(always)]
fn has_gtids(event: &EventRef<'_>) -> bool
    ensures { result ≡ has_gtids (view_of event.now) }
{
    let number = event.header().event_type_raw();
    number == EventType::GTID_EVENT as u8
        || number == EventType::PREVIOUS_GTIDS_EVENT as u8
        || number == EventType::GTID_TAGGED_LOG_EVENT as u8
}
