//! What events add to a set of GTIDs.
ghost use Rattle.std.specs.Prelude.{◌≡◌, ◌&&◌, ◌||◌, ℕ, None, Err, option_copied, OnOk, OnErr, IsOkUnless, MatchOption};
ghost use Rattle.binlog_wire.specs.declared.error.Error.TheVariants.{Memory, BadGno};
ghost use Rattle.binlog_gtids.specs.GnoSets.{is_within, is_held};
ghost use Rattle.binlog_gtid_sets.specs.AddedGtids.{only, bad_gno_in, bad_gno, bad_gno_listed, bad_gno_of, is_listed, is_added};
ghost use Rattle.binlog_gtid_sets.specs.GtidGroups.{Pair, pair_of, is_same, is_tracked};

use crate::bad_gnos::{bad_gno_listed, bad_number};
use crate::gtid_tracker::GtidTracker;
use crate::rooms::Rooms;
use binlog_event_data::EventData;
use binlog_gtids::{GtidEvent, PreviousGtidsEvent, PreviousGtidsSid};
use binlog_variable_fields::{GnoInterval, Tag};
use binlog_wire::Error;

impl GtidTracker {
    /// Adds the GTIDs of an event: that of a GTID event, or those of a PREVIOUS_GTIDS event. In the latter, an interval
    /// whose end isn't above its start has no numbers. Other events, ANONYMOUS_GTID events among them, add nothing.
    ///
    /// The GTID of a GTID event takes constant time if its group and its number are the last ones, and otherwise
    /// logarithmic time and a move of the groups or intervals after it. Memory is allocated only for a new group or a
    /// new interval. For a PREVIOUS_GTIDS event the set is copied, unless it contains all of the event's GTIDs; the copy
    /// makes room once for all groups, and each group once for all of its intervals.
    ///
    /// # Errors
    ///
    /// Each leaves the set unchanged.
    ///
    /// - [`Error::BadGno`] if a number isn't from 1 to 2^63 - 1; it has the first such number, in the order of the
    ///   event's entries, their intervals and their numbers. It comes before any allocation.
    /// - [`Error::Memory`] if an allocation fails.
    pub fn add_event(&mut self, data: &EventData<'_>) -> Result<(), Error>
        ensures ok { OnOk result ((pair : Pair) (n : ℕ) → is_tracked self.new pair n ≡ (is_added data.now pair n || is_tracked self.old pair n)) }
        ensures bad { MatchOption (bad_gno_of data.now) (IsOkUnless result Memory) (λ gno. result ≡ Err (BadGno gno)) }
        ensures err { OnErr result (self.new ≡ self.old) }
    {
        match data {
            EventData::GtidEvent(event) => self.add_gtid(event),
            EventData::PreviousGtidsEvent(event) => self.add_previous(event),
            _ => Ok(()),
        }
    }

    // Adds the GTID of a GTID event.
    fn add_gtid(&mut self, event: &GtidEvent) -> Result<(), Error>
        ensures ok { OnOk result ((pair : Pair) (n : ℕ) → is_tracked self.new pair n ≡ ((is_same (pair_of event.now.sid event.now.tag) pair && is_within (only event.now.gno) n) || is_tracked self.old pair n)) }
        ensures bad { MatchOption (bad_gno_in (only event.now.gno)) (IsOkUnless result Memory) (λ gno. result ≡ Err (BadGno gno)) }
        ensures err { OnErr result (self.new ≡ self.old) }
    {
        let gno = event.gno();
        match bad_number(gno) {
            Some(bad) => Err(Error::BadGno(bad)),
            None => {
                let sid = event.sid();
                self.insert(&sid, event.tag(), gno, gno + 1)
            }
        }
    }

    // Adds the GTIDs of a PREVIOUS_GTIDS event.
    fn add_previous(&mut self, event: &PreviousGtidsEvent<'_>) -> Result<(), Error>
        ensures ok { OnOk result ((pair : Pair) (n : ℕ) → is_tracked self.new pair n ≡ (is_listed event.now.sids pair n || is_tracked self.old pair n)) }
        ensures bad { MatchOption (bad_gno_listed event.now.sids) (IsOkUnless result Memory) (λ gno. result ≡ Err (BadGno gno)) }
        ensures err { OnErr result (self.new ≡ self.old) }
    {
        match bad_gno_listed(event.sids()) {
            Some(bad) => Err(Error::BadGno(bad)),
            None => self.unite(event.sids()),
        }
    }

    // Adds the numbers of entries, in a copy of the set that replaces it; nothing is copied if the set contains them all.
    // The copy makes room for all groups at once, and each group for all of its intervals.
    // The only error is [`Error::Memory`], which leaves the set unchanged.
    fn unite(&mut self, entries: &[PreviousGtidsSid<'_>]) -> Result<(), Error>
        requires { bad_gno_listed entries.now ≡ None }
        ensures ok { OnOk result ((pair : Pair) (n : ℕ) → is_tracked self.new pair n ≡ (is_listed entries.now pair n || is_tracked self.old pair n)) }
        ensures err { OnErr result (self.new ≡ self.old) }
        ensures memory { IsOkUnless result Memory }
    {
        if self.contains_listed(entries) {
            return Ok(());
        }
        let rooms = self.rooms_for(entries)?;
        let mut union = self.clone_with_room(entries.len())?;
        union.insert_entries(entries, &rooms)?;
        *self = union;
        Ok(())
    }

    // Adds the numbers of a source and a tag in an interval, which may be empty; a new group gets room for `count`
    // intervals. The only error is [`Error::Memory`], which leaves the set unchanged.
    fn insert_interval(
        &mut self,
        sid: &[u8; 16],
        tag: Option<&Tag<'_>>,
        interval: &GnoInterval,
        count: usize,
    ) -> Result<(), Error>
        requires { bad_gno_in interval.now ≡ None }
        ensures ok { OnOk result ((pair : Pair) (n : ℕ) → is_tracked self.new pair n ≡ ((is_same (pair_of sid.now (option_copied tag.entry)) pair && is_within interval.now n) || is_tracked self.old pair n)) }
        ensures err { OnErr result (self.new ≡ self.old) }
        ensures memory { IsOkUnless result Memory }
    {
        if interval.start() >= interval.end() {
            return Ok(());
        }
        self.insert_with_room(sid, tag, interval.start(), interval.end(), count)
    }

    // Adds the numbers of a source and a tag in intervals, of which some may be empty; their group makes room for `count`
    // intervals. The only error is [`Error::Memory`].
    fn insert_intervals(
        &mut self,
        sid: &[u8; 16],
        tag: Option<&Tag<'_>>,
        intervals: &[GnoInterval],
        count: usize,
    ) -> Result<(), Error>
        requires { bad_gno intervals.now ≡ None }
        ensures ok { OnOk result ((pair : Pair) (n : ℕ) → is_tracked self.new pair n ≡ ((is_same (pair_of sid.now (option_copied tag.entry)) pair && is_held intervals.now n) || is_tracked self.old pair n)) }
        ensures memory { IsOkUnless result Memory }
    {
        self.reserve(sid, tag, count)?;
        for interval in intervals {
            self.insert_interval(sid, tag, interval, count)?;
        }
        Ok(())
    }

    // Adds the numbers of entries, which make this room. The only error is [`Error::Memory`].
    fn insert_entries(
        &mut self,
        entries: &[PreviousGtidsSid<'_>],
        rooms: &Rooms,
    ) -> Result<(), Error>
        requires { bad_gno_listed entries.now ≡ None }
        ensures ok { OnOk result ((pair : Pair) (n : ℕ) → is_tracked self.new pair n ≡ (is_listed entries.now pair n || is_tracked self.old pair n)) }
        ensures memory { IsOkUnless result Memory }
    {
        for (place, entry) in entries.iter().enumerate() {
            let sid = entry.uuid();
            let count = rooms.of_entry(place, entry);
            self.insert_intervals(&sid, entry.tag(), entry.intervals(), count)?;
        }
        Ok(())
    }
}
