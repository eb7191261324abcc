//! Laws of collecting, counting and copying. Each is a function without effect whose contract states it.
ghost use Rattle.std.specs.Prelude.{◌≡◌, ℕ, Bool, List, [], ◌++◌, All, map, Option, Result, Ok, true};
ghost use Rattle.binlog_wire.specs.declared.error.Error.{Error};
ghost use Rattle.binlog_event_format.specs.declared.format_description.FormatDescriptionEvent.{FormatDescriptionEvent};
ghost use Rattle.binlog_events.specs.Frames.{IsFrame};
ghost use Rattle.binlog_events.specs.Events.{EventView};
ghost use Rattle.binlog_file.specs.StreamItems.{AreItems};
ghost use Rattle.binlog_file.specs.TableMapsInForce.{TableMaps};
ghost use Rattle.binlog_gtid_sets.specs.GtidGroups.{Pair};
ghost use Rattle.binlog_maria_gtids.specs.LastGtids.{Origin, last_of};
ghost use Rattle.binlog_mariadb.specs.declared.maria_gtid.MariaGtid.{MariaGtid};
ghost use Rattle.binlog_visits.specs.Visits.{Visits, VisitsLog};
ghost use Rattle.binlog_gtid_listing.specs.LogItems.{log_gtids};
ghost use Rattle.binlog_filters.specs.declared.filtered.Filtered.{Filtered};
ghost use Rattle.binlog_filters.specs.declared.copying.Copier.{Copier};
ghost use Rattle.binlog_commands.specs.declared.gtids.GtidCollector.{GtidCollector};
ghost use Rattle.binlog_commands.specs.declared.spliced_stats.SplicedStats.{SplicedStats};
ghost use Rattle.binlog_commands.specs.declared.stats.Stats.{Stats};
ghost use Rattle.binlog_payload_visits.specs.declared.spliced.Spliced.{Spliced};
ghost use Rattle.binlog_commands.specs.declared.tally.Tally.{Tally};
ghost use Rattle.binlog_commands.specs.Collecting.{collected, CollectsAll};
ghost use Rattle.binlog_commands.specs.Counting.{none_counted};
ghost use Rattle.binlog_commands.specs.SplicedCounts.{AreSplicedCounts, nothing_counted};
ghost use Rattle.binlog_commands.specs.Statistics.{no_items};
ghost use Rattle.binlog_commands.specs.WholeCounts.{AreCounted, AreTallied};
ghost use Rattle.binlog_commands.specs.TakenCounts.{AreTakenCounted, AreTakenTallied};
ghost use Rattle.binlog_filters.specs.CopiedParts.{ArePart, event_bytes};
ghost use Rattle.binlog_commands.specs.FilteredCopies.{IsFilteredCopy};
ghost use Rattle.binlog_commands.specs.Wholes.{Gtid, is_known, AreNew, AreNewer};

use crate::gtids::GtidCollector;
use crate::spliced_stats::SplicedStats;
use crate::stats::Stats;
use crate::tally::Tally;
use binlog_file::WriteCounted;
use binlog_filters::{Copier, Filtered};
use binlog_payload_visits::Spliced;
use binlog_visits::Visitor;
use std::io::Write;

/// The GTIDs that are collected of the items of a log are those that its events add, and no others: of MySQL's the union of all, of
/// MariaDB's the last of each domain and server. The output grew by the lines of the items that are errors, or whose GTIDs are
/// refused, in order, and each refused event is counted.
pub fn gtids_are_collected<W: WriteCounted>()
    ensures { (maps : TableMaps) (items : List (Result EventView Error)) (old new : GtidCollector W) → old.gtids ≡ log_gtids [] [] → old.refused ≡ 0
        → Visits ⟦<GtidCollector<W> as Visitor>⟧.visits maps 0 items old new
        → CollectsAll items (collected W.contents old) (collected W.contents new) }
{}

/// The statistics are those of all items that were shown: of each raw type the number of its events and of their bytes; the
/// number of errors, and of transactions; the times of the first and of the last event; and the first of the largest events,
/// if there is one. A number above 2^64 - 1 is kept as 2^64 - 1.
pub fn counts_are_of_all_items()
    ensures { (maps : TableMaps) (items : List (Result EventView Error)) (new : Stats)
        → Visits ⟦<Stats as Visitor>⟧.visits maps 0 items no_items new → AreCounted items new }
{}

/// The statistics by type are those of all items that were shown, as of a log without compressed transactions; and apart from them those of
/// all events inside, and of all errors there.
pub fn spliced_type_counts_are_of_all_items()
    ensures { (maps : TableMaps) (items : List (Result EventView Error)) (old new : Spliced SplicedStats) → old.visitor ≡ nothing_counted
        → Visits ⟦<Spliced<SplicedStats> as Visitor>⟧.visits maps 0 items old new → AreSplicedCounts old.limit items new.visitor }
{}

/// The tally is that of all items that were shown: the number of events, of their bytes, of those with a checksum, and of
/// errors, each at most 2^64 - 1.
pub fn tallies_are_of_all_items()
    ensures { (maps : TableMaps) (items : List (Result EventView Error)) (new : Tally)
        → Visits ⟦<Tally as Visitor>⟧.visits maps 0 items none_counted new → AreTallied items new }
{}

/// The statistics that are shown what a filter takes of a log, are those of the items that it takes, and of no others: of its
/// events, and of each error. The largest event has its index in the log.
pub fn filtered_counts_are_of_taken_items()
    ensures { (maps : TableMaps) (items : List (Result EventView Error)) (old new : Filtered Stats) → old.visitor ≡ no_items
        → Visits ⟦<Filtered<Stats> as Visitor>⟧.visits maps 0 items old new
        → AreTakenCounted old.filter maps old.place.position old.state items new.visitor }
{}

/// The tally that is shown what a filter takes of a log is that of the items that it takes, and of no others.
pub fn filtered_tallies_are_of_taken_items()
    ensures { (maps : TableMaps) (items : List (Result EventView Error)) (old new : Filtered Tally) → old.visitor ≡ none_counted
        → Visits ⟦<Filtered<Tally> as Visitor>⟧.visits maps 0 items old new
        → AreTakenTallied old.filter maps old.place.position old.state items new.visitor }
{}

/// The copy of a log is a log. If no frame is left out that brings another description into force, the bytes of the events
/// that are taken, one after another, are a stream whose items are exactly these events, in order, each under the
/// description under which it was read.
pub fn copies_are_logs()
    ensures { (d : FormatDescriptionEvent) (frames : List (List ℕ)) (events : List EventView) → All IsFrame frames
        → ArePart d frames events → AreItems d (event_bytes events) (map Ok events) }
{}

/// The copy that a filter makes of a whole log is a log. If the filter is for a copy, and the visit of the log of
/// these bytes is Ok, the output has grown by all bytes of the events that the filter takes, and as a stream these have
/// exactly these events for their items, in order, each under the description under which it was read. Damaged events are
/// left out, and so are the bytes of an event that the end of the log cuts.
pub fn filtered_copies_are_logs<W: Write>()
    ensures { (bytes : List ℕ) (old new : Filtered (Copier W)) (tail_len : Option ℕ) → old.filter.is_for_copy ≡ true
        → VisitsLog ⟦<Filtered<Copier<W>> as Visitor>⟧.visits ⟦<Filtered<Copier<W>> as Visitor>⟧.refuses bytes old (Ok tail_len) new
        → IsFilteredCopy old.filter old.place.position old.state bytes (W.contents old.visitor.output) (W.contents new.visitor.output) }
{}

/// Of the transactions of a file only the first ones are there, `front`, and not `rest`. The next file's list has the GTIDs of the list of
/// this file and of all of its transactions. If these are the same as those that are there, no transaction is missing: of MySQL's, where
/// each transaction has a GTID that none before it has; of MariaDB's, where in each domain the numbers of a server rise.
pub fn files_are_whole()
    ensures mysql { (list : Pair → ℕ → Bool) (front rest : List Gtid) → AreNew list front rest
        → ((pair : Pair) (n : ℕ) → is_known list (front ++ rest) pair n ≡ is_known list front pair n) → rest ≡ [] }
    ensures maria { (list front rest : List MariaGtid) → AreNewer (list ++ front) rest
        → ((o : Origin) → last_of ((list ++ front) ++ rest) o ≡ last_of (list ++ front) o) → rest ≡ [] }
{}
