//! Whether an event inside a compressed transaction is of the tables that are asked for.
ghost use Rattle.std.specs.Prelude.{◌≡◌, IfErr, IfOk};
ghost use Rattle.binlog_wire.specs.declared.error.Error.TheVariants.{Memory};
ghost use Rattle.binlog_events.specs.EventRefs.{view_of};
ghost use Rattle.binlog_payload_visits.specs.PartMaps.{maps_of};
ghost use Rattle.binlog_payload_filters.specs.PartConcerns.{IsConcern, TakesEvent, may_change, rows_concern};

use binlog_consts::BinlogVersion;
use binlog_events::EventRef;
use binlog_file::EventStreamReader;
use binlog_filters::{Concern, RowsConcern, TableFilter, is_row_event, table_id};
use binlog_payload_visits::PartTableMaps;
use binlog_wire::Error;
use std::alloc::Global;

/// Whether an event inside is of the tables, or may change one of them. The table maps are those in force behind it.
///
/// The only error is [`Error::Memory`], where the data of an event takes memory.
pub(crate) fn takes_event(
    alloc: Global,
    tables: &TableFilter,
    event: &EventRef<'_>,
    maps: &PartTableMaps<'_>,
) -> Result<bool, Error>
    ensures ok { IfOk result (TakesEvent tables.now (maps_of maps.now) (view_of event.now)) }
    ensures memory { IfErr result (λ e. e ≡ Memory) }
{
    let concern = concern_of(alloc, tables, event, maps)?;
    Ok(may_change(concern))
}

// What a filter of tables makes of an event inside.
fn concern_of(
    alloc: Global,
    tables: &TableFilter,
    event: &EventRef<'_>,
    maps: &PartTableMaps<'_>,
) -> Result<Concern, Error>
    ensures ok { IfOk result (IsConcern tables.now (maps_of maps.now) (view_of event.now)) }
    ensures memory { IfErr result (λ e. e ≡ Memory) }
{
    if is_row_event(event) {
        return Ok(rows_concern(tables, table_id(alloc, event), maps));
    }
    // Of these events only row events of MariaDB's look up table maps, and no payload has them.
    let outside = EventStreamReader::new(alloc, BinlogVersion::Version4);
    tables.concern(alloc, false, event, &outside)
}

// The same for a row event with this table id; None if its data can't be read.
fn rows_concern(tables: &TableFilter, table_id: Option<u64>, maps: &PartTableMaps<'_>) -> Concern
    ensures { result ≡ rows_concern tables.now (maps_of maps.now) table_id }
{
    let Some(table_id) = table_id else {
        return Concern::Taken;
    };
    let is_asked = match maps.get(table_id) {
        Some(map) => Some(tables.asks_for_map(map)),
        None => None,
    };
    Concern::Rows(RowsConcern {
        is_asked,
        ends_statement: false,
    })
}

// Whether an event is of the tables, or may change one of them, though nothing says so.
fn may_change(concern: Concern) -> bool
    ensures { result ≡ may_change concern }
{
    concern.is_taken(false, false) || concern.is_unknown()
}
