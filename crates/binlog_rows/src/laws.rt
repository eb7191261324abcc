//! Laws of the definitions. Each is a function without effect whose contract states it.
ghost use Rattle.std.specs.Prelude.{◌≡◌, ◌↔◌, ◌⊎◌, ℕ, List, None, Err};
ghost use Rattle.binlog_wire.specs.Fields.{IsBytes};
ghost use Rattle.binlog_wire.specs.Reading.{Refusal, ends, invalid};
ghost use Rattle.binlog_wire.specs.declared.error.Invalid.TheVariants.{LenEnc};
ghost use Rattle.binlog_consts.specs.declared.version.BinlogVersion.{BinlogVersion};
ghost use Rattle.binlog_event_format.specs.FormatDescription.{default_description};
ghost use Rattle.binlog_rows.specs.Forms.{default_length};
ghost use Rattle.binlog_rows.specs.Rows.{rows, IsOfForm};
ghost use Rattle.binlog_rows.specs.TableMaps.{table_map};
ghost use Rattle.binlog_rows.specs.TableMapRefusals.{IsInNumbersPlace};
ghost use Rattle.binlog_rows.specs.Writable.{TableMapInRange, RowsInRange};
ghost use Rattle.binlog_rows.specs.declared.rows_form.RowsForm.{RowsForm};
ghost use Rattle.binlog_rows.specs.declared.rows_event.RowsEvent.{RowsEvent};
ghost use Rattle.binlog_rows.specs.declared.table_map_event.TableMapEvent.{TableMapEvent};

use crate::column_bitmap::ColumnBitmap;
use crate::mapped_columns::MappedColumns;
use crate::mapped_table::MappedTable;
use crate::rows_event_of::{
    DeleteRowsEvent, DeleteRowsEventV1, PartialUpdateRowsEvent, RowsEventOf, UpdateRowsEvent,
    UpdateRowsEventV1, WriteRowsEvent, WriteRowsEventV1,
};
use crate::rows_head::MAX_EXTRA_LEN;
use crate::rows_kind::{
    DeleteRows, DeleteRowsV1, PartialUpdateRows, RowsKind, UpdateRows, UpdateRowsV1, WriteRows,
    WriteRowsV1,
};
use crate::table_id::TableId;
use crate::table_map_event::TableMapEvent;
use binlog_consts::{EventType, RowsEventFlags};
use binlog_event_format::BinlogEvent;
use binlog_wire::MyDeserialize;
use bitflags::Flags;

/// A table map is refused for a length-encoded integer exactly if a prefix of the bytes encodes the fields before the
/// column count, or before the metadata length, and the next byte is `fb` or `ff`. The only other error is the end of
/// its bytes.
pub fn refused_table_maps()
    ensures numbers { (post_header : ℕ) (s : List ℕ) (b : ℕ) → IsBytes s
        → ((table_map post_header).reads s ≡ Err (invalid (LenEnc b))) ↔ IsInNumbersPlace post_header b s }
    ensures others { (post_header : ℕ) (s : List ℕ) (why : Refusal) → IsBytes s → (table_map post_header).reads s ≡ Err why
        → (why ≡ ends) ⊎ ((b : ℕ) × (why ≡ invalid (LenEnc b))) }
{}

/// A table map that was read under any description fits the format in which it is written. So its written bytes read
/// back as the same table map.
pub fn read_table_maps_fit()
    ensures { (post_header : ℕ) (s : List ℕ) (event : TableMapEvent) (r : List ℕ) → (table_map post_header).spells s event r
        → (table_map 8).Fits event }
{}

/// A row event that was read under any description fits the format in which it is written. So its written bytes read
/// back as its normal form.
pub fn read_row_events_fit()
    ensures { (form : RowsForm) (post_header : ℕ) (s : List ℕ) (event : RowsEvent) (r : List ℕ) → (rows form post_header).spells s event r
        → (rows form (default_length form)).Fits event }
{}

/// A table map that was read under any description is its own normal form in the format in which it is written. So
/// writing loses nothing of it.
pub fn read_table_maps_are_normal()
    ensures { (post_header : ℕ) (s : List ℕ) (event : TableMapEvent) (r : List ℕ) → (table_map post_header).spells s event r
        → (table_map 8).normal event ≡ event }
{}

/// A row event that was read under any description is its own normal form in the format in which it is written. So
/// writing loses nothing of it.
pub fn read_row_events_are_normal()
    ensures { (form : RowsForm) (post_header : ℕ) (s : List ℕ) (event : RowsEvent) (r : List ℕ) → (rows form post_header).spells s event r
        → (rows form (default_length form)).normal event ≡ event }
{}

/// A table map whose fields are in the ranges of their types fits the format in which it is written. So its written
/// bytes read back as its normal form.
pub fn writable_table_maps_fit()
    ensures { (version : BinlogVersion) (event : TableMapEvent) → TableMapInRange event
        → (⟦<TableMapEvent<'static> as BinlogEvent<'static>>⟧.format (default_description version) (⟦<TableMapEvent<'static> as BinlogEvent<'static>>⟧.raw_type event)).Fits event }
{}

/// A row event that has the parts of its type, and whose fields are in the ranges of their types, fits the format in
/// which it is written. So its written bytes read back as its normal form.
pub fn writable_row_events_fit<K: RowsKind>()
    ensures { (version : BinlogVersion) (event : RowsEvent) → RowsInRange event → IsOfForm K.FORM event
        → (⟦<RowsEventOf<'static, K> as BinlogEvent<'static>>⟧.format (default_description version) (⟦<RowsEventOf<'static, K> as BinlogEvent<'static>>⟧.raw_type event)).Fits event }
{}

/// The raw types with which events are written.
pub fn raw_types()
    ensures table_map { (event : TableMapEvent) → ⟦<TableMapEvent<'static> as BinlogEvent<'static>>⟧.raw_type event ≡ 19 }
    ensures write_v1 { (event : RowsEvent) → ⟦<WriteRowsEventV1<'static> as BinlogEvent<'static>>⟧.raw_type event ≡ 23 }
    ensures update_v1 { (event : RowsEvent) → ⟦<UpdateRowsEventV1<'static> as BinlogEvent<'static>>⟧.raw_type event ≡ 24 }
    ensures delete_v1 { (event : RowsEvent) → ⟦<DeleteRowsEventV1<'static> as BinlogEvent<'static>>⟧.raw_type event ≡ 25 }
    ensures write { (event : RowsEvent) → ⟦<WriteRowsEvent<'static> as BinlogEvent<'static>>⟧.raw_type event ≡ 30 }
    ensures update { (event : RowsEvent) → ⟦<UpdateRowsEvent<'static> as BinlogEvent<'static>>⟧.raw_type event ≡ 31 }
    ensures delete { (event : RowsEvent) → ⟦<DeleteRowsEvent<'static> as BinlogEvent<'static>>⟧.raw_type event ≡ 32 }
    ensures partial { (event : RowsEvent) → ⟦<PartialUpdateRowsEvent<'static> as BinlogEvent<'static>>⟧.raw_type event ≡ 39 }
{}

/// The event type of each body.
pub fn event_types() {
    prove!(matches!(TableMapEvent::EVENT_TYPE, EventType::TABLE_MAP_EVENT));
    prove!(matches!(WriteRowsV1::EVENT_TYPE, EventType::WRITE_ROWS_EVENT_V1));
    prove!(matches!(UpdateRowsV1::EVENT_TYPE, EventType::UPDATE_ROWS_EVENT_V1));
    prove!(matches!(DeleteRowsV1::EVENT_TYPE, EventType::DELETE_ROWS_EVENT_V1));
    prove!(matches!(WriteRows::EVENT_TYPE, EventType::WRITE_ROWS_EVENT));
    prove!(matches!(UpdateRows::EVENT_TYPE, EventType::UPDATE_ROWS_EVENT));
    prove!(matches!(DeleteRows::EVENT_TYPE, EventType::DELETE_ROWS_EVENT));
    prove!(matches!(
        PartialUpdateRows::EVENT_TYPE,
        EventType::PARTIAL_UPDATE_ROWS_EVENT
    ));
}

/// No type of this crate has a fixed size.
pub fn sizes()
    ensures table_map { ⟦<TableMapEvent<'static> as MyDeserialize<'static>>⟧.size ≡ None }
    ensures table { ⟦<MappedTable<'static> as MyDeserialize<'static>>⟧.size ≡ None }
    ensures columns { ⟦<MappedColumns<'static> as MyDeserialize<'static>>⟧.size ≡ None }
    ensures bitmap { ⟦<ColumnBitmap<'static> as MyDeserialize<'static>>⟧.size ≡ None }
    ensures rows { ⟦<WriteRowsEvent<'static> as MyDeserialize<'static>>⟧.size ≡ None }
    ensures id { ⟦<TableId as MyDeserialize<'static>>⟧.size ≡ None }
{
    prove!(matches!(TableMapEvent::SIZE, None));
    prove!(matches!(MappedTable::SIZE, None));
    prove!(matches!(MappedColumns::SIZE, None));
    prove!(matches!(ColumnBitmap::SIZE, None));
    prove!(matches!(TableId::SIZE, None));
}

/// The constants of row events: the length of a table id, the greatest number of extra bytes, and the flags.
pub fn constants() {
    prove!(TableId::LEN == 6);
    prove!(MAX_EXTRA_LEN == 65_533);
    prove!(RowsEventFlags::STMT_END.bits() == 1);
    prove!(RowsEventFlags::NO_FOREIGN_KEY_CHECKS.bits() == 2);
    prove!(RowsEventFlags::RELAXED_UNIQUE_CHECKS.bits() == 4);
    prove!(RowsEventFlags::COMPLETE_ROWS.bits() == 8);
}
