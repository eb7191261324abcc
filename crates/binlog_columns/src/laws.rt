//! Laws of the definitions. Each is a function that does nothing and whose contract states the law.
ghost use Rattle.std.specs.Prelude.{◌≡◌, ◌<◌, ◌^◌, ℕ, List, [], None, Ok, true};
ghost use Rattle.binlog_wire.specs.Laws.{KeepsTo};
ghost use Rattle.binlog_columns.specs.ColumnLists.{columns};
ghost use Rattle.binlog_columns.specs.Layouts.{layout_as, IsLayout};
ghost use Rattle.binlog_columns.specs.Metadata.{Typed, is_metadata};
ghost use Rattle.binlog_columns.specs.Refusals.{refusal, columns_in};
ghost use Rattle.binlog_columns.specs.declared.column_type.ColumnType.{ColumnType};

/// The columns of a table are accepted exactly if all of the metadata is an encoding of columns of these types. They
/// are then those columns.
pub fn columns_are_read()
    ensures keeps { (types : List ℕ) → KeepsTo (columns types).spells (columns types).reads }
    ensures whole { (types metadata : List ℕ) → refusal 0 types metadata ≡ None → (columns types).reads metadata ≡ Ok (columns_in types metadata, []) }
    ensures read { (types metadata : List ℕ) (read : List Typed) → (columns types).reads metadata ≡ Ok (read, []) → refusal 0 types metadata ≡ None }
{}

/// If the metadata is allowed, the numbers of the layout are in their ranges.
pub fn layouts_are_in_range()
    ensures { (column_type : ColumnType) (metadata : ℕ) → metadata < 2 ^ 16 → is_metadata column_type metadata ≡ true → IsLayout (layout_as column_type metadata) }
{}
