//! The optional metadata of a table map: signedness, character sets, names, members of ENUM and SET columns, keys,
//! visibility; and what it states of each column.
//!
//! [`OptionalMetadata`] gives the fields, and allocates nothing. `specs/Fields` defines their format, `specs/Classes` which
//! columns a field is about.
//!
//! [`TableFacts`] has what the fields state of the columns, besides their types. `specs/Stated` defines the facts of a column
//! by the columns before it.
#![tactic(auto)]

mod class_counts;
mod class_index;
mod collations;
mod column_class;
mod column_facts;
mod column_index;
mod column_members;
mod column_sets;
mod content;
mod default_charset;
mod field;
mod field_type;
mod indexed_numbers;
pub mod laws;
mod member_lists;
mod metadata_bits;
mod metadata_error;
mod names;
mod numbers;
mod optional_metadata;
mod padding;
mod stated_fields;
mod table_facts;
mod table_map_columns;

pub use column_class::ColumnClass;
pub use column_facts::ColumnFacts;
pub use default_charset::DefaultCharset;
pub use field::OptionalMetadataField;
pub use field_type::{OptionalMetadataFieldType, UnknownOptionalMetadataFieldType};
pub use indexed_numbers::IndexedNumbers;
pub use member_lists::MemberLists;
pub use metadata_bits::MetadataBits;
pub use metadata_error::{OptionalMetadataError, OptionalMetadataErrorKind};
pub use names::Names;
pub use numbers::Numbers;
pub use optional_metadata::OptionalMetadata;
pub use table_facts::TableFacts;
pub use table_map_columns::TableMapColumns;
