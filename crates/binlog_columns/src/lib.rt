//! `specs/Metadata` defines the format of a column's metadata, `specs/Layouts` how values are encoded, and
//! `specs/Refusals` which columns are refused.
#![tactic(auto)]

mod column;
mod column_error;
mod column_type;
mod decoder;
pub mod laws;
mod layout;
mod table_columns;

pub use column::Column;
pub use column_error::{ColumnError, ColumnErrorKind};
pub use column_type::{ColumnType, UnknownColumnType};
pub use decoder::Decoder;
pub use layout::Layout;
pub use table_columns::TableColumns;
