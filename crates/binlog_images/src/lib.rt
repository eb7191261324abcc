//! The rows of a row event: what the bytes of its rows are, by the columns of its table map.
//!
//! The formats of images and rows are defined in `specs/Cells` and `specs/Rows`, over those of `binlog_values`; how the
//! bytes of an event split into rows, and why one is refused, is in `specs/Splits`. Nothing here takes memory.
#![tactic(auto)]

mod column_value;
mod diff_bits;
mod event_rows;
mod image;
mod image_bits;
mod image_columns;
pub mod laws;
mod null_bits;
mod row;
mod row_visits;
mod rows;
mod rows_error;
mod stored_columns;
mod stored_row;
mod visiting;
mod visitor;

pub use column_value::ColumnValue;
pub use event_rows::{HasWholeRows, RowsEventExt};
pub use image::Image;
pub use null_bits::null_byte;
pub use row::Row;
pub use rows::Rows;
pub use rows_error::{ImageKind, RowsError, RowsErrorKind, RowsEventError};
pub use stored_columns::{StoredColumn, read_stored_columns};
pub use stored_row::StoredRow;
pub use visitor::ColumnVisitor;
