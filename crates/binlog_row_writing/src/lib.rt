//! Writing rows: the bytes of the rows of a row event, made from values for the columns of a table map.
//!
//! `specs/NewContents` defines what is stored for a value, and why it is refused; `specs/NewImages` and `specs/NewRows` define
//! the bytes of rows and the order of refusals. By the laws these bytes are read back by the formats of `binlog_images`.
#![tactic(auto)]

mod cell;
mod content;
mod image;
pub mod laws;
mod new_decimal;
mod new_value;
mod null_bits;
mod numbers;
mod put;
mod row_write_error;
mod rows_builder;
mod times;
mod walk;

pub use new_decimal::NewDecimal;
pub use new_value::{NewDate, NewTime, NewValue};
pub use row_write_error::{RowWriteError, RowWriteErrorKind};
pub use rows_builder::RowsBuilder;
