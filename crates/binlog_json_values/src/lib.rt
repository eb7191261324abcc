//! The values of row events as JSON.
//!
//! `specs/Values` defines the tokens of a value. For two kinds of values it says what the text means, and not its digits:
//! the text of a floating-point number reads back as the same number, and that of a timestamp is the date with its day
//! number.
#![tactic(auto)]

mod before;
mod documents;
mod kept_columns;
mod keys;
pub mod laws;
mod members;
mod names;
mod numbers;
mod owned_facts;
mod refusals;
mod row_images;
mod row_writer;
mod rows;
mod strings;
mod texts;
mod times;
mod timestamps;
mod values;

pub use binlog_optional_metadata::ColumnFacts;
pub use kept_columns::KeptColumns;
pub use row_images::RowImages;
pub use values::ValueWriter;
