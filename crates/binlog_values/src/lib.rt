//! The values of rows: reading the value of a column, whose type and metadata determine how it is encoded.
//!
//! `specs/Contents` defines the formats of values, by the layouts of `binlog_columns`; `specs/Values` and `specs/Times`
//! define what a value means, and `specs/Decimals` the number and the text of a decimal number. Only a text takes memory.
#![tactic(auto)]

mod content;
mod decimal;
mod decimal_groups;
mod decimal_number;
mod decimal_text;
mod decoding;
mod digits;
mod fault;
mod floats;
pub mod laws;
mod numbers;
pub mod text;
mod times;
mod value;

pub use decimal::Decimal;
pub use decimal_groups::DecimalGroups;
pub use fault::ValueFault;
pub use floats::{Double, Float};
pub use numbers::{Bit, Integer};
pub use times::{Date, DateTime, DateTime2, Time, Time2, Timestamp2, Year};
pub use value::Value;
