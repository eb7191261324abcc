//! A file of columns: the answer of a server's `information_schema.COLUMNS`, as the client `mysql -B` prints it.
//!
//! [`parse`] reads the text of such a file, and gives the description of each column. Which descriptions a text has is defined in
//! `specs/Files`, over the fields of its lines in `specs/Fields`. It knows nothing of binary logs.
//!
//! [`DeclaredType::parse`] reads the type of a column in it: `int(10) unsigned`, `enum('a','b''c')`. Which type a text is is defined in
//! `specs/Types`.
//!
//! [`DeclaredTables`] has the columns of the tables of a file, and finds them by the names of schema and table. `specs/Tables` defines
//! which columns a table has. [`read_tables`] gives the tables of a text, or what is wrong in it first, with line and column; `specs/Texts`
//! defines both.
#![tactic(auto)]

mod declared_type;
mod error;
mod field;
mod files;
pub mod laws;
mod place;
mod positions;
mod reading;
mod simple_type;
mod table_reading;
mod tables;
mod tables_error;
mod type_ending;
mod type_members;
mod type_numbers;
mod type_word;

pub use declared_type::DeclaredType;
pub use error::{ColumnFileError, ColumnFileFault};
pub use field::Field;
pub use files::{ColumnLine, HEADER, parse};
pub use place::Place;
pub use simple_type::{IntegerSize, LengthSize, SimpleType, TemporalKind};
pub use table_reading::read_tables;
pub use tables::{DeclaredColumn, DeclaredTables, DeclaredTablesError};
pub use tables_error::{ReadTablesError, TextFault};
