//! The data of events as objects of JSON, by the event's type.
//!
//! `data_value` has MySQL's types; in a log that MariaDB wrote, `maria_data` has the types 160 to 171, compressed statements and
//! rows among them.
#![tactic(auto)]

mod bits;
mod bodies;
mod client_sets;
mod compressed;
mod data_value;
mod gtids;
mod kept_statements;
mod kept_status_vars;
mod known_variables;
pub mod laws;
mod maria_bodies;
mod maria_data;
mod maria_gtids;
mod rows;
mod statements;
mod status_vars;
mod unlisted_variables;

pub use compressed::MOST_BYTES;
pub use data_value::{write_data, write_name, write_next_data};
pub use kept_statements::KeptStatements;
pub use maria_data::write_maria_data;
pub use rows::write_row_event;
