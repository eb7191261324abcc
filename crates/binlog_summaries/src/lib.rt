//! What `binlog stats` is asked for, and the texts and the lines of JSON of statistics; the line of `binlog verify`.
#![tactic(auto)]

mod inner_json;
mod inner_text;
mod interval_json;
mod interval_text;
mod intervals;
mod json_lines;
mod options;
mod stats_text;
mod table_json;
mod table_text;
mod transaction_json;
mod transaction_text;
mod type_json;

pub use inner_json::write_inner_types_json;
pub use inner_text::write_inner_types;
pub use interval_json::write_intervals_json;
pub use interval_text::write_intervals;
pub use intervals::seconds_in;
pub use options::{Grouping, StatsOptions, stats_options};
pub use stats_text::{write_stats, write_tally};
pub use table_json::write_tables_json;
pub use table_text::write_tables;
pub use transaction_json::write_transactions_json;
pub use transaction_text::write_transactions;
pub use type_json::write_types_json;
