//! Statistics of changes, from facts of events: what each number is, is a law over the whole list of facts. The text of the rows of tables.
#![tactic(auto)]

mod counts;
mod event_counts;
mod facts;
mod gtid_text;
mod intervals;
mod largest;
pub mod laws;
mod row_text;
mod sizes;
mod table_counts;
mod table_name;
mod tables;
mod transaction;
mod transaction_stats;
mod transaction_tables;
mod type_counts;
mod written_names;

pub use counts::Counts;
pub use event_counts::EventCounts;
pub use facts::{Change, ChangeKind, EventFacts, TableChange};
pub use gtid_text::GtidText;
pub use intervals::{IntervalStats, MAX_INTERVALS};
pub use largest::LargestTransactions;
pub use row_text::write_table_rows;
pub use sizes::{SIZE_CLASSES, SizeHistogram};
pub use table_counts::{TableCounts, UnknownRows};
pub use table_name::TableName;
pub use tables::{MAX_TABLES, TableStats};
pub use transaction::Transaction;
pub use transaction_stats::TransactionStats;
pub use transaction_tables::TransactionTables;
pub use type_counts::TypeCounts;
pub use written_names::{name_text, write_names};
