//! Statistics of the items of a log and of the events inside its compressed transactions: a visitor that counts changes of rows.
//!
//! What an event says of rows is read by the table map in force. The laws in `laws` say over whole lists of items what each number is.
//!
//! [`follow_gtid`] is shown the events of a log one after another, and makes a text that of the GTID of the transaction in which each stands:
//! `uuid:number` or `uuid:tag:number` of MySQL's, `domain-server_id-sequence` of MariaDB's.
#![tactic(auto)]

mod compressed_rows;
mod counter;
mod facts;
mod finding;
pub mod laws;
mod row_count;
mod transaction_gtids;

pub use compressed_rows::MOST_BYTES;
pub use counter::Counter;
pub use finding::{ChangedRows, RowsFound, find_part_rows, find_rows};
pub use transaction_gtids::follow_gtid;
