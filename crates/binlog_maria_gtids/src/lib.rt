//! The last GTIDs of a MariaDB log: for each replication domain and server the sequence number of the last one. Sets of
//! MariaDB's GTIDs, and their texts.
//!
//! Which number is the last is defined in `specs/LastGtids`, and what an event adds in `specs/AddedGtids`. The grammar of the
//! text of a set is in `specs/GtidTexts`, and how it is read in `specs/GtidReading`.
#![tactic(auto)]

mod entries;
mod gtid_text;
mod gtid_text_error;
pub mod laws;
mod maria_gtid_set;
mod maria_gtid_tracker;

pub use gtid_text::parse_set;
pub use gtid_text_error::{MariaGtidFault, MariaGtidTextError};
pub use maria_gtid_set::MariaGtidSet;
pub use maria_gtid_tracker::MariaGtidTracker;
