//! Visitors for programs: they collect GTIDs, and count events, by type those inside compressed transactions, too.
//!
//! Collected GTIDs also say whether a log goes on in its next file, where a file ends with no event that says so, as after a crash of the
//! server. A file begins with a list of the GTIDs before it. [`FileGtids`] has those of a file: of its list and of its transactions. If
//! they are the same as those in the next file's list, the file has no more transactions ([`continuation_of`]; the law `files_are_whole`).
#![tactic(auto)]

mod continuation;
mod file_gtids;
mod gtids;
pub mod laws;
mod marks;
mod spliced_stats;
mod stats;
mod tally;

pub use continuation::{Continuation, continuation_of};
pub use file_gtids::FileGtids;
pub use gtids::GtidCollector;
pub use marks::GtidMarks;
pub use spliced_stats::SplicedStats;
pub use stats::{Largest, Stats};
pub use tally::Tally;
