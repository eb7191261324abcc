//! Readers and writers that count their failures.
//!
//! Each of them counts its failures, and the count never falls ([`CountsFailures`]). So a caller can determine whether
//! a device failed: if the count is unchanged after a call, and isn't `u64::MAX`, nothing failed in that call. In
//! contracts this is `Rose`, in `specs/Counts`; [`laws`] has the laws about it.
//!
//! - [`ReadCounted`] reads, and [`WriteCounted`] writes. [`Failed`] is returned exactly if a failure was counted.
//! - [`Counted`] wraps any `Read` or `Write`, and keeps the kind of the last failure. [`CountedRef`] borrows one.
//! - [`SliceReader`] reads bytes in memory, and never fails.
//! - [`Retrying`] retries an interrupted call. To read a file or a pipe, use `Counted::new(Retrying::new(input))`.
//!   Without it an interruption is a failure like any other.
//!
//! ```text
//! let mut input = Counted::new(Retrying::new(stdin().lock()));
//! let mut piece = [0; 512];
//! match input.read_some(&mut piece) {
//!     Ok(0) => println!(rt; "the input is at its end")?,
//!     Ok(count) => println!(rt; "{count} bytes came")?,
//!     Err(Failed) => println!(rt; "failed {} times, last as {:?}", input.failures(), input.last_failure())?,
//! }
//! ```
#![tactic(auto)]

mod borrowed;
mod counted;
mod failed;
pub mod laws;
mod references;
mod retrying;
mod slice_reader;
mod traits;
mod writing;

pub use borrowed::CountedRef;
pub use counted::Counted;
pub use failed::Failed;
pub use retrying::{ATTEMPTS, Retrying};
pub use slice_reader::SliceReader;
pub use traits::{CountsFailures, ReadCounted, WriteCounted};
