//! Visits the items of a log in order: a visitor is shown each event, and each error that is in the place of one. The
//! contracts state which items were visited, for every result and for any visitor.
//!
//! A listing is a visit that writes the line of each item, for any kind of line.
#![tactic(auto)]

mod item_lines;
mod line_writer;
mod listing;
mod output;
mod refusing;
mod slice_listing;
mod visiting;
mod visitor;

pub use item_lines::ItemLines;
pub use line_writer::LineWriter;
pub use listing::{exit_status, list, list_counted, list_verified, list_verified_counted};
pub use output::write_line;
pub use refusing::Refusing;
pub use slice_listing::list_slice;
pub use visiting::{visit, visit_counted, visit_verified, visit_verified_counted};
pub use visitor::Visitor;
