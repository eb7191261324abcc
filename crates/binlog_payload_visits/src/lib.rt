//! Visits the events inside compressed transactions of MySQL, as if they stood in the log behind the event that holds them.
//!
//! A [`PartVisitor`] is a visitor that is also shown these events, its parts. [`Spliced`] is the visitor of a log that shows it both:
//! each item of the log, and behind an event with a payload the events in it, each with the index of that event and its own number
//! from 0. [`PartTableMaps`] are the table maps in force for their rows.
//!
//! A compressed transaction can't be read if a part of its event is an error, in the place of an event inside or of all.
//! [`first_part_error`] looks into one event. [`Noted`] counts such events while another visitor is shown the parts, too; [`Checked`]
//! does so for a visitor that isn't.
#![tactic(auto)]

mod checked;
mod finding;
pub mod laws;
mod noted;
mod part_error;
mod part_visitor;
mod parts;
mod spliced;
mod table_maps;

pub use checked::Checked;
pub use finding::first_part_error;
pub use noted::Noted;
pub use part_error::PartError;
pub use part_visitor::PartVisitor;
pub use spliced::Spliced;
pub use table_maps::PartTableMaps;
