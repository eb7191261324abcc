//! The texts of MySQL's and MariaDB's character sets as their characters.
//!
//! [`CharacterSet`] names the sets of both servers, and [`CharacterSet::decode`] gives the [`Characters`] of a text.
#![tactic(auto)]

mod character_set;
mod characters;
mod coding;
mod collations;
mod first;
pub mod laws;
mod single_byte;
mod tables;

pub use character_set::{CHARACTER_SETS, CharacterSet};
pub use characters::Characters;
