//! Writing lines of JSON: tokens, and values made of them, in memory that is reused from line to line.
//!
//! Contracts see a [`Line`] as the list of its tokens. Its bytes are these tokens printed: they are UTF-8, and parse
//! back to the same tokens. `specs/Tokens` defines which tokens each value has.
#![tactic(auto)]

mod buffer;
mod decimal;
mod decimal_parts;
mod line;
mod line_members;
mod line_texts;
mod moment;
mod place;
mod place_decimal;
mod place_moment;
mod place_next;
mod place_plain;
mod plain;

pub use decimal_parts::DecimalParts;
pub use line::{Line, Mark};
pub use moment::{DateParts, TimeParts};
