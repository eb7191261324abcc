//! What a file of columns declares, beside what a log states: the names, signs, members and character sets of columns whose table maps
//! don't have them.
//!
//! [`table_facts`] has what is known of the columns of a table: what its table map states, and what files declare besides. What the log
//! states wins. A table whose declared columns contradict the log gets nothing from its file. `specs/Possible` defines which columns of
//! a log a declared type may have, `specs/Facts` the facts of both sources, and `specs/Tables` those of a table.
#![tactic(auto)]

mod agreement;
mod completion;
mod contradictions;
mod known_facts;
mod known_members;
mod possible;
mod signs;
mod tables;
mod widths;

pub use completion::complete;
pub use contradictions::Contradictions;
pub use known_facts::table_facts;
pub use signs::states_signs;
pub use tables::declared_columns;
