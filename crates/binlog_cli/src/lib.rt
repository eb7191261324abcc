//! The parts of the program `binlog`: the words of its command line and the filter that they state, its exit statuses, its output
//! and the files that it writes.
#![tactic(auto)]

mod arguments;
mod command_text;
mod exit_status;
mod filters;
mod gtid_sets;
mod new_file;
mod output;
mod table_names;
mod times;
mod type_names;

pub use arguments::command;
pub use command_text::{CommandText, OptionText, Takes};
pub use exit_status::{Outcome, Status, out_of_memory};
pub use filters::filter;
pub use new_file::{HostFile, NewFile, draft_name};
pub use output::{BUFFER_SIZE, Output};
pub use table_names::tables_of_option;
