//! The event types of MySQL and of MariaDB by their names, and which of the two servers wrote a log.
#![tactic(auto)]

mod flavours;
mod maria_names;
mod mysql_names;
mod numbers;
mod search;

pub use flavours::is_of_maria;
pub use maria_names::maria_name_of;
pub use mysql_names::name_of;
pub use numbers::name_of_number;
pub use search::{has_name, number_with_name, numbers_with_names};
