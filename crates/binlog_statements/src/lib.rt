//! The events of statements: queries, load queries, user variables; and the status variables of statements.
//!
//! [`QueryEvent`], [`ExecuteLoadQueryEvent`] and [`UserVarEvent`] are event bodies. [`StatusVarsIterator`] iterates
//! over the [`StatusVars`] of a statement and returns each [`StatusVar`]; [`StatusVar::get_value`] parses its value.
#![tactic(auto)]

mod execute_load_query;
pub mod laws;
mod layout;
mod query;
mod statement;
mod status_var_val;
mod status_vars;
mod user_var;

pub use binlog_consts::{
    ItemResult, LoadDuplicateHandling, StatusVarKey, UnknownItemResultType, UnknownStatusVarKey,
    UserVarFlags,
};
pub use execute_load_query::ExecuteLoadQueryEvent;
pub use query::QueryEvent;
pub use status_var_val::StatusVarVal;
pub use status_vars::{StatusVar, StatusVars, StatusVarsIterator};
pub use user_var::UserVarEvent;
