//! What changes of rows make of the tables of a database, and how they are undone.
//!
//! The definitions are in `specs/`, for rows and tables of any types: `specs/Changes` has the states of tables, the changes, and
//! which state a list of changes leads to; `specs/Parts` has what is said of some of the changes of a log. [`laws`] has the laws
//! about them. Nothing here is run.
#![tactic(auto)]

pub mod laws;
