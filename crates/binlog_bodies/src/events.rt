//! The event bodies, one module for each event type.
pub mod begin_load_query;
pub mod incident;
pub mod intvar;
pub mod rand;
pub mod rotate;
pub mod rows_query;
pub mod xid;
