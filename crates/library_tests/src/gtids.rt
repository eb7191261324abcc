//! Sets of transaction numbers (GNOs) and of GTIDs: how often they make room.

mod maria;
mod numbers;
mod room;
