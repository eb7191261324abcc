//! The kinds of field in a body: byte strings, integers, flag sets and integer codes.
pub mod bytes;
pub mod constant;
pub mod flags;
pub mod int;
