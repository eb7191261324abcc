//! The lowest layer of a MySQL binary log: the error type, and the fields that event bodies are made of.
//!
//! [`ParseBuf`] holds the bytes that are still to be read. A type that can be read from it implements
//! [`MyDeserialize`], a type that can be written [`MySerialize`]: integers ([`RawInt`]), byte strings ([`RawBytes`]),
//! flag sets ([`RawFlags`]), integer codes ([`Const`], [`RawConst`]) and reserved bytes ([`Skip`]). Their contracts,
//! and the laws for combining fields into a body, are in `specs/`: `Reading`, `Fields` and `Laws`; `Formats` has one
//! record for all that is stated of a body. [`BitView`] reads bytes as a bitmap.
//!
//! Names follow the Rust crate `mysql_common`, modules `io`, `proto` and `misc::raw`.
#![tactic(auto)]

mod bit_view;
mod copies;
mod error;
mod number;
mod output;
mod parse_buf;
mod raw;
mod room;
mod traits;

pub use bit_view::BitView;
pub use copies::{IntoOwned, TryClone};
pub use error::{Error, Field, Invalid};
pub use number::{read_u16_at, read_u32_at};
pub use output::write_bytes;
pub use parse_buf::ParseBuf;
pub use raw::bytes::{
    BareBytes, BareU8Bytes, BareU16Bytes, BytesRepr, EofBytes, FixedLengthText, NullBytes,
    RawBytes, U8Bytes, U32Bytes, WritableBytes, lossy_text,
};
pub use raw::constant::{Const, Constant, RawConst, Skip};
pub use raw::flags::RawFlags;
pub use raw::int::{IntRepr, LeU16, LeU32, LeU48, LeU56, LeU64, RawInt};
pub use room::reserve;
pub use traits::{MyDeserialize, MySerialize, Put};
