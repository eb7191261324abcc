//! The variable-width integers of a MySQL binary log: length-encoded integers ([`LenEnc`]), and the variable-length
//! integers of MySQL's serialization library ([`Varlen`]).
//!
//! A value may have several encodings; each is read, and the shortest is written. Their grammar, and the laws that tie
//! reading and writing to it, are in `specs/`: `LenEnc`, `Varlen`, `Signed` and `Laws`. [`LenEncBytes`] are strings
//! after a length-encoded length (`LenEncTexts`).
//!
//! There are also tags ([`Tag`]), intervals of GNOs ([`GnoInterval`]) and counted lists ([`ValueList`]). The formats of
//! repeated, alternative and announced parts, and of a body that states its own size, are in `specs/`: `Repeated`,
//! `Chosen`, `Announced`, `Within` and `Sized`.
#![tactic(auto)]

mod gno_interval;
pub mod laws;
mod lenenc;
mod lenenc_bytes;
mod tag;
mod text;
mod value_list;
mod varlen;

pub use gno_interval::GnoInterval;
pub use lenenc::{LenEnc, lenenc_int_len};
pub use lenenc_bytes::LenEncBytes;
pub use tag::Tag;
pub use text::read_varlen_text;
pub use value_list::ValueList;
pub use varlen::{
    Varlen, VarlenSigned, read_varlen_int, read_varlen_uint, varlen_uint_size, write_varlen_int,
    write_varlen_uint,
};
