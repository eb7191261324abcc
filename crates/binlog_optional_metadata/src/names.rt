//! Names of columns, and of members of ENUM and SET columns.
ghost use Rattle.std.specs.Prelude.{◌≡◌, is_ok, true, length};
ghost use Rattle.binlog_wire.specs.Reading.{Gives};
ghost use Rattle.binlog_variable_fields.specs.LenEncTexts.{lenenc_text};
ghost use Rattle.binlog_variable_fields.specs.Repeated.{times_at};

use binlog_variable_fields::LenEncBytes;
use binlog_wire::{BytesRepr, Error, ParseBuf};

/// Names in sequence: an iterator over their bytes, which borrows them and allocates nothing.
#[derive(Clone, Copy, Debug)]
pub struct Names<'a> {
    left: u64,
    rest: &'a [u8],
    ghost is_whole: { is_ok (times_at left lenenc_text.reads rest.now) ≡ true },
}

impl<'a> Names<'a> {
    ghost use Rattle.binlog_optional_metadata.specs.Names.{names_of, answer_names};

    /// Takes this many names from the start of `buf`.
    #[tactic(auto, using(crate::proofs::Sequences::rest_turn, crate::proofs::Sequences::refused_here, crate::proofs::Sequences::rest_end, crate::proofs::Sequences::whole_end))]
    pub(crate) fn read(left: u64, buf: &mut ParseBuf<'a>) -> Result<Self, Error>
        ensures { Gives ⊥ buf.new (answer_names result) (times_at left lenenc_text.reads buf.old) }
    {
        let rest = buf.0;
        for _index in 0..left {
            if let Err(error) = LenEncBytes::read((), buf) {
                return Err(error);
            }
        }
        Ok(Names { left, rest })
    }

    /// The number of names that are left.
    #[tactic(auto, using(crate::proofs::Sequences::values_count))]
    pub fn num_left(&self) -> u64
        ensures { result ≡ length (names_of self.now) }
    {
        self.left
    }
}

/// The names that are left, in order.
impl<'a> Iterator for Names<'a> {
    type Item = &'a [u8];

    ghost use Rattle.std.specs.Iterator.{YieldsFirstRef, item_count};
    ghost use Rattle.binlog_optional_metadata.specs.Names.{names_of};

    ghost next_gives = { YieldsFirstRef names_of };

    ghost remaining = { item_count names_of };

    #[tactic(auto, using(crate::proofs::Sequences::first_value, crate::proofs::Sequences::others_whole, crate::proofs::Sequences::never_refused))]
    fn next(&mut self) -> Option<&'a [u8]> {
        if self.left == 0 {
            return None;
        }
        let mut rest = ParseBuf(self.rest);
        let Ok(name) = LenEncBytes::read((), &mut rest) else {
            unreachable!()
        };
        *self = Names {
            left: self.left - 1,
            rest: rest.0,
        };
        Some(name)
    }
}
