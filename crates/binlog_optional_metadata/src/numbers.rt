//! Numbers of columns.
ghost use Rattle.std.specs.Prelude.{◌≡◌, is_ok, true, length, MatchResult};
ghost use Rattle.binlog_wire.specs.Reading.{Gives, Refuses};
ghost use Rattle.binlog_variable_fields.specs.LenEnc.{lenenc_at};
ghost use Rattle.binlog_variable_fields.specs.Repeated.{times_at};
ghost use Rattle.binlog_optional_metadata.specs.Columns.{column_indexes};
ghost use Rattle.binlog_optional_metadata.specs.Sequences.{IsCount};

use crate::column_index::read_column_index;
use binlog_variable_fields::LenEnc;
use binlog_wire::{Error, IntRepr, ParseBuf};

/// Numbers in sequence: an iterator over them, which borrows their bytes and allocates nothing.
#[derive(Clone, Copy, Debug)]
pub struct Numbers<'a> {
    left: u64,
    rest: &'a [u8],
    ghost is_whole: { is_ok (times_at left lenenc_at rest.now) ≡ true },
}

/// The number of indexes of this many columns that these bytes consist of.
fn count_indexes(columns: u64, bytes: &[u8]) -> Result<u64, Error>
    ensures { MatchResult result
        (λ count. IsCount lenenc_at bytes.now ((column_indexes columns).reads bytes.now) count)
        (λ e. Refuses ⊥ e ((column_indexes columns).reads bytes.now)) }
{
    let mut buf = ParseBuf(bytes);
    let mut count = 0;
    while !buf.is_empty() {
        if let Err(error) = read_column_index(columns, &mut buf) {
            return Err(error);
        }
        count += 1;
    }
    Ok(count)
}

impl<'a> Numbers<'a> {
    ghost use Rattle.binlog_optional_metadata.specs.Numbers.{numbers_of, answer_numbers};

    /// Takes this many numbers from the start of `buf`.
    #[tactic(auto, using(crate::proofs::Sequences::rest_turn, crate::proofs::Sequences::refused_here, crate::proofs::Sequences::rest_end, crate::proofs::Sequences::whole_end))]
    pub(crate) fn read(left: u64, buf: &mut ParseBuf<'a>) -> Result<Self, Error>
        ensures { Gives ⊥ buf.new (answer_numbers result) (times_at left lenenc_at buf.old) }
    {
        let rest = buf.0;
        for _index in 0..left {
            if let Err(error) = LenEnc::read(buf) {
                return Err(error);
            }
        }
        Ok(Numbers { left, rest })
    }

    /// Takes indexes of this many columns, up to the end of `buf`.
    pub(crate) fn read_indexes(columns: u64, buf: &mut ParseBuf<'a>) -> Result<Self, Error>
        ensures { Gives ⊥ buf.new (answer_numbers result) ((column_indexes columns).reads buf.old) }
    {
        let rest = buf.0;
        let left = count_indexes(columns, rest)?;
        buf.0 = &[];
        Ok(Numbers { left, rest })
    }

    /// The number of numbers that are left.
    #[tactic(auto, using(crate::proofs::Sequences::values_count))]
    pub fn num_left(&self) -> u64
        ensures { result ≡ length (numbers_of self.now) }
    {
        self.left
    }
}

/// The numbers that are left, in order.
impl<'a> Iterator for Numbers<'a> {
    type Item = u64;

    ghost use Rattle.std.specs.Iterator.{YieldsFirst, item_count};
    ghost use Rattle.binlog_optional_metadata.specs.Numbers.{numbers_of};

    ghost next_gives = { YieldsFirst numbers_of };

    ghost remaining = { item_count numbers_of };

    #[tactic(auto, using(crate::proofs::Sequences::first_value, crate::proofs::Sequences::others_whole, crate::proofs::Sequences::never_refused))]
    fn next(&mut self) -> Option<u64> {
        if self.left == 0 {
            return None;
        }
        let mut rest = ParseBuf(self.rest);
        let Ok(number) = LenEnc::read(&mut rest) else {
            unreachable!()
        };
        *self = Numbers {
            left: self.left - 1,
            rest: rest.0,
        };
        Some(number)
    }
}
