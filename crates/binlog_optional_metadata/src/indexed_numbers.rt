//! Numbers of columns that are named by their indexes.
ghost use Rattle.std.specs.Prelude.{◌≡◌, is_ok, true, length, MatchResult};
ghost use Rattle.binlog_wire.specs.Reading.{Gives, Refuses};
ghost use Rattle.binlog_variable_fields.specs.Repeated.{times_at};
ghost use Rattle.binlog_optional_metadata.specs.Columns.{any_indexed, indexed_number, indexed_numbers};
ghost use Rattle.binlog_optional_metadata.specs.Sequences.{IsCount};

use crate::column_index::read_column_index;
use binlog_variable_fields::LenEnc;
use binlog_wire::{Error, IntRepr, ParseBuf};

/// Numbers of some columns, each with the index of its column: an iterator over pairs of an index and a number, which
/// borrows their bytes and allocates nothing.
#[derive(Clone, Copy, Debug)]
pub struct IndexedNumbers<'a> {
    left: u64,
    rest: &'a [u8],
    ghost is_whole: { is_ok (times_at left any_indexed.reads rest.now) ≡ true },
}

/// Takes an index and a number from the start of `buf`.
fn read_any(buf: &mut ParseBuf<'_>) -> Result<(u64, u64), Error>
    ensures { Gives ⊥ buf.new result (any_indexed.reads buf.old) }
{
    let index = LenEnc::read(buf)?;
    let number = LenEnc::read(buf)?;
    Ok((index, number))
}

/// Takes the index of one of this many columns and a number from the start of `buf`.
fn read_indexed(columns: u64, buf: &mut ParseBuf<'_>) -> Result<(u64, u64), Error>
    ensures { Gives ⊥ buf.new result ((indexed_number columns).reads buf.old) }
{
    let index = read_column_index(columns, buf)?;
    let number = LenEnc::read(buf)?;
    Ok((index, number))
}

/// The number of indexes of this many columns, each with a number, that these bytes consist of.
fn count_indexed(columns: u64, bytes: &[u8]) -> Result<u64, Error>
    ensures { MatchResult result
        (λ count. IsCount any_indexed.reads bytes.now ((indexed_numbers columns).reads bytes.now) count)
        (λ e. Refuses ⊥ e ((indexed_numbers columns).reads bytes.now)) }
{
    let mut buf = ParseBuf(bytes);
    let mut count = 0;
    while !buf.is_empty() {
        if let Err(error) = read_indexed(columns, &mut buf) {
            return Err(error);
        }
        count += 1;
    }
    Ok(count)
}

impl<'a> IndexedNumbers<'a> {
    ghost use Rattle.binlog_optional_metadata.specs.IndexedNumbers.{indexed_of, answer_indexed};

    /// Takes indexes of this many columns, each with a number, up to the end of `buf`.
    pub(crate) fn read(columns: u64, buf: &mut ParseBuf<'a>) -> Result<Self, Error>
        ensures { Gives ⊥ buf.new (answer_indexed result) ((indexed_numbers columns).reads buf.old) }
    {
        let rest = buf.0;
        let left = count_indexed(columns, rest)?;
        buf.0 = &[];
        Ok(IndexedNumbers { left, rest })
    }

    /// The number of pairs that are left.
    #[tactic(auto, using(crate::proofs::Sequences::values_count))]
    pub fn num_left(&self) -> u64
        ensures { result ≡ length (indexed_of self.now) }
    {
        self.left
    }
}

/// The indexes and numbers that are left, in order.
impl<'a> Iterator for IndexedNumbers<'a> {
    type Item = (u64, u64);

    ghost use Rattle.std.specs.Iterator.{YieldsFirst, item_count};
    ghost use Rattle.binlog_optional_metadata.specs.IndexedNumbers.{indexed_of};

    ghost next_gives = { YieldsFirst indexed_of };

    ghost remaining = { item_count indexed_of };

    #[tactic(auto, using(crate::proofs::Sequences::first_value, crate::proofs::Sequences::others_whole))]
    fn next(&mut self) -> Option<(u64, u64)> {
        if self.left == 0 {
            return None;
        }
        let mut rest = ParseBuf(self.rest);
        let Ok(pair) = read_any(&mut rest) else {
            unreachable!()
        };
        *self = IndexedNumbers {
            left: self.left - 1,
            rest: rest.0,
        };
        Some(pair)
    }
}
