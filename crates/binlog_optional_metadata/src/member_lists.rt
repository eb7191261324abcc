//! The members of ENUM and SET columns.
ghost use Rattle.std.specs.Prelude.{◌≡◌, is_ok, true, length};
ghost use Rattle.binlog_wire.specs.Reading.{Gives};
ghost use Rattle.binlog_variable_fields.specs.Repeated.{times_at};
ghost use Rattle.binlog_optional_metadata.specs.Lists.{text_list};
ghost use Rattle.binlog_optional_metadata.specs.Names.{answer_names};

use crate::names::Names;
use binlog_variable_fields::LenEnc;
use binlog_wire::{Error, IntRepr, ParseBuf};

/// The members of each ENUM or of each SET column: an iterator over the lists, which borrows their bytes and allocates
/// nothing.
#[derive(Clone, Copy, Debug)]
pub struct MemberLists<'a> {
    left: u64,
    rest: &'a [u8],
    ghost is_whole: { is_ok (times_at left text_list.reads rest.now) ≡ true },
}

/// Takes the members of a column from the start of `buf`.
fn read_members<'a>(buf: &mut ParseBuf<'a>) -> Result<Names<'a>, Error>
    ensures { Gives ⊥ buf.new (answer_names result) (text_list.reads buf.old) }
{
    let count = LenEnc::read(buf)?;
    if (buf.0.len() as u64) < count {
        return Err(Error::EndOfBody);
    }
    Names::read(count, buf)
}

impl<'a> MemberLists<'a> {
    ghost use Rattle.binlog_optional_metadata.specs.MemberLists.{lists_of, answer_lists};

    /// Takes this many lists from the start of `buf`.
    #[tactic(auto, using(crate::proofs::Sequences::rest_turn, crate::proofs::Sequences::refused_here, crate::proofs::Sequences::rest_end, crate::proofs::Sequences::whole_end))]
    pub(crate) fn read(left: u64, buf: &mut ParseBuf<'a>) -> Result<Self, Error>
        ensures { Gives ⊥ buf.new (answer_lists result) (times_at left text_list.reads buf.old) }
    {
        let rest = buf.0;
        for _index in 0..left {
            if let Err(error) = read_members(buf) {
                return Err(error);
            }
        }
        Ok(MemberLists { left, rest })
    }

    /// The number of lists that are left.
    #[tactic(auto, using(crate::proofs::Sequences::values_count))]
    pub fn num_left(&self) -> u64
        ensures { result ≡ length (lists_of self.now) }
    {
        self.left
    }
}

/// The lists that are left, in the order of the columns. Each is an iterator over the members of one column.
impl<'a> Iterator for MemberLists<'a> {
    type Item = Names<'a>;

    ghost use Rattle.std.specs.Iterator.{YieldsFirstBy, item_count};
    ghost use Rattle.binlog_optional_metadata.specs.MemberLists.{lists_of};
    ghost use Rattle.binlog_optional_metadata.specs.Names.{names_of};

    ghost next_gives = { YieldsFirstBy names_of lists_of };

    ghost remaining = { item_count lists_of };

    #[tactic(auto, using(crate::proofs::Sequences::first_value, crate::proofs::Sequences::others_whole, crate::proofs::Sequences::never_an_error))]
    fn next(&mut self) -> Option<Names<'a>> {
        if self.left == 0 {
            return None;
        }
        let mut rest = ParseBuf(self.rest);
        let Ok(members) = read_members(&mut rest) else {
            unreachable!()
        };
        *self = MemberLists {
            left: self.left - 1,
            rest: rest.0,
        };
        Some(members)
    }
}
