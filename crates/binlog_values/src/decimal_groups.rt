//! Decimal numbers by groups of their digits.
ghost use Rattle.std.specs.Prelude.{◌≡◌, ◌⊎◌, ◌≤◌, ◌+◌, ◌-◌, ◌*◌, ◌++◌, true, false, length, take, drop};
ghost use Rattle.std.specs.Fmt.{decimal};
ghost use Rattle.binlog_values.specs.Contents.{magnitude};
ghost use Rattle.binlog_values.specs.DecimalGroups.{group_at, group_text, is_begun_by, nines_text, nines_at};

use crate::digits::group_number;

/// The digits of a decimal number by groups, as they are stored: one group of at most nine digits, groups of nine, before and
/// behind the point, and the digits behind these. Groups in front whose digits are all zero are left out.
#[derive(Clone, Copy, Debug)]
pub struct DecimalGroups {
    pub(crate) first: u64,
    pub(crate) nines: [u64; 7],
    pub(crate) whole: usize,
    pub(crate) part: usize,
    pub(crate) last: u64,
    ghost few: { whole + part ≤ 7 },
}

impl DecimalGroups {
    /// The number of the first digits before the point. It is 0 only if all digits there are.
    #[inline]
    pub fn first(&self) -> u64
        ensures { result ≡ self.now.first }
    {
        self.first
    }

    /// The groups of nine digits behind the first digits, up to the point, by their numbers.
    #[inline]
    pub fn whole(&self) -> &[u64]
        ensures groups { result.now ≡ take self.now.whole self.now.nines }
        ensures len { length result.now ≡ self.now.whole }
    {
        &self.nines[..self.whole]
    }

    /// The groups of nine digits from the point on, by their numbers.
    #[inline]
    pub fn part(&self) -> &[u64]
        ensures groups { result.now ≡ take self.now.part (drop self.now.whole self.now.nines) }
        ensures len { length result.now ≡ self.now.part }
    {
        &self.nines[self.whole..self.whole + self.part]
    }

    /// The number of the digits behind these, fewer than nine; 0 for no digits.
    #[inline]
    pub fn last(&self) -> u64
        ensures { result ≡ self.now.last }
    {
        self.last
    }
}

/// The first group before the point whose number isn't zero, or the last one, and which groups of nine digits are behind it.
#[derive(Clone, Copy)]
pub(crate) struct Front {
    pub(crate) first: u64,
    pub(crate) place: usize,
    pub(crate) left: usize,
}

/// Looks for the first group whose number isn't zero: the one of this number, or one of `count` groups of nine digits behind it,
/// which begin at the index `start`.
#[inline(always)]
pub(crate) fn front_of(bytes: &[u8], number: u64, start: usize, count: usize) -> Front
    requires { start + 4 * count ≤ length bytes.now }
    ensures text { decimal result.first ++ nines_text result.left result.place true (magnitude bytes.now) ≡ group_text false 9 number ++ nines_text count start (is_begun_by false number) (magnitude bytes.now) }
    ensures place { result.place + 4 * result.left ≡ start + 4 * count }
    ensures few { result.left ≤ count }
    ensures stored { (result.first ≡ number) ⊎ ((start + 4 ≤ result.place) × (result.first ≡ group_at (result.place - 4) 9 (magnitude bytes.now))) }
{
    let mut first = number;
    let mut place = start;
    'zeros: for index in 0..count {
        if first != 0 {
            return Front {
                first,
                place,
                left: count - index,
            };
        }
        first = group_number(bytes, place, 9);
        place += 4;
    }
    Front {
        first,
        place,
        left: 0,
    }
}

/// The numbers of so many groups of nine digits, at most seven, from the index `at`, with zeros behind them.
#[inline(always)]
pub(crate) fn read_nines(bytes: &[u8], at: usize, count: usize) -> [u64; 7]
    requires few { count ≤ 7 }
    requires room { at + 4 * count ≤ length bytes.now }
    ensures { take count result ≡ nines_at count at (magnitude bytes.now) }
{
    let mut groups = [0; 7];
    let mut place = at;
    'groups: for index in 0..count {
        let group = group_number(bytes, place, 9);
        groups[index] = group;
        place += 4;
    }
    groups
}
