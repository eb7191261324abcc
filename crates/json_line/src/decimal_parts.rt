//! The parts of decimal numbers.
ghost use Rattle.std.specs.Prelude.{◌≡◌, ◌≤◌, ◌+◌, ◌/◌, length};

/// The digits of a decimal number, by groups: `-12345678901.5` is the number 12, the group 345678901 before the point, and the
/// number 5 behind it.
#[derive(Clone, Copy, Debug)]
pub struct DecimalParts<'a> {
    /// Whether the number has a minus sign.
    pub is_negative: bool,
    /// The number of the first digits. At least one is written.
    pub first: u64,
    /// The digits between them and the point, as numbers of nine digits each.
    pub whole: &'a [u64],
    /// How many digits are behind the point. Without any there is no point.
    pub scale: u8,
    /// Of these the groups of nine digits, as many as there are, from the point on. There are at most seven groups before and
    /// behind the point.
    pub part: &'a [u64],
    /// The number of the digits behind these groups.
    pub last: u64,
    ghost few: { length whole.now + length part.now ≤ 7 },
    ghost nines: { length part.now ≡ scale / 9 },
}
