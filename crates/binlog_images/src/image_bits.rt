//! The bits of an image.
ghost use Rattle.std.specs.Prelude.{◌≡◌, ◌<◌, ◌≤◌, ◌+◌, ◌/◌, ℕ, true, length, option_map};
ghost use Rattle.byteorder.specs.Endian.{little_number};
ghost use Rattle.binlog_wire.specs.Fields.{IsBytes};
ghost use Rattle.binlog_wire.specs.Reading.{Gives};
ghost use Rattle.binlog_rows.specs.Columns.{bitmap};
ghost use Rattle.binlog_rows.specs.Images.{bitmap_of};
ghost use Rattle.binlog_images.specs.Bits.{is_set, is_present, is_null, first_bits, next_bits, set_count};
ghost use Rattle.binlog_images.specs.BitmapViews.{answer_bitmap};
ghost use Rattle.binlog_images.specs.NullWords.{HoldsNulls};

use binlog_wire::{BitView, Error, ParseBuf};
use byteorder::{ByteOrder, LittleEndian};

/// The bits of an image, and the places of the next column's.
#[derive(Clone, Copy, Debug)]
pub(crate) struct ImageBits<'a> {
    /// Which of the table's columns are present.
    pub(crate) present: BitView<'a>,
    /// Which of the present columns are NULL.
    pub(crate) nulls: BitView<'a>,
    /// True if all columns are present: then no bit is looked up.
    pub(crate) all_present: bool,
    /// Where at most 64 columns are present, which of the columns that are left are NULL: the next column's bit is the least
    /// significant one.
    pub(crate) null_word: Option<u64>,
    /// The index of the column among all columns.
    pub(crate) index: u64,
    /// The index of the column among the present ones.
    pub(crate) place: u64,
    ghost present_each: { all_present ≡ true → (k : ℕ) → k < present.len → is_set (bitmap_of present) k ≡ true },
    ghost null_each: { HoldsNulls null_word (bitmap_of nulls) place },
}

impl<'a> ImageBits<'a> {
    ghost use Rattle.binlog_images.specs.BitsOf.{bits_of};

    /// The bits of the first column of an image of which these columns are present, and are known to be all of them if
    /// `all_present` is true.
    #[inline(always)]
    pub(crate) fn first(present: BitView<'a>, all_present: bool, nulls: BitView<'a>) -> Self
        requires { all_present ≡ true → (k : ℕ) → k < present.len → is_set (bitmap_of present) k ≡ true }
        ensures bits { bits_of result ≡ first_bits (bitmap_of present.entry) (bitmap_of nulls.entry) }
        ensures len { result.present.len ≡ present.entry.len }
        ensures index { result.index ≡ 0 }
        ensures place { result.place ≡ 0 }
    {
        ImageBits {
            present,
            nulls,
            all_present,
            null_word: word_of(nulls),
            index: 0,
            place: 0,
        }
    }

    /// Whether the next column is present.
    #[tactic(auto, using(crate::proofs::AlikeBits::all_set))]
    #[inline(always)]
    pub(crate) fn is_present(&self) -> bool
        ensures { result ≡ is_present (bits_of self.now) }
    {
        if self.all_present {
            self.index < self.present.len()
        } else {
            is_set(self.present, self.index)
        }
    }

    /// Whether the next column, if it is present, is NULL.
    #[inline(always)]
    pub(crate) fn is_null(&self) -> bool
        ensures { result ≡ is_null (bits_of self.now) }
    {
        match self.null_word {
            Some(word) => word % 2 == 1,
            None => is_set(self.nulls, self.place),
        }
    }

    /// Goes to the next column, after this one, which was present or not.
    #[inline(always)]
    pub(crate) fn advance(&mut self, was_present: bool)
        requires present { was_present ≡ is_present (bits_of self.old) }
        requires index { self.old.index < self.old.present.len }
        requires place { self.old.place ≤ self.old.index }
        ensures next { bits_of self.new ≡ next_bits (bits_of self.old) }
        ensures len { self.new.present.len ≡ self.old.present.len }
        ensures index { self.new.index ≡ self.old.index + 1 }
        ensures place { self.new.place ≤ self.new.index }
    {
        self.index += 1;
        if !was_present {
            return;
        }
        self.place += 1;
        self.null_word = next_word(self.null_word);
    }
}

/// Whether the bit at this index is set; none is beyond the last one.
#[inline(always)]
pub(crate) fn is_set(bits: BitView<'_>, index: u64) -> bool
    ensures { result ≡ is_set (bitmap_of bits.entry) index }
{
    bits.bit(index).unwrap_or(false)
}

// Bytes are below 256, which is a premise of what the bits of their number are.
fn are_bytes(bytes: &[u8])
    ensures { IsBytes bytes.now }
{}

/// The little-endian number of these bytes, at most eight.
// Most are one or two, and then are one load.
#[inline(always)]
fn number_of(bytes: &[u8]) -> u64
    requires { length bytes.now ≤ 8 }
    ensures { result ≡ little_number (length bytes.now) bytes.now }
{
    match bytes.len() {
        0 => 0,
        1 => LittleEndian::read_uint(bytes, 1),
        2 => LittleEndian::read_uint(bytes, 2),
        len => LittleEndian::read_uint(bytes, len),
    }
}

/// The bits as one number, the first one the least significant, where there are at most 64.
#[tactic(auto, using(crate::proofs::NullWords::no_word))]
#[inline(always)]
fn word_of(bits: BitView<'_>) -> Option<u64>
    ensures { HoldsNulls result (bitmap_of bits.entry) 0 }
{
    let len = bits.len();
    if len > 64 {
        return None;
    }
    let bytes = bits.as_bytes();
    are_bytes(bytes);
    let number = number_of(bytes);
    if len == 64 {
        Some(number)
    } else {
        // Bits behind the last column's may be set.
        Some(number % (1 << len))
    }
}

/// The bits behind the first one.
#[inline(always)]
fn next_word(word: Option<u64>) -> Option<u64>
    ensures { result ≡ option_map (λ bits. bits / 2) word }
{
    match word {
        Some(bits) => Some(bits / 2),
        None => None,
    }
}

/// The number of bits that are set.
#[tactic(auto, using(crate::proofs::Counts::count_step, crate::proofs::Counts::count_end))]
pub(crate) fn set_count(bits: BitView<'_>) -> u64
    ensures { result ≡ set_count bits.entry.len 0 (bitmap_of bits.entry) }
{
    let mut count = 0;
    for index in 0..bits.len() {
        if is_set(bits, index) {
            count += 1;
        }
    }
    count
}

/// Takes a bitmap of this many bits from the start of `buf`.
///
/// # Errors
///
/// [`Error::EndOfBody`] where its bytes aren't all there.
#[inline(always)]
pub(crate) fn read_bitmap<'a>(len: u64, buf: &mut ParseBuf<'a>) -> Result<BitView<'a>, Error>
    ensures { Gives ⊥ buf.new (answer_bitmap result) ((bitmap len).reads buf.old) }
{
    let bytes = buf
        .checked_eat(len.div_ceil(8) as usize)
        .ok_or(Error::EndOfBody)?;
    Ok(BitView::new(bytes, len).unwrap())
}
