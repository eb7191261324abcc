//! The extra flags of a GTID.
ghost use Rattle.std.specs.Prelude.{◌≡◌, ◌++◌, ◌+◌, ◌^◌, ◌≤◌, ◌<◌, Some, None, length, replicate, if◌then◌else◌, IfOk, IsOkUnless, vec_len, vec_capacity};
ghost use Rattle.std.specs.Cow.{cow_slice_items};
ghost use Rattle.binlog_wire.specs.declared.error.Error.TheVariants.{Memory};
ghost use Rattle.binlog_wire.specs.Reading.{Gives};
ghost use Rattle.binlog_wire.specs.Formats.{anywhere, last, number};
ghost use Rattle.binlog_mariadb.specs.Parts.{part, padding, zero_padded};
ghost use Rattle.binlog_mariadb.specs.Gtids.{extra, no_extra, has_engines, has_alter, has_thread, parts_len};

use crate::gtid_flags::has_bit;
use binlog_wire::{
    EofBytes, Error, IntRepr, IntoOwned, LeU32, LeU64, MyDeserialize, ParseBuf, Put, RawBytes,
    TryClone,
};
use std::alloc::Global;
use std::borrow::CowSlice;

/// The extra flags of a GTID, and the parts that they announce.
///
/// They are encoded as 1 byte; with its bit 1 the number of engines, 1 byte; with its bit 4 or 8 a sequence number, 8
/// bytes; with its bit 16 a thread id, 4 bytes; and reserved bytes to the end of the body. A part whose bit isn't set
/// is 0.
///
/// Source: "GTID_EVENT" in MariaDB's documentation.
#[derive(Debug, PartialEq, Eq, Hash, Drop)]
pub struct GtidExtra<'a> {
    flags: u8,
    engines: u8,
    alter_sequence: u64,
    thread_id: u32,
    padding: RawBytes<'a, EofBytes>,
}

/// Whether the number of engines follows these extra flags.
fn has_engines(flags: u8) -> bool
    ensures { result ≡ has_engines flags }
{
    has_bit(flags, GtidExtra::FL_EXTRA_MULTI_ENGINE)
}

/// Whether the sequence number of a START ALTER follows these extra flags.
fn has_alter(flags: u8) -> bool
    ensures { result ≡ has_alter flags }
{
    has_bit(flags, GtidExtra::FL_COMMIT_ALTER) || has_bit(flags, GtidExtra::FL_ROLLBACK_ALTER)
}

/// Whether a thread id follows these extra flags.
fn has_thread(flags: u8) -> bool
    ensures { result ≡ has_thread flags }
{
    has_bit(flags, GtidExtra::FL_EXTRA_THREAD_ID)
}

/// The number of bytes of the parts that these extra flags announce.
fn parts_len(flags: u8) -> usize
    ensures count { result ≡ parts_len flags }
    ensures small { result ≤ 13 }
{
    let engines = if has_engines(flags) { 1 } else { 0 };
    let alter = if has_alter(flags) { 8 } else { 0 };
    let thread = if has_thread(flags) { 4 } else { 0 };
    engines + alter + thread
}

/// Reads the number of engines if these extra flags announce it.
fn read_engines(flags: u8, buf: &mut ParseBuf<'_>) -> Result<u8, Error>
    ensures { Gives ⊥ buf.new result ((part {place = anywhere} (has_engines flags) 0 (number 1)).reads buf.old) }
{
    if has_engines(flags) {
        u8::read(buf)
    } else {
        Ok(0)
    }
}

/// Reads the sequence number of a START ALTER if these extra flags announce it.
fn read_alter(flags: u8, buf: &mut ParseBuf<'_>) -> Result<u64, Error>
    ensures { Gives ⊥ buf.new result ((part {place = anywhere} (has_alter flags) 0 (number 8)).reads buf.old) }
{
    if has_alter(flags) {
        LeU64::read(buf)
    } else {
        Ok(0)
    }
}

/// Reads a thread id if these extra flags announce it.
fn read_thread(flags: u8, buf: &mut ParseBuf<'_>) -> Result<u32, Error>
    ensures { Gives ⊥ buf.new result ((part {place = anywhere} (has_thread flags) 0 (number 4)).reads buf.old) }
{
    if has_thread(flags) {
        LeU32::read(buf)
    } else {
        Ok(0)
    }
}

/// Reads all bytes that are left, at least `needed` of them.
fn read_padding<'a>(
    alloc: Global,
    needed: usize,
    buf: &mut ParseBuf<'a>,
) -> Result<RawBytes<'a, EofBytes>, Error>
    ensures { Gives ⊥ buf.new result ((padding needed).reads buf.old) }
{
    if buf.len() < needed {
        return Err(Error::EndOfBody);
    }
    buf.parse(alloc, ())
}

/// Appends the number of engines if these extra flags announce it. `buf` has room for it.
fn put_engines(flags: u8, engines: u8, buf: &mut Vec<u8>)
    requires { vec_len buf.old + length ((part {place = anywhere} (has_engines flags) 0 (number 1)).written engines) ≤ vec_capacity buf.old }
    ensures items { buf.new.items ≡ buf.old.items ++ (part {place = anywhere} (has_engines flags) 0 (number 1)).written engines }
    ensures len { vec_len buf.new ≡ vec_len buf.old + length ((part {place = anywhere} (has_engines flags) 0 (number 1)).written engines) }
    ensures capacity { vec_capacity buf.old ≤ vec_capacity buf.new }
{
    if has_engines(flags) {
        u8::put(engines, buf);
    }
}

/// Appends the sequence number of a START ALTER if these extra flags announce it. `buf` has room for it.
fn put_alter(flags: u8, sequence: u64, buf: &mut Vec<u8>)
    requires { vec_len buf.old + length ((part {place = anywhere} (has_alter flags) 0 (number 8)).written sequence) ≤ vec_capacity buf.old }
    ensures items { buf.new.items ≡ buf.old.items ++ (part {place = anywhere} (has_alter flags) 0 (number 8)).written sequence }
    ensures len { vec_len buf.new ≡ vec_len buf.old + length ((part {place = anywhere} (has_alter flags) 0 (number 8)).written sequence) }
    ensures capacity { vec_capacity buf.old ≤ vec_capacity buf.new }
{
    if has_alter(flags) {
        LeU64::put(sequence, buf);
    }
}

/// Appends a thread id if these extra flags announce it. `buf` has room for it.
fn put_thread(flags: u8, thread_id: u32, buf: &mut Vec<u8>)
    requires { vec_len buf.old + length ((part {place = anywhere} (has_thread flags) 0 (number 4)).written thread_id) ≤ vec_capacity buf.old }
    ensures items { buf.new.items ≡ buf.old.items ++ (part {place = anywhere} (has_thread flags) 0 (number 4)).written thread_id }
    ensures len { vec_len buf.new ≡ vec_len buf.old + length ((part {place = anywhere} (has_thread flags) 0 (number 4)).written thread_id) }
    ensures capacity { vec_capacity buf.old ≤ vec_capacity buf.new }
{
    if has_thread(flags) {
        LeU32::put(thread_id, buf);
    }
}

static ZEROS: [u8; 5] = [0; 5];

/// This number of zeros, at most five.
fn zeros(count: usize) -> &'static [u8]
    requires { count ≤ 5 }
    ensures zeros { result.now ≡ replicate count 0 }
    ensures len { length result.now ≡ count }
{
    &ZEROS[..count]
}

/// Appends the bytes and, if there are fewer than `needed`, zeros up to that number, which is at most five. `buf` has
/// room for them.
fn put_padding(bytes: &[u8], needed: usize, buf: &mut Vec<u8>)
    requires few { needed ≤ 5 }
    requires room { vec_len buf.old + length (zero_padded needed bytes.now) ≤ vec_capacity buf.old }
    ensures items { buf.new.items ≡ buf.old.items ++ zero_padded needed bytes.now }
    ensures len { vec_len buf.new ≡ vec_len buf.old + length (zero_padded needed bytes.now) }
    ensures capacity { vec_capacity buf.old ≤ vec_capacity buf.new }
{
    buf.extend_from_slice(bytes).unwrap();
    buf.extend_from_slice(zeros(needed.saturating_sub(bytes.len())))
        .unwrap();
}

impl GtidExtra<'_> {
    /// The bit set if the number of engines follows.
    pub const FL_EXTRA_MULTI_ENGINE: u8 = 1;
    /// The bit of the first half of an ALTER TABLE in two phases.
    pub const FL_START_ALTER: u8 = 2;
    /// The bit of the second half of an ALTER TABLE in two phases; the sequence number of the first half follows.
    pub const FL_COMMIT_ALTER: u8 = 4;
    /// The bit of an ALTER TABLE that is rolled back; the sequence number of the first half follows.
    pub const FL_ROLLBACK_ALTER: u8 = 8;
    /// The bit set if a thread id follows.
    pub const FL_EXTRA_THREAD_ID: u8 = 16;
}

impl<'a> GtidExtra<'a> {
    /// No bits set, and no reserved bytes.
    pub fn empty() -> Self
        ensures { result ≡ no_extra }
    {
        GtidExtra {
            flags: 0,
            engines: 0,
            alter_sequence: 0,
            thread_id: 0,
            padding: RawBytes::default(),
        }
    }

    /// Sets all bits of the flags. A part that they don't announce isn't written.
    pub fn with_flags(mut self, flags: u8) -> Self
        ensures { result ≡ record self.entry { flags = flags } }
    {
        self.flags = flags;
        self
    }

    /// Sets the number of engines; it is written only if [`GtidExtra::FL_EXTRA_MULTI_ENGINE`] is set.
    pub fn with_engines(mut self, engines: u8) -> Self
        ensures { result ≡ record self.entry { engines = engines } }
    {
        self.engines = engines;
        self
    }

    /// Sets the sequence number of the START ALTER; it is written only if [`GtidExtra::FL_COMMIT_ALTER`] or
    /// [`GtidExtra::FL_ROLLBACK_ALTER`] is set.
    pub fn with_alter_sequence(mut self, alter_sequence: u64) -> Self
        ensures { result ≡ record self.entry { alter_sequence = alter_sequence } }
    {
        self.alter_sequence = alter_sequence;
        self
    }

    /// Sets the thread id; it is written only if [`GtidExtra::FL_EXTRA_THREAD_ID`] is set.
    pub fn with_thread_id(mut self, thread_id: u32) -> Self
        ensures { result ≡ record self.entry { thread_id = thread_id } }
    {
        self.thread_id = thread_id;
        self
    }

    /// Sets the reserved bytes after the parts.
    pub fn with_padding(mut self, padding: CowSlice<'a, u8>) -> Self
        ensures { result ≡ record self.entry { padding = cow_slice_items padding.entry } }
    {
        self.padding = RawBytes::new(padding);
        self
    }

    /// All bits of the flags.
    pub fn flags(&self) -> u8
        ensures { result ≡ self.now.flags }
    {
        self.flags
    }

    /// The number of storage engines that took part, besides the binary log; 255 if it isn't known. None if the flags
    /// don't announce it.
    pub fn engines(&self) -> Option<u8>
        ensures { result ≡ (if has_engines self.now.flags then Some self.now.engines else None) }
    {
        if has_engines(self.flags) {
            Some(self.engines)
        } else {
            None
        }
    }

    /// The sequence number of the first half of an ALTER TABLE in two phases. None if the flags don't announce it.
    pub fn alter_sequence(&self) -> Option<u64>
        ensures { result ≡ (if has_alter self.now.flags then Some self.now.alter_sequence else None) }
    {
        if has_alter(self.flags) {
            Some(self.alter_sequence)
        } else {
            None
        }
    }

    /// The id of the thread that ran the event group. None if the flags don't announce it.
    pub fn thread_id(&self) -> Option<u32>
        ensures { result ≡ (if has_thread self.now.flags then Some self.now.thread_id else None) }
    {
        if has_thread(self.flags) {
            Some(self.thread_id)
        } else {
            None
        }
    }

    /// The reserved bytes after the parts.
    pub fn padding_raw(&self) -> &[u8]
        ensures { result.now ≡ self.now.padding }
    {
        self.padding.as_bytes()
    }

    /// Reads extra flags and all bytes after them, which have to be at least `needed`. The only error is
    /// [`Error::EndOfBody`], if the bytes end within a part or fewer than `needed` follow.
    pub(crate) fn read(alloc: Global, needed: usize, buf: &mut ParseBuf<'a>) -> Result<Self, Error>
        ensures { Gives ⊥ buf.new result ((extra needed).reads buf.old) }
    {
        let flags = u8::read(buf)?;
        let engines = read_engines(flags, buf)?;
        let alter_sequence = read_alter(flags, buf)?;
        let thread_id = read_thread(flags, buf)?;
        let padding = read_padding(alloc, needed.saturating_sub(parts_len(flags)), buf)?;
        Ok(GtidExtra {
            flags,
            engines,
            alter_sequence,
            thread_id,
            padding,
        })
    }

    /// The number of bytes written, of which at least `needed` come after the flags.
    pub(crate) fn written_len(&self, needed: usize) -> usize
        requires { needed ≤ 5 }
        ensures count { result ≡ length ((extra needed).written self.now) }
        ensures small { result ≤ 2 ^ 63 + 14 }
    {
        let parts = parts_len(self.flags);
        let padding = needed.saturating_sub(parts).max(self.padding.written_len());
        1 + parts + padding
    }

    /// Appends the extra flags and all that follows them, at least `needed` bytes. `buf` has room for them.
    #[tactic(auto, using(std::proofs::Common::append_assoc))]
    pub(crate) fn put(&self, needed: usize, buf: &mut Vec<u8>)
        requires few { needed ≤ 5 }
        requires room { vec_len buf.old + length ((extra needed).written self.now) ≤ vec_capacity buf.old }
        ensures items { buf.new.items ≡ buf.old.items ++ (extra needed).written self.now }
        ensures len { vec_len buf.new ≡ vec_len buf.old + length ((extra needed).written self.now) }
        ensures capacity { vec_capacity buf.old ≤ vec_capacity buf.new }
    {
        u8::put(self.flags, buf);
        put_engines(self.flags, self.engines, buf);
        put_alter(self.flags, self.alter_sequence, buf);
        put_thread(self.flags, self.thread_id, buf);
        let left = needed.saturating_sub(parts_len(self.flags));
        put_padding(self.padding.as_bytes(), left, buf);
    }
}

impl<'a> IntoOwned for GtidExtra<'a> {
    type Owned = GtidExtra<'static>;

    ghost is_owned = { λ value owned. owned ≡ value };

    fn into_owned(self, alloc: Global) -> Result<GtidExtra<'static>, Error> {
        let padding = self.padding.into_owned(alloc)?;
        Ok(GtidExtra {
            flags: self.flags,
            engines: self.engines,
            alter_sequence: self.alter_sequence,
            thread_id: self.thread_id,
            padding,
        })
    }
}

impl<'a> TryClone for GtidExtra<'a> {
    fn clone(&self, alloc: Global) -> Result<Self, Error> {
        let padding = self.padding.clone(alloc)?;
        Ok(GtidExtra {
            flags: self.flags,
            engines: self.engines,
            alter_sequence: self.alter_sequence,
            thread_id: self.thread_id,
            padding,
        })
    }
}
