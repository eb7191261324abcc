//! The layouts of status variables' values.
ghost use Rattle.std.specs.Prelude.{◌≡◌, ◌≤◌, IfSome, length};
ghost use Rattle.binlog_statements.specs.Layouts.{layout_of, value_len, fixed_len, text_len, names_len, counted_names_len};

use binlog_consts::StatusVarKey;
use binlog_wire::{BytesRepr, NullBytes, ParseBuf};

/// The layout of a status variable's value.
#[derive(Clone, Copy, Debug, PartialEq, Eq)]
pub enum Layout {
    /// A fixed number of bytes.
    Bytes(usize),
    /// A text after its length (1 byte), then a fixed number of bytes.
    TextAnd(usize),
    /// Two texts, each after its length (1 byte).
    TwoTexts,
    /// Null-terminated names after their count (1 byte). No names follow a count of 254.
    Names,
}

/// The count that is written if the statement changes too many databases; no names follow it.
pub const TOO_MANY_NAMES: u8 = 254;

impl Layout {
    /// The layout of the value of a key.
    pub fn of(key: StatusVarKey) -> Layout
        ensures { result ≡ layout_of key }
    {
        match key {
            StatusVarKey::CommitTs | StatusVarKey::CommitTs2 => Layout::Bytes(0),
            StatusVarKey::ExplicitDefaultsForTimestamp
            | StatusVarKey::SqlRequirePrimaryKey
            | StatusVarKey::DefaultTableEncryption => Layout::Bytes(1),
            StatusVarKey::LcTimeNames
            | StatusVarKey::CharsetDatabase
            | StatusVarKey::DefaultCollationForUtf8mb4 => Layout::Bytes(2),
            StatusVarKey::Microseconds => Layout::Bytes(3),
            StatusVarKey::Flags2 | StatusVarKey::AutoIncrement | StatusVarKey::MasterDataWritten =>
                Layout::Bytes(4),
            StatusVarKey::Charset => Layout::Bytes(6),
            StatusVarKey::SqlMode
            | StatusVarKey::TableMapForUpdate
            | StatusVarKey::DdlLoggedWithXid => Layout::Bytes(8),
            StatusVarKey::TimeZone | StatusVarKey::CatalogNz => Layout::TextAnd(0),
            StatusVarKey::Catalog => Layout::TextAnd(1),
            StatusVarKey::Invoker => Layout::TwoTexts,
            StatusVarKey::UpdatedDbNames => Layout::Names,
        }
    }

    /// The length of the value at the start of the bytes; None if no prefix is a whole value.
    pub fn len(self, bytes: &[u8]) -> Option<usize>
        ensures { result ≡ value_len self bytes.now }
    {
        match self {
            Layout::Bytes(count) => fixed_len(count, bytes),
            Layout::TextAnd(count) => {
                let text = text_len(bytes)?;
                let more = fixed_len(count, &bytes[text..])?;
                Some(text + more)
            }
            Layout::TwoTexts => {
                let first = text_len(bytes)?;
                let second = text_len(&bytes[first..])?;
                Some(first + second)
            }
            Layout::Names => counted_names_len(bytes),
        }
    }
}

/// The count, if that many bytes are left.
fn fixed_len(count: usize, bytes: &[u8]) -> Option<usize>
    ensures { result ≡ fixed_len count bytes.now }
{
    if count <= bytes.len() {
        Some(count)
    } else {
        None
    }
}

/// The length of the text at the start, including its length byte.
fn text_len(bytes: &[u8]) -> Option<usize>
    ensures { result ≡ text_len bytes.now }
{
    let (len, text) = bytes.split_first()?;
    let len = usize::from(*len);
    if len <= text.len() {
        Some(1 + len)
    } else {
        None
    }
}

/// The length of the names at the start, including their count.
/// Not inlined: inlining costs the other layouts registers.
#[inline(never)]
fn counted_names_len(bytes: &[u8]) -> Option<usize>
    ensures { result ≡ counted_names_len bytes.now }
{
    let (count, names) = bytes.split_first()?;
    if *count == TOO_MANY_NAMES {
        return Some(1);
    }
    let len = names_len(*count, names)?;
    Some(1 + len)
}

/// The length of this many null-terminated names at the start.
fn names_len(count: u8, bytes: &[u8]) -> Option<usize>
    ensures count { result ≡ names_len count bytes.now }
    ensures within { IfSome result (λ len. len ≤ length bytes.now) }
{
    let mut unread = ParseBuf(bytes);
    let mut left = count;
    while left > 0 {
        NullBytes::read((), &mut unread).ok()?;
        left -= 1;
    }
    Some(bytes.len() - unread.len())
}
