//! Which server wrote a log.
ghost use Rattle.std.specs.Prelude.{◌≡◌, ◌↔◌, IsTrue, take};
ghost use Rattle.std.specs.List.{prefix_len};
ghost use Rattle.binlog_event_format.specs.DescriptionRefs.{description_of};
ghost use Rattle.binlog_mariadb.specs.Flavour.{is_text_byte, version_text, Contains, IsMariaVersion};

use binlog_event_format::DescriptionRef;
use memchr::memmem;

/// Whether a byte isn't zero, so that it doesn't end the text of a version.
fn is_text_byte(byte: u8) -> bool
    ensures { result ≡ is_text_byte byte }
{
    byte != 0
}

/// The number of bytes before the first zero.
fn text_len(version: &[u8]) -> usize
    ensures { result ≡ prefix_len is_text_byte version.now }
{
    version
        .iter()
        .take_while(|byte| is_text_byte(**byte))
        .count()
}

/// The bytes of a version before its first zero, or all if there is none.
fn version_text(version: &[u8]) -> &[u8]
    ensures { result.now ≡ version_text version.now }
{
    let (text, _) = version.split_at(text_len(version));
    text
}

/// Whether these bytes are in the text.
fn contains(text: &[u8], part: &[u8]) -> bool
    ensures { IsTrue result ↔ Contains text.now part.now }
{
    memmem::find(text, part).is_some()
}

/// Whether a server version is MariaDB's, such as `10.11.6-MariaDB-log`: `MariaDB` or, as in versions 5.1, `-maria-` is in the
/// bytes before the first zero byte. So MariaDB's server knows its own logs.
pub fn is_maria_version(version: &[u8]) -> bool
    ensures { IsTrue result ↔ IsMariaVersion version.now }
{
    let text = version_text(version);
    contains(text, b"MariaDB") || contains(text, b"-maria-")
}

/// Whether a log is MariaDB's, by the server version of its format description. Only in such a log do events of the
/// types 160 to 171 have the formats of this crate.
pub fn is_maria_log(fde: &DescriptionRef<'_>) -> bool
    ensures { IsTrue result ↔ IsMariaVersion (take 50 (description_of fde.now).server_version) }
{
    is_maria_version(fde.server_version_raw())
}
