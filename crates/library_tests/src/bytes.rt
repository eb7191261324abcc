//! Logs and events as bytes. A checksum is the number of bytes before it in its event, where nothing else is said.

/// A log of a format description of server 5.6.1 with algorithm 1, 81 bytes, and an XID event, 31 bytes.
pub(crate) const LOG: &[u8] = b"\xfebin\0\0\0\0\x0f\x01\0\0\0\x51\0\0\0\0\0\0\0\0\0\
    \x04\0\x35.6.1\0\0\0\0\0\0\0\0\0\0\0\0\0\0\0\0\0\0\0\0\0\0\0\0\0\0\0\0\0\0\0\0\0\0\0\0\0\0\0\0\0\0\0\0\0\
    \0\0\0\0\x13\x01\x4d\0\0\0\
    \0\0\0\0\x10\x01\0\0\0\x1f\0\0\0\0\0\0\0\0\0\x0b\0\0\0\0\0\0\0\x1b\0\0\0";

/// Its description, and its XID event.
pub(crate) const DESCRIPTION: &[u8] = b"\0\0\0\0\x0f\x01\0\0\0\x51\0\0\0\0\0\0\0\0\0\
    \x04\0\x35.6.1\0\0\0\0\0\0\0\0\0\0\0\0\0\0\0\0\0\0\0\0\0\0\0\0\0\0\0\0\0\0\0\0\0\0\0\0\0\0\0\0\0\0\0\0\0\
    \0\0\0\0\x13\x01\x4d\0\0\0";

pub(crate) const XID: &[u8] =
    b"\0\0\0\0\x10\x01\0\0\0\x1f\0\0\0\0\0\0\0\0\0\x0b\0\0\0\0\0\0\0\x1b\0\0\0";

/// The body of the XID event.
pub(crate) const XID_BODY: &[u8] = b"\x0b\0\0\0\0\0\0\0";

/// A log of two XID events of 27 bytes without a checksum.
pub(crate) const PLAIN_LOG: &[u8] = b"\xfebin\
    \0\0\0\0\x10\x01\0\0\0\x1b\0\0\0\0\0\0\0\0\0\x0b\0\0\0\0\0\0\0\
    \0\0\0\0\x10\x01\0\0\0\x1b\0\0\0\0\0\0\0\0\0\x0b\0\0\0\0\0\0\0";

/// Its listing.
pub(crate) const PLAIN_LINES: &[u8] = b"0 16 27 0 0000 8 - read\n1 16 27 0 0000 8 - read\n";

/// The log of the description and the XID event, and after them the description with a header length of 18, the event, an event
/// with a body of three bytes, and the event.
pub(crate) const DAMAGED: &[u8] = b"\xfebin\0\0\0\0\x0f\x01\0\0\0\x51\0\0\0\0\0\0\0\0\0\
    \x04\0\x35.6.1\0\0\0\0\0\0\0\0\0\0\0\0\0\0\0\0\0\0\0\0\0\0\0\0\0\0\0\0\0\0\0\0\0\0\0\0\0\0\0\0\0\0\0\0\0\
    \0\0\0\0\x13\x01\x4d\0\0\0\
    \0\0\0\0\x10\x01\0\0\0\x1f\0\0\0\0\0\0\0\0\0\x0b\0\0\0\0\0\0\0\x1b\0\0\0\
    \0\0\0\0\x0f\x01\0\0\0\x51\0\0\0\0\0\0\0\0\0\
    \x04\0\x35.6.1\0\0\0\0\0\0\0\0\0\0\0\0\0\0\0\0\0\0\0\0\0\0\0\0\0\0\0\0\0\0\0\0\0\0\0\0\0\0\0\0\0\0\0\0\0\
    \0\0\0\0\x12\x01\x4d\0\0\0\
    \0\0\0\0\x10\x01\0\0\0\x1f\0\0\0\0\0\0\0\0\0\x0b\0\0\0\0\0\0\0\x1b\0\0\0\
    \0\0\0\0\x10\x01\0\0\0\x16\0\0\0\0\0\0\0\0\0abc\
    \0\0\0\0\x10\x01\0\0\0\x1f\0\0\0\0\0\0\0\0\0\x0b\0\0\0\0\0\0\0\x1b\0\0\0";

/// A log of MySQL 5.7 with the CRC-32 checksums that zlib computed: a format description with the in-use flag, and a statement.
pub(crate) const MYSQL_LOG: &[u8] = b"\xfebin\
    \xfd5\xbbJ\x0f\x01\0\0\0w\0\0\0\0\0\0\0\x01\0\x04\0\x35.7.44-log\0\0\0\0\0\0\0\0\0\0\0\0\0\0\0\0\
    \0\0\0\0\0\0\0\0\0\0\0\0\0\0\0\0\0\0\0\0\0\0\0\0\0\0\0\0\x138\x0d\0\x08\0\x12\0\x04\x04\x04\x04\
    \x12\0\0_\0\x04\x1a\x08\0\0\0\x08\x08\x08\x02\0\0\0\x0a\x0a\x0a**\0\x124\0\x01\x0cs\xba\xc5\
    \xfd5\xbbJ\x02\x01\0\0\0H\0\0\0\xc3\0\0\0\x08\0\x01\0\0\0\0\0\0\0\x04\0\0\x1a\0\0\0@\0\0\x01\0\0\
    \0\0\0\0\0\0\x06\x03std\x04\x08\0\x08\0\x08\0test\0BEGIN\xd5\x87\x82\"";
