//! Where a byte of a text is.
ghost use Rattle.std.specs.Prelude.{◌≡◌, ◌≤◌, length, reverse};
ghost use Rattle.std.specs.List.{count_by, prefix_len};
ghost use Rattle.column_files.specs.Places.{is_line_feed, is_not_line_feed, place_of};

/// A place in a text: a line, and a byte of it, both counted from 1.
#[derive(Clone, Copy, Debug, PartialEq, Eq)]
pub struct Place {
    /// The line.
    pub line: usize,
    /// The byte of the line. A tab is one.
    pub column: usize,
}

// The number of line feeds.
fn line_feeds(text: &[u8]) -> usize
    ensures { result ≡ count_by is_line_feed text.now }
{
    text.iter().filter(|byte| **byte == b'\n').count()
}

// The number of bytes behind the last line feed.
fn bytes_behind(text: &[u8]) -> usize
    ensures count { result ≡ prefix_len is_not_line_feed (reverse text.now) }
    ensures within { result ≤ length text.now }
{
    text.iter().rev().take_while(|byte| **byte != b'\n').count()
}

impl Place {
    /// Where the byte with this index is in a text, counted from 0; where the text ends, if it has no such byte.
    pub fn of_byte(text: &[u8], index: usize) -> Place
        ensures { result ≡ place_of text.now index }
    {
        let before = &text[..index.min(text.len())];
        Place {
            line: line_feeds(before) + 1,
            column: bytes_behind(before) + 1,
        }
    }
}
