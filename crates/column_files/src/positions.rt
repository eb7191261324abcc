//! Where the position of a line is in a text.
ghost use Rattle.std.specs.Prelude.{◌≡◌, ◌≤◌, length};
ghost use Rattle.std.specs.List.{prefix_len};
ghost use Rattle.column_files.specs.Positions.{is_other, behind, behind_lines, position_at};

// The number of bytes before the first one that is this one.
fn count_before(text: &[u8], byte: u8) -> usize
    ensures count { result ≡ prefix_len (is_other byte) text.now }
    ensures within { result ≤ length text.now }
{
    text.iter().take_while(|other| **other != byte).count()
}

// What is behind the first byte that is this one; nothing if none is.
fn behind(text: &[u8], byte: u8) -> &[u8]
    ensures { result.now ≡ behind byte text.now }
{
    match text[count_before(text, byte)..].split_first() {
        Some((_, rest)) => rest,
        None => &[],
    }
}

// What is behind so many lines.
#[tactic(auto, using(crate::proofs::TextPositions::lines_more))]
fn behind_lines(text: &[u8], count: usize) -> &[u8]
    ensures { result.now ≡ behind_lines count text.now }
{
    let mut rest = text;
    'lines: for _ in 0..count {
        rest = behind(rest, b'\n');
    }
    rest
}

/// The index of the byte at which the third field of a line begins. The line has this index behind the first line of the text.
pub(crate) fn position_at(text: &[u8], index: usize) -> usize
    ensures { result ≡ position_at text.now index }
{
    let line = behind_lines(behind(text, b'\n'), index);
    let position = behind(behind(line, b'\t'), b'\t');
    text.len().saturating_sub(position.len())
}
