//! Answers questions of Zstandard frames, for `tests/zstd.py` and `tests/zstd_library.py`.
use std::alloc::Global;
use std::io;
use std::io::{Read, Write};
use zstd_decode::{ZstdError, decompress};

/// The number of bytes of a number.
const NUMBER: usize = 8;

// A question: the most bytes of content, and the frames.
#[derive(Clone, Copy, Drop)]
struct Question<'a> {
    limit: usize,
    frames: &'a [u8],
}

// The number at the front of the bytes, and the bytes behind it.
fn number(bytes: &[u8]) -> Option<(usize, &[u8])> {
    let (number, rest) = bytes.split_first_chunk::<NUMBER>()?;
    Some((u64::from_le_bytes(*number) as usize, rest))
}

// The question at the front of the bytes, and the bytes behind it.
fn next_question(bytes: &[u8]) -> Option<(Question<'_>, &[u8])> {
    let (limit, rest) = number(bytes)?;
    let (size, rest) = number(rest)?;
    let (frames, rest) = rest.split_at_checked(size)?;
    Some((Question { limit, frames }, rest))
}

fn write_answer<W: Write>(
    alloc: Global,
    question: &Question<'_>,
    output: &mut W,
) -> io::Result<()> {
    match decompress(alloc, question.frames, question.limit) {
        Ok(content) => {
            writeln!(output, "{}", content.len())?;
            output.write_all(&content)
        }
        Err(ZstdError::Memory) => Err(io::Error::from(io::ErrorKind::OutOfMemory)),
        Err(error) => writeln!(output, "{error:?}"),
    }
}

/// Answers all questions.
///
/// # Errors
///
/// Those of memory, of the input and of the output.
pub(crate) fn write_answers<R: Read + Drop, W: Write>(
    alloc: Global,
    mut input: R,
    output: &mut W,
) -> io::Result<()> {
    let mut questions = Vec::new(alloc);
    input.read_to_end(&mut questions)?;
    answer_all(alloc, &questions, output)
}

fn answer_all<W: Write>(alloc: Global, questions: &[u8], output: &mut W) -> io::Result<()> {
    let mut rest = questions;
    // Each question has at least one byte.
    for _ in 0..questions.len() {
        let Some((asked, behind)) = next_question(rest) else {
            break;
        };
        write_answer(alloc, &asked, output)?;
        rest = behind;
    }
    Ok(())
}
