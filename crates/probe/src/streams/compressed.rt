//! Writes the text of the zlib stream on standard input, or the content of the Zstandard frames there, or the name of the refusal on
//! standard error. `tests/inflate.py` compares texts with Python's `zlib`, and `tests/cases.py` with streams that were worked by hand;
//! `bench/measure_inflate.py` and `bench/measure_zstd.py` count the instructions.
use crate::INPUT_BUFFER_SIZE;
use inflate::{Error, decompress_zlib};
use std::io::{self, BufReader, Read, Write};
use zstd_decode::{ZstdError, decompress};

/// The longest text, in bytes.
const LIMIT: usize = 1 << 30;

/// The exit statuses.
const WRITTEN: u8 = 0;

const REFUSED: u8 = 1;

const FAILED: u8 = 2;

/// How the input is compressed.
#[derive(Clone, Copy)]
pub(crate) enum Format {
    Zlib,
    Zstd,
}

/// The format of the mode of this name; None if there is none.
pub(crate) fn format_of(name: &str) -> Option<Format> {
    match name {
        "inflate" => Some(Format::Zlib),
        "zstd" => Some(Format::Zstd),
        _ => None,
    }
}

fn read_input<R: Input + AllocGlobal>(rt: &R) -> io::Result<Vec<u8>> {
    let mut input = BufReader::with_capacity(rt.alloc(), INPUT_BUFFER_SIZE, rt.reader())?;
    let mut bytes = Vec::new(rt.alloc());
    input.read_to_end(&mut bytes)?;
    Ok(bytes)
}

fn write_text<W: Write>(text: &[u8], output: &mut W) -> u8 {
    if output.write_all(text).is_ok() && output.flush().is_ok() {
        WRITTEN
    } else {
        FAILED
    }
}

fn write_zlib(rt: &(impl Print + Eprint + AllocGlobal), stream: &[u8]) -> u8 {
    let mut output = io::writer(rt);
    match decompress_zlib(rt.alloc(), stream, LIMIT) {
        Ok(text) => write_text(&text, &mut output),
        Err(Error::Memory) => FAILED,
        Err(error) => status_of_refusal(eprintln!(rt; "{error:?}")),
    }
}

fn write_zstd(rt: &(impl Print + Eprint + AllocGlobal), frames: &[u8]) -> u8 {
    let mut output = io::writer(rt);
    match decompress(rt.alloc(), frames, LIMIT) {
        Ok(content) => write_text(&content, &mut output),
        Err(ZstdError::Memory) => FAILED,
        Err(error) => status_of_refusal(eprintln!(rt; "{error:?}")),
    }
}

fn status_of_refusal(named: io::Result<()>) -> u8 {
    match named {
        Ok(()) => REFUSED,
        Err(_) => FAILED,
    }
}

/// Writes the text or the content. The result is the exit status.
pub(crate) fn run(rt: &(impl Input + Print + Eprint + AllocGlobal), format: Format) -> u8 {
    let Ok(bytes) = read_input(rt) else {
        return FAILED;
    };
    match format {
        Format::Zlib => write_zlib(rt, &bytes),
        Format::Zstd => write_zstd(rt, &bytes),
    }
}
