//! The last bytes that were taken of a file.

use crate::log_files::OpenLog;

/// How many bytes there are at most.
const COUNT: usize = 4_096;

/// The last bytes that were taken of a file, with zeros in front of them where there are fewer.
#[derive(Clone, Copy)]
pub(crate) struct LastBytes {
    bytes: [u8; COUNT],
}

impl LastBytes {
    /// Nothing is taken of the file.
    pub(crate) fn new() -> Self {
        LastBytes { bytes: [0; COUNT] }
    }

    /// Takes some more.
    pub(crate) fn push(&mut self, piece: &[u8]) {
        let count = piece.len().min(COUNT);
        self.bytes.rotate_left(count);
        self.bytes[COUNT - count..].copy_from_slice(&piece[piece.len() - count..]);
    }

    /// Whether these bytes are still in the file, of which so many were taken. If it can't be read, they count as if they were.
    pub(crate) fn are_in<I: OpenLog>(&self, file: &I, taken: u64) -> bool {
        let count = taken.min(COUNT as u64) as usize;
        let mut bytes = [0; COUNT];
        match file.read_log_at(&mut bytes[..count], taken - count as u64) {
            Ok(read) => read == count && bytes[..count] == self.bytes[COUNT - count..],
            Err(_) => true,
        }
    }
}
