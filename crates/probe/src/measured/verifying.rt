//! Verifying the checksums of a log.
use crate::measured::numbers::write_numbers;
use binlog_file::Error;
use examples::verifying::{count_mismatches, list_by_crc32};
use std::alloc::Global;
use std::io::{BufRead, Write};

/// Lists a log with its checksums verified. The result is the exit status of a listing.
pub(crate) fn list<R: BufRead + Drop, W: Write>(alloc: Global, input: R, output: &mut W) -> u8 {
    let answer = list_by_crc32(alloc, input, &mut *output);
    crate::listing_status(answer, output)
}

/// Writes the number of events whose checksum isn't right. The result is the exit status of a listing.
pub(crate) fn count<R: BufRead + Drop, W: Write>(alloc: Global, input: R, output: &mut W) -> u8 {
    let answer = write_mismatches(alloc, input, &mut *output);
    crate::listing_status(answer, output)
}

fn write_mismatches<R: BufRead + Drop, W: Write>(
    alloc: Global,
    input: R,
    output: &mut W,
) -> Result<bool, Error> {
    let count = count_mismatches(alloc, input)?;
    write_numbers(&[count], output)?;
    Ok(count > 0)
}
