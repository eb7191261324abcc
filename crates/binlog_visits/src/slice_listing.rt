//! The listing of a log in memory.
ghost use Rattle.std.specs.Prelude.{◌≡◌, ◌⊎◌, false, Some, IfErr};
ghost use Rattle.binlog_wire.specs.Errors.{is_environment_error};
ghost use Rattle.binlog_wire.specs.declared.error.Error.TheVariants.{Memory, Writer};
ghost use Rattle.binlog_file.specs.EventRefs.{item_view};
ghost use Rattle.binlog_file.specs.Writing.{CountsWriter};
ghost use Rattle.binlog_visits.specs.Lines.{Lists, ListsItem};
ghost use Rattle.binlog_visits.specs.SliceLines.{ListsSlice, IsSliceError, answered};

use crate::item_lines::ItemLines;
use crate::output::write_line;
use binlog_file::{BinlogSlice, BinlogVersion, CountedRef, Error, EventRef, WriteCounted};
use std::alloc::Global;
use std::io::Write;

/// Writes the line of each item of a binlog file in memory, as [`list`](crate::list) does for a reader. The result is
/// whether an item was an error. The output isn't flushed.
///
/// # Errors
///
/// - [`Error::EndOfInput`] if there are fewer than four bytes; nothing is written.
/// - [`Error::InvalidFileHeader`] if the first four bytes aren't `fe 62 69 6e`; nothing is written.
/// - [`Error::Memory`] if an allocation failed for a line. The lines of all items before it are written.
/// - [`Error::Writer`] if the writer failed; a prefix of the listing is written.
pub fn list_slice<W: Write, L: ItemLines + Drop>(
    alloc: Global,
    bytes: &[u8],
    mut lines: L,
    output: &mut W,
) -> Result<bool, Error>
    ensures lists { Lists L.line L.takes bytes.now (W.contents output.old) result (W.contents output.new) }
    ensures err { IfErr result IsSliceError }
{
    let slice = BinlogSlice::new(BinlogVersion::Version4, bytes)?;
    let mut output = CountedRef::new(&mut *output);
    list_items(alloc, slice, &mut lines, &mut output)
}

// Writes the line of each item of a slice, with indexes from 0.
fn list_items<W: WriteCounted, L: ItemLines>(
    alloc: Global,
    slice: BinlogSlice<'_>,
    lines: &mut L,
    output: &mut W,
) -> Result<bool, Error>
    requires { slice.is_ended ≡ false }
    ensures lists { ListsSlice L.line L.takes slice.entry (W.contents output.old) result (W.contents output.new) }
    ensures kind { IfErr result (λ e. (e ≡ Memory) ⊎ (e ≡ Writer)) }
    ensures writer { CountsWriter result (W.count output.old) (W.count output.new) }
{
    let mut has_errors = false;
    let mut index = 0;
    for item in slice {
        has_errors |= list_item(alloc, index, item, lines, output)?;
        index += 1;
    }
    Ok(has_errors)
}

// Writes the line of an item. The result is whether the item is an error.
#[inline(always)]
fn list_item<W: WriteCounted, L: ItemLines>(
    alloc: Global,
    index: u64,
    item: Result<EventRef<'_>, Error>,
    lines: &mut L,
    output: &mut W,
) -> Result<bool, Error>
    requires { IfErr item (λ e. is_environment_error e ≡ false) }
    ensures lists { ListsItem L.line L.takes index (Some (item_view item.entry)) (W.contents output.old) (W.contents output.new) (answered result) }
    ensures kind { IfErr result (λ e. (e ≡ Memory) ⊎ (e ≡ Writer)) }
    ensures writer { CountsWriter result (W.count output.old) (W.count output.new) }
{
    match item {
        Ok(event) => {
            let line = lines.event_line(alloc, index, &event)?;
            write_line(output, line)?;
            Ok(false)
        }
        Err(error) => {
            let line = lines.error_line(alloc, index, &error)?;
            write_line(output, line)?;
            Ok(true)
        }
    }
}
