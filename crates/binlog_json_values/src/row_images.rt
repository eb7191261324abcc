//! Which images rows have.
ghost use Rattle.binlog_json_values.specs.Written.{HasImages};

use binlog_images::Rows;

/// Which images each row of an event has.
#[derive(Clone, Copy)]
pub struct RowImages {
    /// Whether it has one before the change, as updated and deleted rows have.
    pub before: bool,
    /// Whether it has one after the change, as inserted and updated rows have.
    pub after: bool,
}

/// The images of the first row that is left, which is read for it.
pub(crate) fn images_of(rows: &Rows<'_>) -> RowImages
    ensures { HasImages result.before result.after rows.now }
{
    let mut rest = *rows;
    match rest.next() {
        Some(Ok(row)) => RowImages {
            before: row.before().is_some(),
            after: row.after().is_some(),
        },
        _ => RowImages {
            before: false,
            after: false,
        },
    }
}
