//! The text of the names of a table.
ghost use Rattle.std.specs.Io.KnownBytes.{Appends};
ghost use Rattle.std.specs.List.{list_any};
ghost use Rattle.std.specs.Prelude.{◌≡◌, OnOk};
ghost use Rattle.change_statistics.specs.NameTexts.{is_control, name_text, names_text};

use crate::table_name::TableName;
use std::io::Write;
use std::{io, str};

/// Writes the names of a table.
pub fn write_names<W: Write>(name: &TableName, output: &mut W) -> io::Result<()>
    ensures { OnOk result (Appends (W.contents output.old) (W.contents output.new) (names_text name.now)) }
{
    let database = name_text(&name.database);
    let table = name_text(&name.table);
    write!(output, "table {database}.{table} ")
}

/// A name as a text: a question mark if its bytes aren't UTF-8, or one of them is a control character of ASCII, as a line feed.
pub fn name_text(name: &[u8]) -> &str
    ensures { result.now ≡ name_text name.now }
{
    if has_control(name) {
        return "?";
    }
    match str::from_utf8(name) {
        Ok(text) => text,
        Err(_) => "?",
    }
}

// Whether one of the bytes is a control character of ASCII.
fn has_control(name: &[u8]) -> bool
    ensures { result ≡ list_any is_control name.now }
{
    name.iter().any(|byte| *byte < b' ' || *byte == 0x7f)
}
