//! The files of columns that `binlog json` reads before its logs.
ghost use Rattle.std.specs.Prelude.{◌≡◌, ◌⊎◌, IfErr, IfOk, IfSome};
ghost use Rattle.binlog_cli.specs.declared.exit_status.Status.TheVariants.{Failed, Usage};
ghost use Rattle.column_files.specs.Texts.{HasFault, IsColumnFile};
ghost use Rattle.binlog_event_commands.specs.Columns.{AreColumnFiles, IsUnreadColumns, status_of};
ghost use Rattle.binlog_inputs.specs.Requests.{EndsUnread};

use binlog_cli::{Status, out_of_memory};
use binlog_declared_columns::Contradictions;
use binlog_inputs::{Inputs, shown_name};
use column_files::{DeclaredTables, ReadTablesError, read_tables};
use std::io::Read;
use std::{io, str};

/// Reads files of columns, in order. A file that can't be read has a message, and so has one whose text isn't that of a file of
/// columns, with the place of the first fault; no further file is read then.
#[tactic(auto, using(crate::proofs::ColumnFiles::some_name))]
pub(crate) fn read_columns<S: Inputs, R: Eprint + AllocGlobal>(
    rt: &R,
    inputs: &S,
    names: &[&str],
) -> Result<Vec<DeclaredTables>, Status>
    ensures ok { IfOk result (λ files. AreColumnFiles (λ name. S.bytes inputs.now name.now) names.now files.items) }
    ensures err { IfErr result (IsUnreadColumns names.now) }
{
    let mut files = Vec::new(rt.alloc());
    for name in names {
        let tables = tables_in(rt, inputs, name)?;
        if files.push(tables).is_err() {
            return Err(out_of_memory(rt));
        }
    }
    Ok(files)
}

// Reads a file of columns.
fn tables_in<S: Inputs, R: Eprint + AllocGlobal>(
    rt: &R,
    inputs: &S,
    name: &str,
) -> Result<DeclaredTables, Status>
    ensures ok { IfOk result (λ tables. IfSome (S.bytes inputs.now name.now) (λ text. IsColumnFile text tables)) }
    ensures err { IfErr result (λ status. (status ≡ Usage) ⊎ (status ≡ Failed)) }
{
    let text = text_of(rt, inputs, name)?;
    tables_of(rt, name, &text)
}

// The bytes of a file.
#[tactic(auto, using(crate::proofs::ColumnFiles::whole))]
fn text_of<S: Inputs, R: Eprint + AllocGlobal>(
    rt: &R,
    inputs: &S,
    name: &str,
) -> Result<Vec<u8>, Status>
    ensures ok { IfOk result (λ text. IfSome (S.bytes inputs.now name.now) (λ bytes. text.items ≡ bytes)) }
    ensures err { IfErr result (λ status. (status ≡ Usage) ⊎ (status ≡ Failed)) }
{
    let mut input = match inputs.open(name) {
        Ok(input) => input,
        Err(error) => return Err(unread(rt, name, &error)),
    };
    let mut text = Vec::new(rt.alloc());
    match input.read_to_end(&mut text) {
        Ok(_) => Ok(text),
        Err(error) => Err(unread(rt, name, &error)),
    }
}

// The status if a file can't be read, after its message.
fn unread<R: Eprint>(rt: &R, name: &str, error: &io::Error) -> Status
    ensures { EndsUnread error.now result }
{
    if error.kind() == io::ErrorKind::OutOfMemory {
        return out_of_memory(rt);
    }
    let _ = eprintln!(rt; "binlog: {}: {error}", shown_name(name));
    Status::Usage
}

// The tables of the text of a file.
fn tables_of<R: Eprint + AllocGlobal>(
    rt: &R,
    name: &str,
    text: &[u8],
) -> Result<DeclaredTables, Status>
    ensures ok { IfOk result (IsColumnFile text.now) }
    ensures err { IfErr result (λ status. ((status ≡ Usage) × HasFault text.now) ⊎ (status ≡ Failed)) }
{
    match read_tables(rt.alloc(), text) {
        Ok(tables) => Ok(tables),
        Err(error) => Err(refuse(rt, name, error)),
    }
}

// The status if a text isn't read, after its message.
fn refuse<R: Eprint>(rt: &R, name: &str, error: ReadTablesError) -> Status
    ensures { result ≡ status_of error }
{
    match error {
        ReadTablesError::Fault(_, _) => {
            let _ = eprintln!(rt; "binlog: {}: {error}", shown_name(name));
            Status::Usage
        }
        ReadTablesError::Memory => out_of_memory(rt),
    }
}

/// Writes a message for each table that contradicts the files of columns, with the first column that does, counted from 1.
pub(crate) fn report_contradictions<R: Eprint>(rt: &R, contradictions: &Contradictions) {
    for ((schema, table), column) in contradictions.iter() {
        let _ = eprintln!(rt;
            "binlog: table {:?}.{:?}: column {} contradicts the file of columns, which isn't used for this table",
            shown(schema),
            shown(table),
            column.saturating_add(1)
        );
    }
}

// A name as a text. Names that a file of columns has are in UTF-8.
fn shown(name: &[u8]) -> &str {
    str::from_utf8(name).unwrap_or("?")
}
