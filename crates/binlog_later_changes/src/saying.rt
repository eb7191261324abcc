//! What an event says of changes of tables.

ghost use Rattle.std.specs.Prelude.{◌≡◌, option_copied, IfOk};
ghost use Rattle.binlog_events.specs.EventRefs.{view_of};
ghost use Rattle.change_statistics.specs.Names.{name_of};
ghost use Rattle.binlog_later_changes.specs.Said.{said_of, rows_in, rows_of_event, name_in, cause_of_rows, refused, cause_of_event, cause_of_mark, cause_of_statement, cause_in, IsRole};

use crate::known_rows::is_complete;
use binlog_file::{Error, EventData, EventRef, LogEventData};
use binlog_mariadb::{MariaEventData, is_maria_log};
use binlog_rows::{RowsEventData, TableMapEvent};
use binlog_transactions::{Mark, Refusal, Role, StatementKind, Unsupported};
use binlog_undo_index::Reason;
use change_statistics::TableName;
use std::alloc::{AllocError, Global};

/// The flag LOG_EVENT_IGNORABLE_F of an event's header.
const IGNORABLE: u16 = 0x80;

/// What an event says of changes of tables.
#[derive(Drop)]
pub(crate) enum Said {
    /// It changes no table.
    Nothing,
    /// It has rows of this table.
    Rows(TableName),
    /// It may change any table: why a transaction with it can't be undone.
    Unknown(Reason),
}

/// The rows of an event.
#[derive(Clone, Copy)]
pub(crate) enum RowsIn {
    /// It has none.
    Nothing,
    /// It has some, of the table of this id. Compressed rows are some.
    Table(u64),
    /// It has no bytes of any, but may have some of no columns, of the table of this id.
    WithoutBytes(u64),
    /// They can't be read.
    Unreadable,
}

// The rows of an event that isn't compressed. Without bytes there are none if the images have all columns: a row of no columns has no bytes.
fn rows_of_event(rows: &RowsEventData<'_>) -> RowsIn
    ensures { result ≡ rows_of_event rows.now }
{
    if !rows.rows_data().is_empty() {
        return RowsIn::Table(rows.table_id());
    }
    if is_complete(rows) {
        RowsIn::Nothing
    } else {
        RowsIn::WithoutBytes(rows.table_id())
    }
}

/// The rows of an event of which this was read.
pub(crate) fn rows_in(read: &Result<Option<LogEventData<'_>>, Error>) -> RowsIn
    ensures { result ≡ rows_in read.now }
{
    match read {
        Ok(Some(LogEventData::Mysql(EventData::RowsEvent(rows)))) => rows_of_event(rows),
        Ok(Some(LogEventData::Maria(MariaEventData::RowsCompressedEvent(rows)))) => {
            RowsIn::Table(rows.table_id())
        }
        _ => RowsIn::Unreadable,
    }
}

/// What an event of this role says, of which this was read, where this is the table map in force for its rows.
pub(crate) fn say(
    alloc: Global,
    role: Role,
    read: &Result<Option<LogEventData<'_>>, Error>,
    map: Option<&TableMapEvent<'_>>,
) -> Result<Said, AllocError>
    ensures { IfOk result (λ said. said_of said ≡ cause_in role read.now (option_copied map.entry)) }
{
    match role {
        Role::Known(mark) => Ok(said_by_mark(mark)),
        Role::MariaGtid => Ok(Said::Nothing),
        Role::CompressedQuery => Ok(unknown(Refusal::Statement)),
        Role::Query => Ok(said_by_statement(read)),
        Role::Rows | Role::CompressedRows => say_of_rows(alloc, rows_in(read), map),
    }
}

// It may change any table: a transaction with it is refused for this.
fn unknown(refusal: Refusal) -> Said
    ensures { said_of result ≡ refused refusal }
{
    Said::Unknown(Reason::Transaction(refusal))
}

// What an event with this mark says.
fn said_by_mark(mark: Mark) -> Said
    ensures { said_of result ≡ cause_of_mark mark }
{
    match mark {
        Mark::Statement(StatementKind::Other) => unknown(Refusal::Statement),
        Mark::Encryption => unknown(Refusal::Encrypted),
        Mark::Unsupported(event) => said_by_event(event),
        _ => Said::Nothing,
    }
}

// What such an event says. The rows of a compressed transaction are those of the events inside, and those of an XA transaction are in front of its end.
fn said_by_event(event: Unsupported) -> Said
    ensures { said_of result ≡ cause_of_event event }
{
    match event {
        Unsupported::XaPrepare | Unsupported::Payload => Said::Nothing,
        Unsupported::LoadData | Unsupported::LoadDataPart => unknown(Refusal::LoadData),
        Unsupported::Incident => unknown(Refusal::Incident),
        Unsupported::OldRows => unknown(Refusal::OldRows),
        Unsupported::UnknownEvent => unknown(Refusal::UnknownEvent),
    }
}

// What a statement says of which this was read.
fn said_by_statement(read: &Result<Option<LogEventData<'_>>, Error>) -> Said
    ensures { said_of result ≡ cause_of_statement read.now }
{
    match read {
        Ok(Some(LogEventData::Mysql(EventData::QueryEvent(query)))) => {
            said_by_mark(Mark::of_statement(query.query_raw()))
        }
        _ => Said::Unknown(Reason::Damaged),
    }
}

// What these rows say, where this is the table map in force for them.
fn say_of_rows(
    alloc: Global,
    rows: RowsIn,
    map: Option<&TableMapEvent<'_>>,
) -> Result<Said, AllocError>
    ensures { IfOk result (λ said. said_of said ≡ cause_of_rows rows (option_copied map.entry)) }
{
    match rows {
        RowsIn::Nothing => Ok(Said::Nothing),
        RowsIn::Unreadable => Ok(Said::Unknown(Reason::Damaged)),
        RowsIn::Table(_) => match map {
            Some(map) => Ok(Said::Rows(name_in(alloc, map)?)),
            None => Ok(Said::Unknown(Reason::NoTableMap)),
        },
        RowsIn::WithoutBytes(_) => match map {
            Some(map) => Ok(Said::Rows(name_in(alloc, map)?)),
            None => Ok(Said::Nothing),
        },
    }
}

// The names that a table map has.
fn name_in(alloc: Global, map: &TableMapEvent<'_>) -> Result<TableName, AllocError>
    ensures { IfOk result (λ name. name_of name ≡ name_in map.now) }
{
    let database = map.database_name_raw();
    let table = map.table_name_raw();
    Ok(TableName {
        database: database.to_vec(alloc)?,
        table: table.to_vec(alloc)?,
    })
}

/// The role of an event among transactions.
pub(crate) fn role_of(event: &EventRef<'_>) -> Role
    ensures { IsRole (view_of event.now) result }
{
    let header = event.header();
    Role::of_type(
        header.event_type_raw(),
        is_maria_log(&event.fde()),
        header.flags_raw() & IGNORABLE != 0,
    )
}
