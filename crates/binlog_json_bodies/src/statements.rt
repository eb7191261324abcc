//! The objects of statements and user variables.
#![tactic(auto, using(std::proofs::Common::append_assoc))]

ghost use Rattle.std.specs.Prelude.{◌∷◌, [], true};
ghost use Rattle.std.specs.Fmt.{signed_decimal};
ghost use Rattle.json.specs.Token.{number};
ghost use Rattle.binlog_file.specs.EventRefs.{view_of};
ghost use Rattle.binlog_statements.specs.Statements.{with_query};
ghost use Rattle.json_line.specs.Tokens.{Adds};
ghost use Rattle.binlog_json_bodies.specs.ClientSets.{is_of_maria};
ghost use Rattle.binlog_json_bodies.specs.Statements.{query_object, execute_load_query_object, loaded_file, user_var_object, user_var_value, head_members, statement_texts, texts_members, schema_and_query, value_type_number};

use crate::client_sets::{client_set, maria_client_set};
use crate::kept_statements::KeptStatements;
use crate::kept_status_vars::KeptStatusVars;
use crate::status_vars::write_status_vars;
use binlog_file::{
    EventRef, ExecuteLoadQueryEvent, ItemResult, QueryEvent, UnknownItemResultType, UserVarEvent,
};
use character_sets::CharacterSet;
use json_line::Line;
use std::alloc::{AllocError, Global};

/// Writes the object of a QUERY event with this statement.
#[inline(never)]
pub(crate) fn write_query(
    line: &mut Line,
    alloc: Global,
    event: &EventRef<'_>,
    statement: &QueryEvent<'_>,
) -> Result<(), AllocError>
    ensures { Adds result line.old line.new (query_object (is_of_maria (view_of event.now).fde) statement.now) }
{
    let mut none_kept = KeptStatements::new(alloc);
    write_next_query(line, &mut none_kept, alloc, event, statement)
}

/// The same of a statement behind others, with which it may have members in common.
#[inline(always)]
pub(crate) fn write_next_query(
    line: &mut Line,
    kept: &mut KeptStatements,
    alloc: Global,
    event: &EventRef<'_>,
    statement: &QueryEvent<'_>,
) -> Result<(), AllocError>
    ensures { Adds result line.old line.new (query_object (is_of_maria (view_of event.now).fde) statement.now) }
{
    line.begin_object()?;
    kept.write_head(
        line,
        alloc,
        statement.thread_id(),
        statement.execution_time(),
        statement.error_code(),
    )?;
    write_texts(
        line,
        &mut kept.status_vars,
        alloc,
        event,
        statement.status_vars_raw(),
        statement.schema_raw(),
        statement.query_raw(),
    )?;
    line.end_object()?;
    Ok(())
}

/// Writes the thread id, the execution time in seconds, and the error code of a statement, as members of its object.
#[inline(always)]
pub(crate) fn write_statement_head(
    line: &mut Line,
    thread_id: u32,
    execution_time: u32,
    error_code: u16,
) -> Result<(), AllocError>
    ensures { Adds result line.old line.new (head_members thread_id execution_time error_code) }
{
    line.number_member("thread_id", u64::from(thread_id))?;
    line.number_member("execution_time", u64::from(execution_time))?;
    line.number_member("error_code", u64::from(error_code))?;
    Ok(())
}

// Writes the status variables, the schema name and the text of a statement of this event.
#[inline(always)]
fn write_texts(
    line: &mut Line,
    kept: &mut KeptStatusVars,
    alloc: Global,
    event: &EventRef<'_>,
    status_vars: &[u8],
    schema: &[u8],
    query: &[u8],
) -> Result<(), AllocError>
    ensures { Adds result line.old line.new (texts_members (is_of_maria (view_of event.now).fde) status_vars.now schema.now query.now) }
{
    let collation = kept.write(line, alloc, status_vars)?;
    let client = client_set(event, collation);
    write_schema_and_query(line, client, schema, query)?;
    Ok(())
}

/// Writes the status variables and the schema name of a statement in a log that MariaDB wrote, and this text in the place of its own.
pub(crate) fn write_maria_query_texts(
    line: &mut Line,
    alloc: Global,
    statement: &QueryEvent<'_>,
    query: &[u8],
) -> Result<(), AllocError>
    ensures { Adds result line.old line.new (statement_texts true (with_query statement.now.statement query.now)) }
{
    let collation = write_status_vars(line, alloc, statement.status_vars_raw())?;
    let client = maria_client_set(collation);
    write_schema_and_query(line, client, statement.schema_raw(), query)?;
    Ok(())
}

// Writes the schema name, and the statement as a text in the client's character set, if that is known.
#[inline(always)]
fn write_schema_and_query(
    line: &mut Line,
    client: Option<CharacterSet>,
    schema: &[u8],
    query: &[u8],
) -> Result<(), AllocError>
    ensures { Adds result line.old line.new (schema_and_query client schema.now query.now) }
{
    line.text_member("schema", schema)?;
    line.key("query")?;
    line.text_in_stated(client, query)?;
    Ok(())
}

/// Writes the object of an EXECUTE_LOAD_QUERY event with this statement.
pub(crate) fn write_execute_load_query(
    line: &mut Line,
    alloc: Global,
    event: &EventRef<'_>,
    statement: &ExecuteLoadQueryEvent<'_>,
) -> Result<(), AllocError>
    ensures { Adds result line.old line.new (execute_load_query_object (is_of_maria (view_of event.now).fde) statement.now) }
{
    line.begin_object()?;
    write_statement_head(
        line,
        statement.thread_id(),
        statement.execution_time(),
        statement.error_code(),
    )?;
    write_loaded_file(line, statement)?;
    let mut none_kept = KeptStatusVars::new(alloc);
    write_texts(
        line,
        &mut none_kept,
        alloc,
        event,
        statement.status_vars_raw(),
        statement.schema_raw(),
        statement.query_raw(),
    )?;
    line.end_object()?;
    Ok(())
}

fn write_loaded_file(line: &mut Line, event: &ExecuteLoadQueryEvent<'_>) -> Result<(), AllocError>
    ensures { Adds result line.old line.new (loaded_file event.now) }
{
    line.number_member("file_id", u64::from(event.file_id()))?;
    line.number_member("start_pos", u64::from(event.start_pos()))?;
    line.number_member("end_pos", u64::from(event.end_pos()))?;
    line.number_member("dup_handling", u64::from(u8::from(event.dup_handling())))?;
    Ok(())
}

/// Writes the object of a USER_VAR event.
pub(crate) fn write_user_var(line: &mut Line, event: &UserVarEvent<'_>) -> Result<(), AllocError>
    ensures { Adds result line.old line.new (user_var_object event.now) }
{
    line.begin_object()?;
    line.text_member("name", event.name_raw())?;
    line.key("is_null")?;
    line.boolean(event.is_null())?;
    write_user_var_value(line, event)?;
    line.end_object()?;
    Ok(())
}

fn write_user_var_value(line: &mut Line, event: &UserVarEvent<'_>) -> Result<(), AllocError>
    ensures { Adds result line.old line.new (user_var_value event.now) }
{
    line.key("value_type")?;
    write_value_type(line, event.value_type())?;
    line.number_member("charset", u64::from(event.charset()))?;
    line.bytes_member("value", event.value())?;
    line.number_member("flags", u64::from(event.flags_raw()))?;
    Ok(())
}

// Writes the number of a value type, known or not.
fn write_value_type(
    line: &mut Line,
    value_type: Result<ItemResult, UnknownItemResultType>,
) -> Result<(), AllocError>
    ensures { Adds result line.old line.new (number (signed_decimal (value_type_number value_type)) ∷ []) }
{
    match value_type {
        Ok(value_type) => line.signed_number(i64::from(i8::from(value_type))),
        Err(unknown) => line.signed_number(i64::from(unknown.0)),
    }
}
