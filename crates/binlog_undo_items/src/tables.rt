//! The tables that a text names.
ghost use Rattle.std.specs.Prelude.{◌≡◌, IfOk, IfErr, MatchOption};
ghost use Rattle.binlog_undo_items.specs.Tables.{AreTables, HasNoZero, IsNameAt, IsNoTable, IsNoTables, IsTableAt, StatesTables};

use crate::failure::UndoFailure;
use binlog_filters::{Pattern, TableFilter, TablePattern};
use std::alloc::{AllocError, Global};

/// The filter of the tables that a text names; None if it names none.
///
/// # Errors
///
/// [`UndoFailure::Options`] if the text isn't pairs of names, with a zero behind each name, [`UndoFailure::Memory`] if memory is refused.
pub(crate) fn table_filter(alloc: Global, text: &[u8]) -> Result<Option<TableFilter>, UndoFailure>
    ensures ok { IfOk result (StatesTables text.now) }
    ensures err { IfErr result (IsNoTables text.now) }
{
    if text.is_empty() {
        return Ok(None);
    }
    match table_patterns(alloc, text) {
        Ok(tables) => Ok(Some(TableFilter {
            databases: Vec::new(alloc),
            tables,
        })),
        Err(failure) => Err(failure),
    }
}

// The patterns of the tables.
fn table_patterns(alloc: Global, text: &[u8]) -> Result<Vec<TablePattern>, UndoFailure>
    ensures ok { IfOk result (λ patterns. AreTables text.now patterns.items) }
    ensures err { IfErr result (IsNoTables text.now) }
{
    let mut patterns = Vec::new(alloc);
    let mut rest = text;
    'tables: while !rest.is_empty() {
        let Some((database, table, behind)) = split_table(rest) else {
            return Err(UndoFailure::Options);
        };
        let Ok(pattern) = table_pattern(alloc, database, table) else {
            return Err(UndoFailure::Memory);
        };
        if patterns.push(pattern).is_err() {
            return Err(UndoFailure::Memory);
        }
        rest = behind;
    }
    Ok(patterns)
}

// The pattern of a table with these names.
fn table_pattern(alloc: Global, database: &[u8], table: &[u8]) -> Result<TablePattern, AllocError>
    ensures database { IfOk result (λ pattern. pattern.database.bytes.items ≡ database.now) }
    ensures table { IfOk result (λ pattern. pattern.table.bytes.items ≡ table.now) }
{
    Ok(TablePattern {
        database: Pattern::new(alloc, database)?,
        table: Pattern::new(alloc, table)?,
    })
}

// The two names at the front of a text, and what is behind them.
fn split_table(text: &[u8]) -> Option<(&[u8], &[u8], &[u8])>
    ensures { MatchOption result (IsNoTable text.now) (λ parts. IsTableAt text.now parts.0.now parts.1.now parts.2.now) }
{
    match split_name(text) {
        None => None,
        Some((database, behind)) => match split_name(behind) {
            None => None,
            Some((table, rest)) => Some((database, table, rest)),
        },
    }
}

// The name at the front of a text, and what is behind its zero.
fn split_name(text: &[u8]) -> Option<(&[u8], &[u8])>
    ensures { MatchOption result (HasNoZero text.now) (λ parts. IsNameAt text.now parts.0.now parts.1.now) }
{
    let mut len = 0;
    'name: while len < text.len() {
        if text[len] == 0 {
            return Some((&text[..len], &text[len + 1..]));
        }
        len += 1;
    }
    None
}
