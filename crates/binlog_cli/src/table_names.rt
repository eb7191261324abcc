//! The tables that the words of `binlog`'s command line name.
ghost use Rattle.std.specs.Prelude.{◌≡◌, ◌⊎◌, [], codes, map, IfErr, IfOk, MatchOption};
ghost use Rattle.clap.specs.Matches.{found_of};
ghost use Rattle.binlog_cli.specs.declared.exit_status.Status.TheVariants.{Failed, Usage};
ghost use Rattle.binlog_cli.specs.TableWords.{texts_given, ArePatterns, AreTables, HasNoTable, IsTable, IsNoTable, StatesTables};

use crate::exit_status::{Status, out_of_memory};
use binlog_filters::{Pattern, TableFilter, TablePattern};
use clap::ArgMatches;

/// The filter of tables, if some are asked for. A text that names no table has a message.
pub fn tables<R: Eprint + AllocGlobal>(
    rt: &R,
    matches: &ArgMatches<'_>,
) -> Result<Option<TableFilter>, Status>
    ensures ok { IfOk result (λ filter. StatesTables (texts_given (found_of matches.now) (codes "table")) (texts_given (found_of matches.now) (codes "database")) filter) }
    ensures err { IfErr result (λ status. ((status ≡ Usage) × HasNoTable (texts_given (found_of matches.now) (codes "table"))) ⊎ (status ≡ Failed)) }
{
    let tables = matches.get_strs("table").unwrap_or(&[]);
    let databases = matches.get_strs("database").unwrap_or(&[]);
    table_filter(rt, "table", tables, databases)
}

/// The filter of the tables that this option names, if it names some. A text that names no table has a message.
///
/// # Errors
///
/// [`Status::Usage`] if a text names no table, [`Status::Failed`] if there is no memory.
pub fn tables_of_option<R: Eprint + AllocGlobal>(
    rt: &R,
    matches: &ArgMatches<'_>,
    option: &str,
) -> Result<Option<TableFilter>, Status>
    ensures ok { IfOk result (λ filter. StatesTables (texts_given (found_of matches.now) option.now) [] filter) }
    ensures err { IfErr result (λ status. ((status ≡ Usage) × HasNoTable (texts_given (found_of matches.now) option.now)) ⊎ (status ≡ Failed)) }
{
    let tables = matches.get_strs(option).unwrap_or(&[]);
    table_filter(rt, option, tables, &[])
}

// The filter of tables and of databases with these names, if there are some. `option` is that of the tables, for messages.
fn table_filter<R: Eprint + AllocGlobal>(
    rt: &R,
    option: &str,
    tables: &[&str],
    databases: &[&str],
) -> Result<Option<TableFilter>, Status>
    ensures ok { IfOk result (λ filter. StatesTables (map (λ name. name.now) tables.now) (map (λ name. name.now) databases.now) filter) }
    ensures err { IfErr result (λ status. ((status ≡ Usage) × HasNoTable (map (λ name. name.now) tables.now)) ⊎ (status ≡ Failed)) }
{
    if tables.is_empty() && databases.is_empty() {
        return Ok(None);
    }
    let tables = table_patterns(rt, option, tables)?;
    let databases = database_patterns(rt, databases)?;
    Ok(Some(TableFilter { databases, tables }))
}

// The patterns of databases. The only error is that there is no memory.
fn database_patterns<R: Eprint + AllocGlobal>(
    rt: &R,
    names: &[&str],
) -> Result<Vec<Pattern>, Status>
    ensures ok { IfOk result (λ patterns. ArePatterns (map (λ name. name.now) names.now) patterns.items) }
    ensures err { IfErr result (λ status. status ≡ Failed) }
{
    let mut patterns = Vec::new(rt.alloc());
    for name in names {
        let pattern = pattern(rt, name.as_bytes())?;
        if patterns.push(pattern).is_err() {
            return Err(out_of_memory(rt));
        }
    }
    Ok(patterns)
}

// The patterns of tables. A text without a dot, or with nothing on one side of its first dot, names no table.
fn table_patterns<R: Eprint + AllocGlobal>(
    rt: &R,
    option: &str,
    names: &[&str],
) -> Result<Vec<TablePattern>, Status>
    ensures ok { IfOk result (λ patterns. AreTables (map (λ name. name.now) names.now) patterns.items) }
    ensures err { IfErr result (λ status. ((status ≡ Usage) × HasNoTable (map (λ name. name.now) names.now)) ⊎ (status ≡ Failed)) }
{
    let mut patterns = Vec::new(rt.alloc());
    for name in names {
        match table_pattern(rt, option, name) {
            Ok(pattern) => {
                if patterns.push(pattern).is_err() {
                    return Err(out_of_memory(rt));
                }
            }
            Err(status) => return Err(status),
        }
    }
    Ok(patterns)
}

// The pattern of a table.
fn table_pattern<R: Eprint + AllocGlobal>(
    rt: &R,
    option: &str,
    name: &str,
) -> Result<TablePattern, Status>
    ensures ok { IfOk result (λ pattern. IsTable name.now pattern.database.bytes.items pattern.table.bytes.items) }
    ensures err { IfErr result (λ status. ((status ≡ Usage) × IsNoTable name.now) ⊎ (status ≡ Failed)) }
{
    let Some((database, table)) = split_table(name) else {
        let _ = eprintln!(rt; "binlog: --{option}: {name:?} is no table, as DB.TABLE");
        return Err(Status::Usage);
    };
    let database = pattern(rt, database.as_bytes())?;
    let table = pattern(rt, table.as_bytes())?;
    Ok(TablePattern { database, table })
}

// The names before and behind the first dot, if both have a byte.
fn split_table(name: &str) -> Option<(&str, &str)>
    ensures { MatchOption result (IsNoTable name.now) (λ parts. IsTable name.now parts.0.now parts.1.now) }
{
    match name.split_once('.') {
        Some((database, table)) if !database.is_empty() && !table.is_empty() => {
            Some((database, table))
        }
        _ => None,
    }
}

// A pattern of these bytes.
fn pattern<R: Eprint + AllocGlobal>(rt: &R, bytes: &[u8]) -> Result<Pattern, Status>
    ensures ok { IfOk result (λ pattern. pattern.bytes.items ≡ bytes.now) }
    ensures err { IfErr result (λ status. status ≡ Failed) }
{
    match Pattern::new(rt.alloc(), bytes) {
        Ok(pattern) => Ok(pattern),
        Err(_) => Err(out_of_memory(rt)),
    }
}
