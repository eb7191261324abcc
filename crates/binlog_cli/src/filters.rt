//! The filter that the words of `binlog`'s command line state.
ghost use Rattle.std.specs.Prelude.{◌≡◌, ◌⊎◌, ◌↔◌, true, codes, IfErr, IfOk};
ghost use Rattle.clap.specs.Matches.{first_value, found_of, one_text};
ghost use Rattle.binlog_cli.specs.declared.exit_status.Status.TheVariants.{Failed, Usage};
ghost use Rattle.binlog_cli.specs.FilterWords.{NeverBegins, StatesFilter, StatesNoServer, StatesNumber};

use crate::exit_status::Status;
use crate::gtid_sets::gtids;
use crate::table_names::tables;
use crate::times::time;
use crate::type_names::types;
use binlog_filters::Filter;
use clap::ArgMatches;

/// The filter.
///
/// # Errors
///
/// The status of a run that can't begin, after its message: [`Status::Usage`] if an option can't be read, [`Status::Failed`] if
/// there is no memory.
pub fn filter<R: Eprint + AllocGlobal>(rt: &R, matches: &ArgMatches<'_>) -> Result<Filter, Status>
    ensures ok { IfOk result (λ filter. StatesFilter (found_of matches.now) filter) }
    ensures err { IfErr result (λ status. NeverBegins (found_of matches.now) status) }
{
    let start_time = time(rt, matches, "start-datetime")?;
    let stop_time = time(rt, matches, "stop-datetime")?;
    let server_id = server_id(rt, matches)?;
    let types = types(rt, matches)?;
    let include_gtids = gtids(rt, matches, "include-gtids")?;
    let exclude_gtids = gtids(rt, matches, "exclude-gtids")?;
    let tables = tables(rt, matches)?;
    Ok(Filter {
        start_position: number(matches, "start-position").unwrap_or(0),
        stop_position: number(matches, "stop-position"),
        start_time: start_time.unwrap_or(0),
        stop_time,
        server_id,
        types,
        include_gtids,
        exclude_gtids,
        tables,
        is_for_copy: false,
        takes_begins: counts_tables(matches),
    })
}

// Whether counts by table are asked for. These count the transactions of each table, too.
fn counts_tables(matches: &ArgMatches<'_>) -> bool
    ensures { result ≡ true ↔ first_value (found_of matches.now) (codes "by") ≡ Some (codes "table") }
{
    match matches.get_str("by") {
        Some(name) => name == "table",
        None => false,
    }
}

// The number of an option, if it is given.
fn number(matches: &ArgMatches<'_>, option: &str) -> Option<u64>
    ensures { StatesNumber (one_text (found_of matches.now) option.now) result }
{
    matches.get_one::<u64>(option)
}

// The server id.
fn server_id<R: Eprint>(rt: &R, matches: &ArgMatches<'_>) -> Result<Option<u32>, Status>
    ensures ok { IfOk result (λ id. StatesNumber (one_text (found_of matches.now) (codes "server-id")) id) }
    ensures err { IfErr result (λ status. (status ≡ Usage) × StatesNoServer (one_text (found_of matches.now) (codes "server-id"))) }
{
    match number(matches, "server-id") {
        None => Ok(None),
        Some(id) => match u32::try_from(id) {
            Ok(id) => Ok(Some(id)),
            Err(_) => {
                let _ = eprintln!(rt; "binlog: --server-id: {id} is above 4294967295");
                Err(Status::Usage)
            }
        },
    }
}
