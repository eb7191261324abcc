//! The options of `binlog stats`.
ghost use Rattle.std.specs.Prelude.{◌≡◌, codes, true, IfErr, IfOk, MatchOption};
ghost use Rattle.clap.specs.Matches.{found_of, first_value};
ghost use Rattle.binlog_cli.specs.declared.exit_status.Status.TheVariants.{Usage};
ghost use Rattle.binlog_summaries.specs.declared.options.Grouping.{Grouping};
ghost use Rattle.binlog_summaries.specs.Options.{asks_tables, fits, IsNameOf, StatesGrouping, NamesNoGrouping, StatesOptions, RefusesOptions};

use crate::intervals::interval_named;
use binlog_cli::Status;
use clap::ArgMatches;

/// What is counted together.
#[derive(Clone, Copy, Debug, PartialEq, Eq)]
pub enum Grouping {
    /// The events of each raw type.
    Types,
    /// The changes of each table.
    Tables,
    /// The events of each interval of so many seconds.
    Intervals(u32),
    /// The events of each transaction.
    Transactions,
}

/// What the options of `binlog stats` ask for.
#[derive(Clone, Copy, Debug, PartialEq, Eq)]
pub struct StatsOptions {
    /// What is counted together.
    pub grouping: Grouping,
    /// How many rows are written; all if it is None.
    pub top: Option<u64>,
    /// Whether the rows are lines of JSON.
    pub is_json: bool,
    /// Whether only events of some tables or databases are counted.
    pub has_tables: bool,
}

/// The options.
///
/// # Errors
///
/// [`Status::Usage`], after its message, if the value of `--by` names nothing that is counted together, if `--top` is given and events
/// by type or by time are counted, or if tables are asked for and transactions are counted, which have all of their events.
pub fn stats_options<R: Eprint>(rt: &R, matches: &ArgMatches<'_>) -> Result<StatsOptions, Status>
    ensures ok { IfOk result (λ options. StatesOptions (found_of matches.now) options × (fits options ≡ true)) }
    ensures err { IfErr result (λ status. (status ≡ Usage) × RefusesOptions (found_of matches.now)) }
{
    let options = stated_options(stated_grouping(rt, matches)?, matches);
    if !fits(options) {
        let refusal = refusal(options.grouping);
        let _ = eprintln!(rt; "binlog: {refusal}");
        return Err(Status::Usage);
    }
    Ok(options)
}

// Why options don't fit.
fn refusal(grouping: Grouping) -> &'static str {
    match grouping {
        Grouping::Types => "--top doesn't go with --by type",
        Grouping::Tables | Grouping::Intervals(_) => "--top doesn't go with --by time",
        Grouping::Transactions => "--table and --database don't go with --by transaction",
    }
}

// The options, where this is counted together.
fn stated_options(grouping: Grouping, matches: &ArgMatches<'_>) -> StatsOptions
    requires { StatesGrouping (first_value (found_of matches.now) (codes "by")) grouping }
    ensures { StatesOptions (found_of matches.now) result }
{
    StatsOptions {
        grouping,
        top: matches.get_one::<u64>("top"),
        is_json: matches.get_flag("json"),
        has_tables: asks_tables(matches),
    }
}

// Whether tables or databases are asked for.
fn asks_tables(matches: &ArgMatches<'_>) -> bool
    ensures { result ≡ asks_tables (found_of matches.now) }
{
    matches.contains_id("table") || matches.contains_id("database")
}

// Whether this can be written of what is counted together.
fn fits(options: StatsOptions) -> bool
    ensures { result ≡ fits options }
{
    match options.grouping {
        Grouping::Types => options.top.is_none(),
        Grouping::Intervals(seconds) => seconds > 0 && options.top.is_none(),
        Grouping::Tables => true,
        Grouping::Transactions => !options.has_tables,
    }
}

// What is counted together.
fn stated_grouping<R: Eprint>(rt: &R, matches: &ArgMatches<'_>) -> Result<Grouping, Status>
    ensures ok { IfOk result (λ grouping. StatesGrouping (first_value (found_of matches.now) (codes "by")) grouping) }
    ensures err { IfErr result (λ status. (status ≡ Usage) × NamesNoGrouping (first_value (found_of matches.now) (codes "by"))) }
{
    match matches.get_str("by") {
        None => Ok(Grouping::Types),
        Some(name) => match grouping_named(name) {
            Some(grouping) => Ok(grouping),
            None => {
                let _ = eprintln!(rt;
                    "binlog: --by: {name:?} is none of type, table, time=60s and transaction"
                );
                Err(Status::Usage)
            }
        },
    }
}

// What has this name.
fn grouping_named(name: &str) -> Option<Grouping>
    ensures { MatchOption result ((grouping : Grouping) → ¬ (IsNameOf grouping name.now)) (λ grouping. IsNameOf grouping name.now) }
{
    if name == "type" {
        return Some(Grouping::Types);
    }
    if name == "table" {
        return Some(Grouping::Tables);
    }
    if name == "transaction" {
        return Some(Grouping::Transactions);
    }
    let seconds = interval_named(name)?;
    Some(Grouping::Intervals(seconds))
}
