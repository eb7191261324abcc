//! What the options of `binlog undo` ask for.
ghost use Rattle.std.specs.Prelude.{◌≡◌, [], codes, map, IfErr, IfOk, IsNone, IsOk, IsSome};
ghost use Rattle.clap.specs.Matches.{found_of, one_text};
ghost use Rattle.binlog_cli.specs.TableWords.{texts_given, StatesTables};
ghost use Rattle.binlog_cli.specs.declared.exit_status.Status.TheVariants.{Usage};
ghost use Rattle.binlog_undo_command.specs.LaterLogs.{StatesRules, skips_later};
ghost use Rattle.binlog_undo_command.specs.Options.{StatesChecks, StatesChoice, StatesFlag, StatesScan, RefusesOptions};
ghost use Rattle.binlog_undo_command.specs.Reasons.{AreSkipNames, StatesSkips};

use crate::log_place::LogPlace;
use crate::reasons::{has_later_changes, is_skip_word, skips_of};
use binlog_cli::{Status, filter, tables_of_option};
use binlog_filters::TableFilter;
use binlog_later_changes::LaterRules;
use binlog_undo::ForeignKeyChecks;
use binlog_undo_index::Skips;
use binlog_undo_log::{Choice, UndoScan};
use clap::ArgMatches;

/// A pass in front of the first item of a log at this place, for what the options ask for.
///
/// # Errors
///
/// The status of a run that can't begin, after its message: [`Status::Usage`] if an option can't be read, [`Status::Failed`] if
/// there is no memory.
pub(crate) fn new_scan<R: Eprint + AllocGlobal>(
    rt: &R,
    options: &ArgMatches<'_>,
    place: LogPlace,
) -> Result<UndoScan, Status>
    ensures ok { IfOk result (StatesScan place (found_of options.now)) }
    ensures err { IfErr result (RefusesOptions (found_of options.now)) }
{
    let choice = choice(rt, options, place)?;
    let skips = skips(rt, options)?;
    Ok(UndoScan::new(rt.alloc(), choice, checks(options), skips))
}

// Which transactions and tables of a log at this place are undone.
fn choice<R: Eprint + AllocGlobal>(
    rt: &R,
    options: &ArgMatches<'_>,
    place: LogPlace,
) -> Result<Choice, Status>
    ensures ok { IfOk result (StatesChoice place (found_of options.now)) }
    ensures err { IfErr result (RefusesOptions (found_of options.now)) }
{
    let mut transactions = filter(rt, options)?;
    let tables = transactions.tables.take();
    transactions.start_position = place.start(transactions.start_position);
    transactions.stop_position = place.stop(transactions.stop_position);
    let excluded = excluded(rt, options)?;
    Ok(Choice {
        transactions,
        tables,
        excluded,
        has_plain_temporal: flag(options, "plain-old-temporal"),
    })
}

// The tables that are left out.
fn excluded<R: Eprint + AllocGlobal>(
    rt: &R,
    options: &ArgMatches<'_>,
) -> Result<Option<TableFilter>, Status>
    ensures ok { IfOk result (λ excluded. StatesTables (texts_given (found_of options.now) (codes "exclude-table")) [] excluded) }
    ensures err { IfErr result (RefusesOptions (found_of options.now)) }
{
    tables_of_option(rt, options, "exclude-table")
}

// Which refused transactions are left as they are. A word that is no reason's name has a message.
fn skips<R: Eprint>(rt: &R, options: &ArgMatches<'_>) -> Result<Skips, Status>
    ensures ok { IfOk result (StatesSkips (texts_given (found_of options.now) (codes "skip"))) }
    ensures known { IsOk result → AreSkipNames (texts_given (found_of options.now) (codes "skip")) }
    ensures err { IfErr result (λ status. (status ≡ Usage) × ¬ (AreSkipNames (texts_given (found_of options.now) (codes "skip")))) }
{
    let words = options.get_strs("skip").unwrap_or(&[]);
    match unknown_in(words) {
        None => Ok(skips_of(words)),
        Some(word) => {
            let _ = eprintln!(rt; "binlog: --skip: {word:?} is no reason that can be skipped");
            Err(Status::Usage)
        }
    }
}

// The first word that is no reason's name.
fn unknown_in<'a>(words: &[&'a str]) -> Option<&'a str>
    ensures none { IsNone result → AreSkipNames (map (λ word. word.now) words.now) }
    ensures some { IsSome result → ¬ (AreSkipNames (map (λ word. word.now) words.now)) }
{
    for word in words {
        if !is_skip_word(word) {
            return Some(word);
        }
    }
    None
}

// Whether a flag is given.
fn flag(options: &ArgMatches<'_>, name: &str) -> bool
    ensures { StatesFlag (one_text (found_of options.now) name.now) result }
{
    options.get_flag(name)
}

/// Whether all that is undone is to be one transaction.
pub(crate) fn is_one_transaction(options: &ArgMatches<'_>) -> bool
    ensures { StatesFlag (one_text (found_of options.now) (codes "one-transaction")) result }
{
    flag(options, "one-transaction")
}

/// Whether changes behind what is undone are accepted.
pub(crate) fn skips_later(options: &ArgMatches<'_>) -> bool
    ensures { result ≡ skips_later (found_of options.now) }
{
    has_later_changes(options.get_strs("skip").unwrap_or(&[]))
}

// For which reasons transactions are left as they are that can't be undone.
fn skips_in(options: &ArgMatches<'_>) -> Skips
    ensures { StatesSkips (texts_given (found_of options.now) (codes "skip")) result }
{
    skips_of(options.get_strs("skip").unwrap_or(&[]))
}

/// Which events behind what is undone may be in its way.
pub(crate) fn rules_in(options: &ArgMatches<'_>) -> LaterRules
    ensures { StatesRules (found_of options.now) result }
{
    LaterRules {
        skips: skips_in(options),
        checks_rows: flag(options, "check-rows"),
    }
}

// How foreign keys are checked while the log is applied.
fn checks(options: &ArgMatches<'_>) -> ForeignKeyChecks
    ensures { StatesChecks (one_text (found_of options.now) (codes "no-foreign-key-checks")) result }
{
    if options.get_flag("no-foreign-key-checks") {
        ForeignKeyChecks::Off
    } else {
        ForeignKeyChecks::AsLogged
    }
}
