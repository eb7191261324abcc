//! The sets of GTIDs that the words of `binlog`'s command line state.
ghost use Rattle.std.specs.Prelude.{◌≡◌, ◌⊎◌, IfErr, IfOk};
ghost use Rattle.clap.specs.Matches.{found_of, first_value};
ghost use Rattle.binlog_cli.specs.declared.exit_status.Status.TheVariants.{Failed, Usage};
ghost use Rattle.binlog_cli.specs.GtidWords.{is_maria_text, IsMariaSet, IsMysqlSet, IsNoMariaSet, IsNoMysqlSet, IsNoSet, IsSet, StatesGtids, StatesNoGtids};

use crate::exit_status::{Status, out_of_memory};
use binlog_filters::GtidSet;
use binlog_gtid_text::{GtidTextError, parse};
use binlog_maria_gtids::{MariaGtidTextError, parse_set};
use clap::ArgMatches;

/// The set of GTIDs of an option, if it is given. A text that is no set has a message.
pub fn gtids<R: Eprint + AllocGlobal>(
    rt: &R,
    matches: &ArgMatches<'_>,
    option: &str,
) -> Result<Option<GtidSet>, Status>
    ensures ok { IfOk result (λ set. StatesGtids (first_value (found_of matches.now) option.now) set) }
    ensures err { IfErr result (λ status. ((status ≡ Usage) × StatesNoGtids (first_value (found_of matches.now) option.now)) ⊎ (status ≡ Failed)) }
{
    let Some(text) = matches.get_str(option) else {
        return Ok(None);
    };
    match set(rt, option, text) {
        Ok(set) => Ok(Some(set)),
        Err(status) => Err(status),
    }
}

// Reads a set of either server.
fn set<R: Eprint + AllocGlobal>(rt: &R, option: &str, text: &str) -> Result<GtidSet, Status>
    ensures ok { IfOk result (λ set. IsSet (is_maria_text text.now) text.now set) }
    ensures err { IfErr result (λ status. ((status ≡ Usage) × IsNoSet (is_maria_text text.now) text.now) ⊎ (status ≡ Failed)) }
{
    if is_maria_text(text) {
        maria_set(rt, option, text)
    } else {
        mysql_set(rt, option, text)
    }
}

// Whether a text is read as a set of MariaDB's: if it has a `-` and no `:`.
fn is_maria_text(text: &str) -> bool
    ensures { result ≡ is_maria_text text.now }
{
    let bytes = text.as_bytes();
    bytes.contains(&b'-') && !bytes.contains(&b':')
}

// Reads a set of MySQL's.
fn mysql_set<R: Eprint + AllocGlobal>(rt: &R, option: &str, text: &str) -> Result<GtidSet, Status>
    ensures ok { IfOk result (λ set. IsMysqlSet text.now set) }
    ensures err { IfErr result (λ status. ((status ≡ Usage) × IsNoMysqlSet text.now) ⊎ (status ≡ Failed)) }
{
    match parse(rt.alloc(), text) {
        Ok(gtids) => Ok(GtidSet::Mysql(gtids)),
        Err(GtidTextError::Memory) => Err(out_of_memory(rt)),
        Err(error) => {
            let _ = eprintln!(rt; "binlog: --{option}: {error}");
            Err(Status::Usage)
        }
    }
}

// Reads a set of MariaDB's.
fn maria_set<R: Eprint + AllocGlobal>(rt: &R, option: &str, text: &str) -> Result<GtidSet, Status>
    ensures ok { IfOk result (λ set. IsMariaSet text.now set) }
    ensures err { IfErr result (λ status. ((status ≡ Usage) × IsNoMariaSet text.now) ⊎ (status ≡ Failed)) }
{
    match parse_set(rt.alloc(), text) {
        Ok(gtids) => Ok(GtidSet::Maria(gtids)),
        Err(MariaGtidTextError::Memory) => Err(out_of_memory(rt)),
        Err(error) => {
            let _ = eprintln!(rt; "binlog: --{option}: {error}");
            Err(Status::Usage)
        }
    }
}
