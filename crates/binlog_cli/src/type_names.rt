//! The types of events that the words of `binlog`'s command line name.
ghost use Rattle.std.specs.Prelude.{◌≡◌, ◌⊎◌, map, IfErr, IfOk, OnOk};
ghost use Rattle.clap.specs.Matches.{found_of};
ghost use Rattle.binlog_event_types.specs.TypeNames.{AreNamed, HasNoType, HaveTypes};
ghost use Rattle.binlog_cli.specs.declared.exit_status.Status.TheVariants.{Failed, Usage};
ghost use Rattle.binlog_cli.specs.FilterWords.{type_names};

use crate::exit_status::{Status, out_of_memory};
use binlog_event_types::{number_with_name, numbers_with_names};
use clap::ArgMatches;

/// The raw types that are asked for, in ascending order. A name that no type has, has a message.
pub fn types<R: Eprint + AllocGlobal>(rt: &R, matches: &ArgMatches<'_>) -> Result<Vec<u8>, Status>
    ensures ok { IfOk result (λ types. AreNamed (type_names (found_of matches.now)) types.items) }
    ensures err { IfErr result (λ status. ((status ≡ Usage) × HasNoType (type_names (found_of matches.now))) ⊎ (status ≡ Failed)) }
{
    let types = types_with_names(rt, matches.get_strs("type").unwrap_or(&[]))?;
    Ok(types)
}

// The raw types that have one of these names.
fn types_with_names<R: Eprint + AllocGlobal>(rt: &R, names: &[&str]) -> Result<Vec<u8>, Status>
    ensures ok { IfOk result (λ types. AreNamed (map (λ name. name.now) names.now) types.items) }
    ensures err { IfErr result (λ status. ((status ≡ Usage) × HasNoType (map (λ name. name.now) names.now)) ⊎ (status ≡ Failed)) }
{
    check_names(rt, names)?;
    match numbers_with_names(rt.alloc(), names) {
        Ok(types) => Ok(types),
        Err(_) => Err(out_of_memory(rt)),
    }
}

// Refuses a name that no type has.
fn check_names<R: Eprint>(rt: &R, names: &[&str]) -> Result<(), Status>
    ensures ok { OnOk result (HaveTypes (map (λ name. name.now) names.now)) }
    ensures err { IfErr result (λ status. (status ≡ Usage) × HasNoType (map (λ name. name.now) names.now)) }
{
    for name in names.iter() {
        let Some(_) = number_with_name(name) else {
            let _ = eprintln!(rt; "binlog: --type: there is no event type {name:?}");
            return Err(Status::Usage);
        };
    }
    Ok(())
}
