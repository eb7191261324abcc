//! The character set of the client that sent a statement.

ghost use Rattle.std.specs.Prelude.{◌≡◌, true};
ghost use Rattle.std.specs.Option.{option_and_then};
ghost use Rattle.binlog_file.specs.EventRefs.{view_of};
ghost use Rattle.character_sets.specs.Collations.{set_of_collation_in};
ghost use Rattle.binlog_json_bodies.specs.ClientSets.{is_of_maria};

use binlog_event_types::is_of_maria;
use binlog_file::EventRef;
use character_sets::CharacterSet;

/// The character set of a client with this collation, by the server that wrote the event's log.
#[tactic(auto, using(crate::proofs::ClientSets::same_in_both))]
pub(crate) fn client_set(event: &EventRef<'_>, collation: Option<u16>) -> Option<CharacterSet>
    ensures { result ≡ option_and_then (set_of_collation_in (is_of_maria (view_of event.now).fde)) collation }
{
    let number = collation?;
    match CharacterSet::from_collation(number) {
        Some(set) => Some(set),
        None => CharacterSet::from_collation_in(is_of_maria(&event.fde()), number),
    }
}

/// The same in a log that MariaDB wrote.
pub(crate) fn maria_client_set(collation: Option<u16>) -> Option<CharacterSet>
    ensures { result ≡ option_and_then (set_of_collation_in true) collation }
{
    CharacterSet::from_mariadb_collation(collation?)
}
