//! The client's collation in the status variables of a statement, whether the table of keys lists them or not.

ghost use Rattle.std.specs.Prelude.{◌≡◌, ◌+◌, ◌≤◌, length, drop};
ghost use Rattle.binlog_file.specs.StatusVars.{variable_of};
ghost use Rattle.binlog_json_bodies.specs.ClientSets.{collation_in, client_collation, first_stated, unlisted_stated, GivesFirst};

use crate::unlisted_variables::unlisted_len;
use binlog_file::{StatusVar, StatusVarKey, StatusVarsIterator};
use byteorder::{ByteOrder, LittleEndian};

/// The number of the client's collation, which the last variable with one states; None if they state none.
#[tactic(auto, using(crate::proofs::KnownVariables::one_more_stated, crate::proofs::KnownVariables::stated_step, crate::proofs::KnownVariables::stated_shorter))]
pub(crate) fn last_collation(status_vars: &[u8]) -> Option<u16>
    ensures { result ≡ client_collation status_vars.now }
{
    let mut left = status_vars;
    let mut collation = None;
    'variables: while let Some((stated, behind)) = first_known(left) {
        collation = stated.or(collation);
        left = behind;
    }
    collation
}

// What the first variable states of the client's collation, and the bytes behind it; None if there is no whole one.
fn first_known(text: &[u8]) -> Option<(Option<u16>, &[u8])>
    ensures { GivesFirst result (first_stated text.now) }
{
    let mut variables = StatusVarsIterator::new(text);
    match variables.next() {
        Some(variable) => {
            let stated = collation_of(&variable);
            let behind = behind_variable(text, &variable);
            Some((stated, behind))
        }
        None => first_unlisted(text),
    }
}

// The same of a text that begins with no listed variable: of an unlisted one, which states no collation.
#[tactic(auto, using(crate::proofs::KnownVariables::unlisted_here, crate::proofs::KnownVariables::unlisted_short, crate::proofs::KnownVariables::none_unlisted))]
fn first_unlisted(text: &[u8]) -> Option<(Option<u16>, &[u8])>
    ensures { GivesFirst result (unlisted_stated text.now) }
{
    let (number, bytes) = text.split_first()?;
    let len = unlisted_len(*number, bytes)?;
    Some((None, &bytes[len..]))
}

// The number of the client's collation, if this variable states it.
#[tactic(auto, using(crate::proofs::ClientSets::other_key))]
fn collation_of(variable: &StatusVar<'_>) -> Option<u16>
    ensures { result ≡ collation_in (variable_of variable.now) }
{
    let raw = variable.raw();
    match variable.key() {
        StatusVarKey::Charset => Some(LittleEndian::read_u16(raw)),
        _ => None,
    }
}

// The bytes behind a variable at the start of a text.
fn behind_variable<'a>(text: &'a [u8], variable: &StatusVar<'_>) -> &'a [u8]
    requires { 1 + length (variable_of variable.now).value ≤ length text.now }
    ensures { result.now ≡ drop (1 + length (variable_of variable.now).value) text.now }
{
    &text[1 + variable.raw().len()..]
}
