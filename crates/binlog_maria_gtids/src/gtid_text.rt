//! Reading the text of a list of MariaDB's GTIDs.
ghost use Rattle.std.specs.Prelude.{◌≡◌, ◌⊎◌, ◌+◌, List, [], ◌∷◌, ◌++◌, map, IfOk, IfErr, OnOk, IsOkUnless, vec_len};
ghost use Rattle.binlog_mariadb.specs.declared.maria_gtid.MariaGtid.{MariaGtid};
ghost use Rattle.binlog_maria_gtids.specs.declared.gtid_text_error.MariaGtidTextError.TheVariants.{Memory};
ghost use Rattle.binlog_maria_gtids.specs.GtidSets.{is_among};
ghost use Rattle.binlog_maria_gtids.specs.GtidReading.{has_digits_alone, number_in, gtid_in, gtid_of, parts_of, AreRead, IsInvalidIn, IsInvalid};
ghost use Rattle.binlog_maria_gtids.specs.GtidTexts.{AreGtidTexts};

use crate::gtid_text_error::{MariaGtidFault, MariaGtidTextError};
use crate::maria_gtid_set::MariaGtidSet;
use binlog_mariadb::MariaGtid;
use std::alloc::Global;

/// Reads the text of a set of MariaDB's GTIDs: one GTID or more, with `,` between and no spaces. A GTID is
/// `domain-server_id-sequence`, three numbers in decimal digits: the first two below 2^32, the last one below 2^64.
/// The GTIDs may come in any order, and more than once.
///
/// # Errors
///
/// - [`MariaGtidTextError::Invalid`] if the text isn't such a list: what is wrong in its first part that is no GTID.
/// - [`MariaGtidTextError::Memory`] if an allocation fails.
pub fn parse_set(alloc: Global, text: &str) -> Result<MariaGtidSet, MariaGtidTextError>
    ensures ok { IfOk result (λ set. (gtids : List MariaGtid) × AreGtidTexts text.now gtids × ((gtid : MariaGtid) → is_among set gtid ≡ is_among gtids gtid)) }
    ensures err { IfErr result (λ e. (e ≡ Memory) ⊎ IsInvalid text.now e) }
{
    let parts = parts_of(alloc, text)?;
    let gtids = gtids_in(alloc, &parts)?;
    Ok(MariaGtidSet::new(gtids))
}

// Reads a GTID of each part, in order.
fn gtids_in(alloc: Global, parts: &[&str]) -> Result<Vec<MariaGtid>, MariaGtidTextError>
    ensures ok { IfOk result (λ gtids. AreRead (map (λ part. part.now) parts.now) gtids.items) }
    ensures err { IfErr result (λ e. (e ≡ Memory) ⊎ IsInvalidIn (map (λ part. part.now) parts.now) e) }
{
    let mut gtids = Vec::new(alloc);
    for part in parts {
        match gtid_in(part) {
            Ok(gtid) => push(&mut gtids, gtid)?,
            Err(fault) => return Err(MariaGtidTextError::Invalid(fault, gtids.len() + 1)),
        }
    }
    Ok(gtids)
}

// The parts of a text between the commas. The only error is [`MariaGtidTextError::Memory`].
fn parts_of(alloc: Global, text: &str) -> Result<Vec<&str>, MariaGtidTextError>
    ensures ok { IfOk result (λ parts. map (λ part. part.now) parts.items ≡ parts_of text.now) }
    ensures memory { IsOkUnless result Memory }
{
    match text.split(',').collect(alloc) {
        Ok(parts) => Ok(parts),
        Err(_) => Err(MariaGtidTextError::Memory),
    }
}

// Adds a GTID. The only error is [`MariaGtidTextError::Memory`].
fn push(gtids: &mut Vec<MariaGtid>, gtid: MariaGtid) -> Result<(), MariaGtidTextError>
    ensures ok { OnOk result (gtids.new.items ≡ gtids.old.items ++ gtid ∷ []) }
    ensures len { OnOk result (vec_len gtids.new ≡ vec_len gtids.old + 1) }
    ensures memory { IsOkUnless result Memory }
{
    match gtids.push(gtid) {
        Ok(()) => Ok(()),
        Err(_) => Err(MariaGtidTextError::Memory),
    }
}

// Reads a GTID.
#[tactic(auto, unfolding(crate::specs::GtidReading::gtid_in))]
fn gtid_in(text: &str) -> Result<MariaGtid, MariaGtidFault>
    ensures { result ≡ gtid_in text.now }
{
    let Some((domain, rest)) = text.split_once('-') else {
        return Err(MariaGtidFault::Hyphens);
    };
    let Some((server_id, sequence)) = rest.split_once('-') else {
        return Err(MariaGtidFault::Hyphens);
    };
    gtid_of(domain, server_id, sequence)
}

// Reads the GTID of these numbers.
fn gtid_of(domain: &str, server_id: &str, sequence: &str) -> Result<MariaGtid, MariaGtidFault>
    ensures { result ≡ gtid_of (number_in 32 domain.now) (number_in 32 server_id.now) (number_in 64 sequence.now) }
{
    let domain = short_number_in(domain)?;
    let server_id = short_number_in(server_id)?;
    let sequence = number_in(sequence)?;
    Ok(MariaGtid::new(domain, server_id, sequence))
}

// Reads a number of 32 bits.
fn short_number_in(text: &str) -> Result<u32, MariaGtidFault>
    ensures { result ≡ number_in 32 text.now }
{
    match u32::try_from(number_in(text)?) {
        Ok(number) => Ok(number),
        Err(_) => Err(MariaGtidFault::Range),
    }
}

// Reads a number of 64 bits.
fn number_in(text: &str) -> Result<u64, MariaGtidFault>
    ensures { result ≡ number_in 64 text.now }
{
    if !has_digits_alone(text) {
        return Err(MariaGtidFault::Number);
    }
    match text.parse::<u64>() {
        Ok(number) => Ok(number),
        Err(_) => Err(MariaGtidFault::Range),
    }
}

// Whether a text has a decimal digit, and no other byte.
fn has_digits_alone(text: &str) -> bool
    ensures { result ≡ has_digits_alone text.now }
{
    !text.is_empty() && text.as_bytes().iter().all(|byte| byte.is_ascii_digit())
}
