//! The status variables of a statement.
#![tactic(auto, using(std::proofs::Common::append_assoc))]

ghost use Rattle.std.specs.Prelude.{◌≡◌, ◌≤◌, [], ◌∷◌, ◌++◌, codes, flat_map, length, IfOk};
ghost use Rattle.json.specs.Token.{boolean};
ghost use Rattle.binlog_file.specs.StatusVariables.{Variable, variable_bytes, variables};
ghost use Rattle.binlog_file.specs.StatusVarValues.{Has};
ghost use Rattle.binlog_file.specs.StatusVars.{variable_of};
ghost use Rattle.json_line.specs.Lines.{IsPlainText};
ghost use Rattle.json_line.specs.Tokens.{Adds, text_value, number_value, bytes_value, member, object, array};
ghost use Rattle.binlog_json_bodies.specs.ClientSets.{collation_in, last_collation, client_collation};
ghost use Rattle.binlog_statements.specs.Layouts.{IsWholeLen};
ghost use Rattle.binlog_statements.specs.declared.layout.Layout.TheVariants.{TextAnd};
ghost use Rattle.binlog_json_bodies.specs.StatusVars.{entry, first_text, short_text, variable_object, status_vars_value, status_vars_members};

use crate::known_variables::last_collation;
use binlog_file::{NullBytes, RawBytes, StatusVar, StatusVarKey, StatusVarVal, StatusVarsIterator};
use byteorder::{ByteOrder, LittleEndian};
use json_line::Line;
use std::alloc::{AllocError, Global};

// What is found in status variables.
#[derive(Drop)]
struct Found {
    // How many bytes they have.
    len: usize,
    // The number of the client's collation, if one states it.
    collation: Option<u16>,
}

/// Writes the member with the status variables, and the member with the bytes after them, if any. The result is the
/// number of the client's collation, if the variables state one, or those among the bytes after them whose layouts are known.
pub(crate) fn write_status_vars(
    line: &mut Line,
    alloc: Global,
    text: &[u8],
) -> Result<Option<u16>, AllocError>
    ensures members { Adds result line.old line.new (status_vars_members text.now) }
    ensures client { IfOk result (λ collation. collation ≡ client_collation text.now) }
{
    line.key("status_vars")?;
    let found = write_variables(line, alloc, text)?;
    line.bytes_member_if_any("status_vars_rest", &text[found.len..])?;
    Ok(last_collation(&text[found.len..]).or(found.collation))
}

// Writes an array of the variables, in order.
#[inline(always)]
fn write_variables(line: &mut Line, alloc: Global, text: &[u8]) -> Result<Found, AllocError>
    ensures list { Adds result line.old line.new (status_vars_value text.now) }
    ensures len { IfOk result (λ found. found.len ≡ length (flat_map variable_bytes (variables text.now))) }
    ensures fits { IfOk result (λ found. found.len ≤ length text.now) }
    ensures client { IfOk result (λ found. found.collation ≡ last_collation (variables text.now)) }
{
    let mut len = 0;
    let mut collation = None;
    line.begin_array()?;
    'variables: for variable in StatusVarsIterator::new(text) {
        collation = write_variable(line, alloc, &variable)?.or(collation);
        len += 1 + variable.raw().len();
    }
    line.end_array()?;
    Ok(Found { len, collation })
}

// Writes a variable. It fails if the allocation for its value fails. The result is the number of the client's collation,
// if this is the variable that states it. Those that most statements have are written by their keys, which is cheaper than
// filling a `StatusVarVal`.
#[inline(always)]
fn write_variable(
    line: &mut Line,
    alloc: Global,
    variable: &StatusVar<'_>,
) -> Result<Option<u16>, AllocError>
    ensures object { Adds result line.old line.new (variable_object (variable_of variable.now)) }
    ensures client { IfOk result (λ collation. collation ≡ collation_in (variable_of variable.now)) }
{
    let raw = variable.raw();
    match variable.key() {
        StatusVarKey::Flags2 => {
            write_number(line, "Flags2", u64::from(LittleEndian::read_u32(raw)))?;
            Ok(None)
        }
        StatusVarKey::SqlMode => {
            write_number(line, "SqlMode", LittleEndian::read_u64(raw))?;
            Ok(None)
        }
        StatusVarKey::CatalogNz => {
            write_catalog(line, raw)?;
            Ok(None)
        }
        StatusVarKey::Charset => {
            let client = LittleEndian::read_u16(raw);
            let connection = LittleEndian::read_u16(&raw[2..]);
            write_charset(line, client, connection, LittleEndian::read_u16(&raw[4..]))?;
            Ok(Some(client))
        }
        _ => write_parsed(line, alloc, variable),
    }
}

// Writes the variable with the catalog's name, which is all of its value but the length.
#[inline(always)]
fn write_catalog(line: &mut Line, value: &[u8]) -> Result<(), AllocError>
    requires { IsWholeLen (TextAnd 0) value.now }
    ensures { Adds result line.old line.new (entry (codes "CatalogNz") (short_text (first_text value.now))) }
{
    write_text(line, "CatalogNz", &value[1..])
}

// Writes a variable with any key.
#[inline(never)]
fn write_parsed(
    line: &mut Line,
    alloc: Global,
    variable: &StatusVar<'_>,
) -> Result<Option<u16>, AllocError>
    ensures object { Adds result line.old line.new (variable_object (variable_of variable.now)) }
    ensures client { IfOk result (λ collation. collation ≡ collation_in (variable_of variable.now)) }
{
    match variable.get_value(alloc) {
        Ok(value) => {
            write_entry(line, &value)?;
            Ok(client_collation(&value))
        }
        Err(_) => Err(AllocError),
    }
}

// The number of the client's collation, if this value states it.
fn client_collation(value: &StatusVarVal<'_>) -> Option<u16>
    ensures { (variable : Variable) → Has variable value.now → result ≡ collation_in variable }
{
    match value {
        StatusVarVal::Charset { charset_client, .. } => Some(*charset_client),
        _ => None,
    }
}

// Writes a variable. Each call passes a constant name, which is cheap to write once inlined.
fn write_entry(line: &mut Line, value: &StatusVarVal<'_>) -> Result<(), AllocError>
    ensures { (variable : Variable) → Has variable value.now → Adds result line.old line.new (variable_object variable) }
{
    match value {
        StatusVarVal::Flags2(bits) => write_number(line, "Flags2", u64::from(*bits)),
        StatusVarVal::SqlMode(bits) => write_number(line, "SqlMode", *bits),
        StatusVarVal::Catalog(bytes) => write_bytes(line, "Catalog", *bytes),
        StatusVarVal::AutoIncrement { increment, offset } => write_auto_increment(
            line, *increment, *offset,
        ),
        StatusVarVal::Charset {
            charset_client,
            collation_connection,
            collation_server,
        } => write_charset(
            line,
            *charset_client,
            *collation_connection,
            *collation_server,
        ),
        StatusVarVal::TimeZone(text) => write_text(line, "TimeZone", text.as_bytes()),
        StatusVarVal::CatalogNz(text) => write_text(line, "CatalogNz", text.as_bytes()),
        StatusVarVal::LcTimeNames(number) => write_number(line, "LcTimeNames", u64::from(*number)),
        StatusVarVal::CharsetDatabase(number) => {
            write_number(line, "CharsetDatabase", u64::from(*number))
        }
        StatusVarVal::TableMapForUpdate(bits) => write_number(line, "TableMapForUpdate", *bits),
        StatusVarVal::MasterDataWritten(bytes) => write_bytes(line, "MasterDataWritten", bytes),
        StatusVarVal::Invoker { username, hostname } => write_invoker(
            line,
            username.as_bytes(),
            hostname.as_bytes(),
        ),
        StatusVarVal::UpdatedDbNames(names) => write_names(line, names),
        StatusVarVal::Microseconds(number) => {
            write_number(line, "Microseconds", u64::from(*number))
        }
        StatusVarVal::CommitTs(bytes) => write_bytes(line, "CommitTs", *bytes),
        StatusVarVal::CommitTs2(bytes) => write_bytes(line, "CommitTs2", *bytes),
        StatusVarVal::ExplicitDefaultsForTimestamp(is_set) => write_flag(
            line,
            "ExplicitDefaultsForTimestamp",
            *is_set,
        ),
        StatusVarVal::DdlLoggedWithXid(number) => write_number(line, "DdlLoggedWithXid", *number),
        StatusVarVal::DefaultCollationForUtf8mb4(number) => write_number(
            line,
            "DefaultCollationForUtf8mb4",
            u64::from(*number),
        ),
        StatusVarVal::SqlRequirePrimaryKey(number) => {
            write_number(line, "SqlRequirePrimaryKey", u64::from(*number))
        }
        StatusVarVal::DefaultTableEncryption(number) => {
            write_number(line, "DefaultTableEncryption", u64::from(*number))
        }
    }
}

#[inline(always)]
fn write_number(line: &mut Line, name: &str, number: u64) -> Result<(), AllocError>
    requires { IsPlainText name.now }
    ensures { Adds result line.old line.new (entry name.now (number_value number)) }
{
    line.begin_entry(name)?;
    line.number(number)?;
    line.end_object()?;
    Ok(())
}

#[inline(always)]
fn write_bytes(line: &mut Line, name: &str, bytes: &[u8]) -> Result<(), AllocError>
    requires { IsPlainText name.now }
    ensures { Adds result line.old line.new (entry name.now (bytes_value bytes.now)) }
{
    line.begin_entry(name)?;
    line.bytes(bytes)?;
    line.end_object()?;
    Ok(())
}

#[inline(always)]
fn write_text(line: &mut Line, name: &str, text: &[u8]) -> Result<(), AllocError>
    requires { IsPlainText name.now }
    ensures { Adds result line.old line.new (entry name.now (text_value text.now)) }
{
    line.begin_entry(name)?;
    line.text(text)?;
    line.end_object()?;
    Ok(())
}

#[inline(always)]
fn write_flag(line: &mut Line, name: &str, is_set: bool) -> Result<(), AllocError>
    requires { IsPlainText name.now }
    ensures { Adds result line.old line.new (entry name.now (boolean is_set ∷ [])) }
{
    line.begin_entry(name)?;
    line.boolean(is_set)?;
    line.end_object()?;
    Ok(())
}

fn write_auto_increment(line: &mut Line, increment: u16, offset: u16) -> Result<(), AllocError>
    ensures { Adds result line.old line.new (entry (codes "AutoIncrement") (object (member (codes "increment") (number_value increment) ++ member (codes "offset") (number_value offset)))) }
{
    line.begin_entry("AutoIncrement")?;
    line.begin_object()?;
    line.number_member("increment", u64::from(increment))?;
    line.number_member("offset", u64::from(offset))?;
    line.end_object()?;
    line.end_object()?;
    Ok(())
}

fn write_charset(
    line: &mut Line,
    client: u16,
    connection: u16,
    server: u16,
) -> Result<(), AllocError>
    ensures { Adds result line.old line.new (entry (codes "Charset") (object (member (codes "charset_client") (number_value client)
        ++ member (codes "collation_connection") (number_value connection) ++ member (codes "collation_server") (number_value server)))) }
{
    line.begin_entry("Charset")?;
    line.begin_object()?;
    line.number_member("charset_client", u64::from(client))?;
    line.number_member("collation_connection", u64::from(connection))?;
    line.number_member("collation_server", u64::from(server))?;
    line.end_object()?;
    line.end_object()?;
    Ok(())
}

fn write_invoker(line: &mut Line, username: &[u8], hostname: &[u8]) -> Result<(), AllocError>
    ensures { Adds result line.old line.new (entry (codes "Invoker") (object (member (codes "username") (text_value username.now) ++ member (codes "hostname") (text_value hostname.now)))) }
{
    line.begin_entry("Invoker")?;
    line.begin_object()?;
    line.text_member("username", username)?;
    line.text_member("hostname", hostname)?;
    line.end_object()?;
    line.end_object()?;
    Ok(())
}

// Writes an array of texts.
fn write_names(line: &mut Line, names: &Vec<RawBytes<'_, NullBytes>>) -> Result<(), AllocError>
    ensures { Adds result line.old line.new (entry (codes "UpdatedDbNames") (array (flat_map text_value names.now.items))) }
{
    line.begin_entry("UpdatedDbNames")?;
    line.begin_array()?;
    'names: for name in names {
        line.text(name.as_bytes())?;
    }
    line.end_array()?;
    line.end_object()?;
    Ok(())
}
