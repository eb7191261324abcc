//! Why a compressed transaction is refused, as the members of an object.
#![tactic(auto, using(std::proofs::Common::append_assoc))]

ghost use Rattle.std.specs.Prelude.{◌≡◌, [], ◌∷◌, codes};
ghost use Rattle.json.specs.Token.{string};
ghost use Rattle.json_line.specs.Lines.{IsPlainText};
ghost use Rattle.json_line.specs.Tokens.{Adds, member};
ghost use Rattle.binlog_json_lines.specs.PayloadRefusals.{zstd_name, refusal_name, refusal_detail, refusal_members};

use binlog_payloads::PayloadError;
use json_line::Line;
use std::alloc::AllocError;
use zstd_decode::ZstdError;

/// Writes the members of a refusal: its name, and what else is known of it.
///
/// # Errors
///
/// [`AllocError`] if an allocation fails. Some tokens may then have been written.
pub(crate) fn write_payload_refusal(line: &mut Line, error: &PayloadError) -> Result<(), AllocError>
    ensures { Adds result line.old line.new (refusal_members error.now) }
{
    line.key("error")?;
    line.plain_string(refusal_name(error))?;
    write_detail(line, error)
}

// Writes what else is known of a refusal.
fn write_detail(line: &mut Line, error: &PayloadError) -> Result<(), AllocError>
    ensures { Adds result line.old line.new (refusal_detail error.now) }
{
    match error {
        PayloadError::Kind(number) => line.number_member("compression_type", *number),
        PayloadError::Zstd(error) => write_zstd(line, *error),
        PayloadError::Type(event_type) => line.number_member("event_type", u64::from(*event_type)),
        PayloadError::Event(error) => line.number_member("number", u64::from(error.number())),
        _ => Ok(()),
    }
}

// Writes why data aren't Zstandard's.
fn write_zstd(line: &mut Line, error: ZstdError) -> Result<(), AllocError>
    ensures { Adds result line.old line.new (member (codes "zstd") (string (zstd_name error) ∷ [])) }
{
    line.key("zstd")?;
    line.plain_string(zstd_name(error))
}

// The name of a refusal.
fn refusal_name(error: &PayloadError) -> &'static str
    ensures name { result.now ≡ refusal_name error.now }
    ensures plain { IsPlainText result.now }
{
    match error {
        PayloadError::EventTruncated => "EventTruncated",
        PayloadError::Lenenc => "Lenenc",
        PayloadError::FieldTwice => "FieldTwice",
        PayloadError::FieldLength => "FieldLength",
        PayloadError::Kind(_) => "Kind",
        PayloadError::NoField => "NoField",
        PayloadError::PayloadSize => "PayloadSize",
        PayloadError::Limit => "Limit",
        PayloadError::UncompressedSize => "UncompressedSize",
        PayloadError::Zstd(_) => "Zstd",
        PayloadError::InnerTruncated => "InnerTruncated",
        PayloadError::InnerSize => "InnerSize",
        PayloadError::Type(_) => "Type",
        PayloadError::Event(_) => "Event",
        PayloadError::Memory => "Memory",
    }
}

// The name of why data aren't Zstandard's.
fn zstd_name(error: ZstdError) -> &'static str
    ensures name { result.now ≡ zstd_name error }
    ensures plain { IsPlainText result.now }
{
    match error {
        ZstdError::Truncated => "Truncated",
        ZstdError::Magic => "Magic",
        ZstdError::Reserved => "Reserved",
        ZstdError::Dictionary => "Dictionary",
        ZstdError::Limit => "Limit",
        ZstdError::BlockType => "BlockType",
        ZstdError::BlockSize => "BlockSize",
        ZstdError::Content => "Content",
        ZstdError::Checksum => "Checksum",
        ZstdError::Short => "Short",
        ZstdError::LiteralsSize => "LiteralsSize",
        ZstdError::FourStreams => "FourStreams",
        ZstdError::NoTree => "NoTree",
        ZstdError::Jump => "Jump",
        ZstdError::Accuracy => "Accuracy",
        ZstdError::Symbols => "Symbols",
        ZstdError::OneSymbol => "OneSymbol",
        ZstdError::TooMany => "TooMany",
        ZstdError::Weight => "Weight",
        ZstdError::Tree => "Tree",
        ZstdError::NoMark => "NoMark",
        ZstdError::BitsOut => "BitsOut",
        ZstdError::BitsLeft => "BitsLeft",
        ZstdError::LeftOver => "LeftOver",
        ZstdError::Modes => "Modes",
        ZstdError::Symbol => "Symbol",
        ZstdError::NoTable => "NoTable",
        ZstdError::Literals => "Literals",
        ZstdError::Offset => "Offset",
        ZstdError::Window => "Window",
        ZstdError::BlockOutput => "BlockOutput",
        ZstdError::Memory => "Memory",
    }
}
