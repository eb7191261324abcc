//! The bytes of opaque values.
ghost use Rattle.std.specs.Prelude.{◌≡◌};
ghost use Rattle.binary_json.specs.Opaques.{is_decimal_data, is_temporal, is_opaque};

use crate::decimal::is_decimal;

/// Whether the bytes may be an opaque value of a column type.
#[tactic(auto, unfolding(crate::specs::Opaques::is_opaque))]
pub(crate) fn is_opaque(kind: u8, bytes: &[u8]) -> bool
    ensures { result ≡ is_opaque kind bytes.now }
{
    match kind {
        246 => is_decimal_data(bytes),
        _ if is_temporal(kind) => bytes.len() == 8,
        _ => true,
    }
}

/// Whether the column type is TIMESTAMP, DATE, TIME or DATETIME.
pub(crate) fn is_temporal(kind: u8) -> bool
    ensures { result ≡ is_temporal kind }
{
    kind == 7 || kind >= 10 && kind <= 12
}

fn is_decimal_data(bytes: &[u8]) -> bool
    ensures { result ≡ is_decimal_data bytes.now }
{
    match bytes {
        [precision, scale, digits @ ..] => is_decimal(*precision, *scale, digits),
        _ => false,
    }
}
