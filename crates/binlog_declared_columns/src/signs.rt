//! Whether a table map states which columns are UNSIGNED.
ghost use Rattle.std.specs.Prelude.{◌≡◌, false};
ghost use Rattle.binlog_optional_metadata.specs.FieldsLeft.{answer_field_content};
ghost use Rattle.binlog_declared_columns.specs.Signs.{is_sign_field, IsStated};

use binlog_optional_metadata::{OptionalMetadata, OptionalMetadataError, OptionalMetadataField};

// Whether the field states which columns are UNSIGNED.
fn is_sign_field(item: &Result<OptionalMetadataField<'_>, OptionalMetadataError>) -> bool
    ensures { result ≡ is_sign_field (answer_field_content item.now) }
{
    match item {
        Ok(OptionalMetadataField::Signedness(_)) => true,
        _ => false,
    }
}

/// Whether a field that is read states which columns are UNSIGNED. Nothing is allocated.
pub fn states_signs(metadata: OptionalMetadata<'_>) -> bool
    ensures { IsStated metadata.entry false result }
{
    let mut fields = metadata;
    let mut is_stated = false;
    while let Some(item) = fields.next() {
        is_stated = is_stated || is_sign_field(&item);
    }
    is_stated
}
