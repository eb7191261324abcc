//! The fields of the optional metadata from which the facts of columns come.
ghost use Rattle.std.specs.Prelude.{◌≡◌, Err};
ghost use Rattle.binlog_optional_metadata.specs.FieldValues.{content_of};
ghost use Rattle.binlog_optional_metadata.specs.FieldsLeft.{answer_field_content};
ghost use Rattle.binlog_optional_metadata.specs.StatedFields.{with_field, with_content, with_refusal};

use crate::collations::Collations;
use crate::field::OptionalMetadataField;
use crate::member_lists::MemberLists;
use crate::metadata_bits::MetadataBits;
use crate::metadata_error::OptionalMetadataError;
use crate::names::Names;
use crate::optional_metadata::OptionalMetadata;

/// Of each kind the last field that is read, and why the first field is refused that is.
#[derive(Clone, Copy, Debug)]
pub(crate) struct StatedFields<'a> {
    /// Whether each numeric column is unsigned.
    pub(crate) signedness: Option<MetadataBits<'a>>,
    /// The collation of each character column.
    pub(crate) collations: Option<Collations<'a>>,
    /// The collation of each ENUM and SET column.
    pub(crate) member_collations: Option<Collations<'a>>,
    /// The name of each column.
    pub(crate) names: Option<Names<'a>>,
    /// The members of each ENUM column.
    pub(crate) enums: Option<MemberLists<'a>>,
    /// The members of each SET column.
    pub(crate) sets: Option<MemberLists<'a>>,
    /// Why the first field is refused that is.
    pub(crate) refusal: Option<OptionalMetadataError>,
}

impl<'a> StatedFields<'a> {
    ghost use Rattle.binlog_optional_metadata.specs.StatedFields.{stated_of, LeavesFields};

    /// Takes the fields that are left.
    pub(crate) fn read(metadata: OptionalMetadata<'a>) -> Self
        ensures { LeavesFields metadata.entry.counts metadata.entry.rest.now (stated_of result) result.refusal }
    {
        let mut stated = StatedFields {
            signedness: None,
            collations: None,
            member_collations: None,
            names: None,
            enums: None,
            sets: None,
            refusal: None,
        };
        'fields: for item in metadata {
            stated.take_item(item);
        }
        stated
    }

    /// Takes a field that is read, or the refusal of one.
    fn take_item(&mut self, item: Result<OptionalMetadataField<'a>, OptionalMetadataError>)
        ensures fields { stated_of self.new ≡ with_content (stated_of self.old) (answer_field_content item.entry) }
        ensures refusal { self.new.refusal ≡ with_refusal self.old.refusal (answer_field_content item.entry) }
    {
        match item {
            Ok(field) => self.take(field),
            Err(error) => self.refuse(error),
        }
    }

    /// Takes a field in place of an earlier one of its kind.
    fn take(&mut self, field: OptionalMetadataField<'a>)
        ensures field { stated_of self.new ≡ with_field (stated_of self.old) (content_of field.entry) }
        ensures refusal { self.new.refusal ≡ self.old.refusal }
    {
        use OptionalMetadataField as Field;
        match field {
            Field::Signedness(bits) => self.signedness = Some(bits),
            Field::DefaultCharset(sets) => self.collations = Some(Collations::Default(sets)),
            Field::ColumnCharset(sets) => self.collations = Some(Collations::Each(sets)),
            Field::EnumAndSetDefaultCharset(sets) => {
                self.member_collations = Some(Collations::Default(sets));
            }
            Field::EnumAndSetColumnCharset(sets) => {
                self.member_collations = Some(Collations::Each(sets));
            }
            Field::ColumnName(names) => self.names = Some(names),
            Field::EnumStrValue(lists) => self.enums = Some(lists),
            Field::SetStrValue(lists) => self.sets = Some(lists),
            _ => (),
        }
    }

    /// Takes the refusal of a field, unless one was refused before.
    fn refuse(&mut self, error: OptionalMetadataError)
        ensures fields { stated_of self.new ≡ stated_of self.old }
        ensures refusal { self.new.refusal ≡ with_refusal self.old.refusal (Err error) }
    {
        if self.refusal.is_none() {
            self.refusal = Some(error);
        }
    }
}
