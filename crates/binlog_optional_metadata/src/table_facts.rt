//! The facts of the columns of a table.
ghost use Rattle.std.specs.Prelude.{◌≡◌, ◌&&◌, ◌==◌, ◌+◌, ◌<◌, ◌^◌, List, [], ◌∷◌, Some, None, drop, option_map, slice_get, false, unwrap_or, IfOk, length};
ghost use Rattle.std.specs.Option.{option_and_then};
ghost use Rattle.binlog_columns.specs.TableColumns.{columns_of};
ghost use Rattle.binlog_optional_metadata.specs.FieldValues.{bits_of};
ghost use Rattle.binlog_optional_metadata.specs.declared.field_type.OptionalMetadataFieldType.TheVariants.{SIGNEDNESS};
ghost use Rattle.binlog_optional_metadata.specs.Stated.{is_set_in, text_of, StatesFacts};
ghost use Rattle.binlog_optional_metadata.specs.StatedFields.{names_left};

use crate::class_index::ClassIndex;
use crate::column_class::ColumnClass;
use crate::column_facts::ColumnFacts;
use crate::column_members::next_members;
use crate::column_sets::{column_sets, first_set, set_at};
use crate::metadata_bits::MetadataBits;
use crate::metadata_error::OptionalMetadataError;
use crate::names::Names;
use crate::optional_metadata::OptionalMetadata;
use crate::padding::padded_length;
use crate::stated_fields::StatedFields;
use binlog_columns::TableColumns;
use std::alloc::{AllocError, Global};

/// What the optional metadata of a table map states of the columns of its table.
#[derive(Debug, PartialEq, Eq, Drop)]
pub struct TableFacts<'a> {
    /// What is stated of each column, in their order.
    pub columns: Vec<ColumnFacts<'a>>,
    /// Why the first field of the metadata is refused that is; None if all are read. A refused field states nothing.
    pub refusal: Option<OptionalMetadataError>,
}

impl<'a> TableFacts<'a> {
    /// What this optional metadata states of these columns. Which columns have a collation depends on the server that wrote
    /// the log ([`ColumnClass::character`]).
    ///
    /// Each field that is read counts, also beside others that are refused; of two fields of one kind the last that is read.
    /// What no field states is as in [`ColumnFacts`] without it: a column without a name, not UNSIGNED, without a character set,
    /// without members. A name that isn't UTF-8 isn't stated. The numbers of columns and of members bound what is allocated; each
    /// member has its own bytes in the metadata.
    ///
    /// # Errors
    ///
    /// [`AllocError`] if an allocation fails.
    pub fn new(
        alloc: Global,
        columns: TableColumns<'_>,
        optional_metadata: &'a [u8],
        is_maria_log: bool,
    ) -> Result<Self, AllocError>
        ensures { IfOk result (λ facts. StatesFacts is_maria_log (columns_of columns.entry) optional_metadata.now facts.columns.items facts.refusal) }
    {
        let fields = OptionalMetadata::new(columns, optional_metadata, is_maria_log);
        let stated = StatedFields::read(fields);
        let count = columns.num_columns();
        let sets_of_texts = column_sets(alloc, count, is_maria_log, stated.collations)?;
        let sets_of_members = column_sets(alloc, count, is_maria_log, stated.member_collations)?;
        let (mut names, mut enums, mut sets) = (stated.names, stated.enums, stated.sets);
        let mut numeric = ClassIndex::new(ColumnClass::Numeric);
        let mut character = ClassIndex::new(ColumnClass::character(is_maria_log));
        let mut listed = ClassIndex::new(ColumnClass::EnumOrSet);
        let mut facts = Vec::with_capacity(alloc, count)?;
        'columns: for column in columns {
            let real_type = column.real_type();
            let numeric_index = numeric.take(real_type);
            let character_index = character.take(real_type);
            let listed_index = listed.take(real_type);
            let of_texts = set_at(&sets_of_texts, character_index);
            let of_members = set_at(&sets_of_members, listed_index);
            let character_set = first_set(of_texts, of_members);
            let members = next_members(alloc, &mut enums, &mut sets, real_type)?;
            facts
                .push(ColumnFacts {
                    name: next_name(&mut names),
                    is_unsigned: is_set(&stated.signedness, numeric_index),
                    character_set,
                    padded_length: padded_length(&column, character_set),
                    members,
                })
                .map_err(AllocError::from)?;
        }
        Ok(TableFacts {
            columns: facts,
            refusal: stated.refusal,
        })
    }
}

/// The next name, if it is a text.
#[tactic(auto, using(crate::proofs::NameTexts::first_text, crate::proofs::NameTexts::other_names))]
fn next_name<'a>(names: &mut Option<Names<'a>>) -> Option<&'a str>
    ensures name { option_map (λ name. name.now) result ≡ option_and_then text_of (slice_get (names_left names.old) 0) }
    ensures rest { names_left names.new ≡ drop 1 (names_left names.old) }
{
    match names {
        Some(names) => text_of(names.next()?),
        None => None,
    }
}

/// The bytes as a text, if they are one.
#[tactic(auto, using(crate::proofs::NameTexts::is_text, crate::proofs::NameTexts::is_no_text))]
fn text_of(name: &[u8]) -> Option<&str>
    ensures { option_map (λ text. text.now) result ≡ text_of name.now }
{
    let Ok(text) = str::from_utf8(name) else {
        return None;
    };
    Some(text)
}

/// Whether the bit with this index is stated and set.
fn is_set(signedness: &Option<MetadataBits<'_>>, index: Option<u64>) -> bool
    ensures { result ≡ unwrap_or (option_map (is_set_in (option_map (bits_of SIGNEDNESS) signedness.now)) index) false }
{
    match (signedness, index) {
        (Some(bits), Some(index)) => bits.bit(index).unwrap_or(false),
        _ => false,
    }
}
