//! Values as JSON.
#![tactic(auto, using(std::proofs::Common::append_assoc))]

ghost use Rattle.std.specs.Prelude.{◌≡◌, ◌++◌, ◌∷◌, [], map, option_copied, IfOk};
ghost use Rattle.json.specs.Token.{string};
ghost use Rattle.json_line.specs.Tokens.{Adds};
ghost use Rattle.binlog_values.specs.Decimals.{decimal_text};
ghost use Rattle.binlog_values.specs.Values.{meaning_of, content_of};
ghost use Rattle.binlog_optional_metadata.specs.Facts.{facts_of};
ghost use Rattle.binlog_json_values.specs.KeptColumns.{kept_facts};
ghost use Rattle.binlog_json_values.specs.Parts.{Writes};
ghost use Rattle.binlog_json_values.specs.Documents.{diff_list_parts};
ghost use Rattle.binlog_json_values.specs.Values.{value_tokens, value_parts};

use crate::before::DocumentsBefore;
use crate::documents::{write_diff_list, write_encoded, write_json};
use crate::kept_columns::KeptColumns;
use crate::keys::ColumnKeys;
use crate::members::{write_enum, write_set};
use crate::names::NumberedNames;
use crate::numbers::{write_double, write_integer, write_single};
use crate::strings::write_string;
use crate::times::{write_date, write_datetime, write_datetime2, write_time, write_time2};
use crate::timestamps::write_timestamp;
use binlog_images::Rows;
use binlog_optional_metadata::ColumnFacts;
use binlog_values::{Decimal, Value};
use json_line::{DecimalParts, Line};
use std::alloc::{AllocError, Global};
use std::mem;

/// Writes values, in memory that is reused from value to value.
#[derive(Drop)]
pub struct ValueWriter {
    alloc: Global,
    pub(crate) text: String,
    bytes: Vec<u8>,
    pub(crate) names: NumberedNames,
    pub(crate) keys: ColumnKeys,
}

impl ValueWriter {
    /// A writer. Nothing is allocated.
    pub fn new(alloc: Global) -> Self {
        ValueWriter {
            alloc,
            text: String::new(alloc),
            bytes: Vec::new(alloc),
            names: NumberedNames::new(alloc),
            keys: ColumnKeys::new(alloc),
        }
    }

    /// Takes the writer with its memory, and leaves one without memory.
    pub(crate) fn take(&mut self) -> Self {
        let empty = ValueWriter::new(self.alloc);
        mem::replace(self, empty)
    }

    /// The documents of the image before of the first of these rows. Nothing is allocated.
    pub(crate) fn documents_before<'a>(&self, rows: &Rows<'a>) -> DocumentsBefore<'a> {
        DocumentsBefore::new(self.alloc, rows)
    }

    /// The facts of columns that are kept, borrowed.
    pub(crate) fn facts<'a>(
        &self,
        columns: &'a KeptColumns,
    ) -> Result<Vec<ColumnFacts<'a>>, AllocError>
        ensures { IfOk result (λ facts. map facts_of facts.items ≡ kept_facts columns.now) }
    {
        columns.facts(self.alloc)
    }

    /// Writes the bytes of a list of diffs of a column, whose document before is given.
    pub(crate) fn write_diffs(
        &mut self,
        line: &mut Line,
        before: Option<&[u8]>,
        bytes: &[u8],
    ) -> Result<(), AllocError>
        ensures { Writes result line.old line.new (diff_list_parts (option_copied before.entry) bytes.now) }
    {
        write_diff_list(self.alloc, line, &mut self.text, before, bytes)
    }

    /// Writes a value of a column of which these facts are known.
    ///
    /// # Errors
    ///
    /// [`AllocError`] if an allocation fails. Some tokens of the value may then have been written.
    #[inline(always)]
    pub fn write(
        &mut self,
        line: &mut Line,
        facts: &ColumnFacts<'_>,
        value: &Value<'_>,
    ) -> Result<(), AllocError>
        ensures { Writes result line.old line.new (value_parts (facts_of facts.now) (meaning_of value.now) (content_of value.now)) }
    {
        match value {
            Value::Float(float) => write_single(line, *float),
            Value::Double(double) => write_double(line, *double),
            Value::Timestamp(seconds) => write_timestamp(line, 0, *seconds, 0),
            Value::Timestamp2(time) => {
                write_timestamp(line, time.digits(), time.seconds(), time.microseconds())
            }
            Value::Json(bytes) => write_json(line, &mut self.text, bytes),
            _ => self.write_fixed(line, facts, value),
        }
    }

    /// Writes a value whose text is fixed; nothing for any other.
    #[inline(always)]
    fn write_fixed(
        &mut self,
        line: &mut Line,
        facts: &ColumnFacts<'_>,
        value: &Value<'_>,
    ) -> Result<(), AllocError>
        ensures { Adds result line.old line.new (value_tokens (facts_of facts.now) (meaning_of value.now) (content_of value.now)) }
    {
        let bytes = &mut self.bytes;
        match value {
            Value::Float(_)
            | Value::Double(_)
            | Value::Timestamp(_)
            | Value::Timestamp2(_)
            | Value::Json(_) => Ok(()),
            Value::Null => line.null(),
            Value::Integer(integer) => write_integer(line, facts.is_unsigned, integer),
            Value::Decimal(decimal) => write_decimal(line, *decimal),
            Value::Date(date) => write_date(line, date),
            Value::Year(year) => line.number(u64::from(year.year())),
            Value::Time(time) => write_time(line, time),
            Value::DateTime(time) => write_datetime(line, time),
            Value::DateTime2(time) => write_datetime2(line, time),
            Value::Time2(time) => write_time2(line, time),
            Value::Bit(bits) => line.number(bits.bits()),
            Value::Enum(index) => write_enum(line, facts.character_set, &facts.members, *index),
            Value::Set(mask) => {
                write_set(line, bytes, facts.character_set, &facts.members, *mask)
            }
            Value::Bytes(string) => write_string(line, bytes, facts, string),
            Value::Geometry(bytes) | Value::Vector(bytes) => line.bytes(bytes),
            Value::Compressed(bytes) => write_encoded(line, "stored", bytes),
        }
    }
}

/// Writes a decimal number. It is a call, and is passed a copy, so that no address of a value is taken where others are written.
#[inline(never)]
fn write_decimal(line: &mut Line, decimal: Decimal<'_>) -> Result<(), AllocError>
    ensures { Adds result line.old line.new (string (decimal_text decimal.entry.precision decimal.entry.scale decimal.entry.bytes.now) ∷ []) }
{
    let groups = decimal.groups();
    let parts = DecimalParts {
        is_negative: decimal.is_negative(),
        first: groups.first(),
        whole: groups.whole(),
        scale: decimal.scale(),
        part: groups.part(),
        last: groups.last(),
    };
    line.decimal(&parts)
}
