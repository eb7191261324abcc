//! Default collations.
ghost use Rattle.std.specs.Prelude.{◌≡◌};
ghost use Rattle.binlog_wire.specs.Reading.{Gives};
ghost use Rattle.binlog_optional_metadata.specs.Columns.{default_and_others};

use crate::indexed_numbers::IndexedNumbers;
use binlog_variable_fields::LenEnc;
use binlog_wire::{Error, IntRepr, ParseBuf};

/// The number of the collation of the columns of a class, and those of the columns that have another one.
#[derive(Clone, Copy, Debug)]
pub struct DefaultCharset<'a> {
    default_charset: u64,
    non_default: IndexedNumbers<'a>,
}

impl<'a> DefaultCharset<'a> {
    ghost use Rattle.binlog_optional_metadata.specs.DefaultCharsets.{answer_charsets};

    /// Takes the collations of this many columns, all of `buf`.
    pub(crate) fn read(columns: u64, buf: &mut ParseBuf<'a>) -> Result<Self, Error>
        ensures { Gives ⊥ buf.new (answer_charsets result) ((default_and_others columns).reads buf.old) }
    {
        let default_charset = LenEnc::read(buf)?;
        let non_default = IndexedNumbers::read(columns, buf)?;
        Ok(DefaultCharset {
            default_charset,
            non_default,
        })
    }

    /// The number of the collation of each column that `non_default` doesn't name.
    pub fn default_charset(&self) -> u64
        ensures { result ≡ self.now.default_charset }
    {
        self.default_charset
    }

    /// The columns that have another collation: the index of each in its class, and the number of its collation.
    pub fn non_default(&self) -> IndexedNumbers<'a>
        ensures { result ≡ self.now.non_default }
    {
        self.non_default
    }
}
