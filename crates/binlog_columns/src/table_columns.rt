//! The columns of a table, in order.
ghost use Rattle.std.specs.Prelude.{◌≡◌, None, Some, Ok, MatchResult, [], length, map};
ghost use Rattle.std.specs.Iterator.{YieldsFirstBy};
ghost use Rattle.binlog_wire.specs.Reading.{Refuses};
ghost use Rattle.binlog_columns.specs.Columns.{typed_of};
ghost use Rattle.binlog_columns.specs.Metadata.{column};
ghost use Rattle.binlog_columns.specs.Refusals.{refusal, columns_in};

use crate::column::Column;
use crate::column_error::{ColumnError, ColumnErrorKind, kind_of};
use binlog_wire::{Error, ParseBuf};

/// The columns of a table, in order: an iterator over them. It borrows the types and the metadata of a table map, which it
/// reads again each time, or columns that were read before. It allocates nothing.
#[derive(Clone, Copy, Debug)]
pub struct TableColumns<'a> {
    /// Columns that were read before. Those of the types and the metadata follow.
    known: &'a [Column],
    types: &'a [u8],
    metadata: &'a [u8],
    ghost is_whole: { refusal 0 types.now metadata.now ≡ None },
}

impl<'a> TableColumns<'a> {
    ghost use Rattle.binlog_columns.specs.Columns.{typed_of};
    ghost use Rattle.binlog_columns.specs.TableColumns.{columns_of};

    /// The columns of these types, one byte each, with this metadata: the metadata of each column, from left to right.
    /// Each type determines the length of its metadata, and no bytes may be left after the last column's.
    ///
    /// # Errors
    ///
    /// The first fault, from left to right; its `kind` is:
    ///
    /// - [`ColumnErrorKind::BadType`] if a byte isn't the number of a column type.
    /// - [`ColumnErrorKind::Truncated`] if the bytes end within a column's metadata.
    /// - [`ColumnErrorKind::BadMetadata`] if a column's metadata isn't allowed for its type.
    /// - [`ColumnErrorKind::LeftOver`] if bytes are left after the last column's metadata.
    pub fn new(types: &'a [u8], metadata: &'a [u8]) -> Result<Self, ColumnError>
        ensures { MatchResult result
            (λ columns. (refusal 0 types.now metadata.now ≡ None) × (columns_of columns ≡ columns_in types.now metadata.now))
            (λ error. refusal 0 types.now metadata.now ≡ Some error) }
    {
        let mut rest = ParseBuf(metadata);
        for (index, number) in types.iter().enumerate() {
            if let Err(error) = Column::read(*number, &mut rest) {
                return Err(ColumnError {
                    kind: kind_of(error),
                    column: index as u64,
                });
            }
        }
        if !rest.is_empty() {
            return Err(ColumnError {
                kind: ColumnErrorKind::LeftOver,
                column: types.len() as u64,
            });
        }
        Ok(TableColumns {
            known: &[],
            types,
            metadata,
        })
    }

    /// These columns, which were read before. A table map's columns are read once this way, and not for each row:
    /// `columns.collect(alloc)?` of the columns of [`TableColumns::new`] keeps them.
    pub fn known(columns: &'a [Column]) -> Self
        ensures { columns_of result ≡ map typed_of columns.now }
    {
        TableColumns {
            known: columns,
            types: &[],
            metadata: &[],
        }
    }

    /// The number of columns that are left.
    #[tactic(auto, using(crate::specs::TableLaws::columns_are_counted))]
    pub fn num_columns(&self) -> usize
        ensures { result ≡ length (columns_of self.now) }
    {
        self.known.len() + self.types.len()
    }

    /// Reads the next column of the types and the metadata.
    #[inline(always)]
    fn read_next(&mut self) -> Option<Column>
        requires { self.old.known.now ≡ [] }
        ensures { YieldsFirstBy typed_of columns_of self.old result self.new }
    {
        let (number, types) = self.types.split_first()?;
        let Ok((column, metadata)) = read_column(*number, self.metadata) else {
            unreachable!()
        };
        *self = TableColumns {
            known: &[],
            types,
            metadata,
        };
        Some(column)
    }
}

/// Takes the metadata of a column from the start of these bytes, as [`Column::read`] does, and returns the bytes after it.
///
/// # Errors
///
/// Those of [`Column::read`].
// A call by value, so that what goes over columns that were read before is small, and has them in registers.
#[inline(never)]
fn read_column(number: u8, metadata: &[u8]) -> Result<(Column, &[u8]), Error>
    ensures { MatchResult result
        (λ first. (column number).reads metadata.now ≡ Ok (typed_of first.0, first.1.now))
        (λ error. Refuses ⊥ error ((column number).reads metadata.now)) }
{
    let mut rest = ParseBuf(metadata);
    let column = Column::read(number, &mut rest)?;
    Ok((column, rest.0))
}

/// The columns from left to right.
impl<'a> Iterator for TableColumns<'a> {
    type Item = Column;

    ghost use Rattle.std.specs.Iterator.{YieldsFirstBy, item_count};
    ghost use Rattle.binlog_columns.specs.Columns.{typed_of};
    ghost use Rattle.binlog_columns.specs.TableColumns.{columns_of};

    ghost next_gives = { YieldsFirstBy typed_of columns_of };

    ghost remaining = { item_count columns_of };

    #[inline(always)]
    fn next(&mut self) -> Option<Column> {
        let Some((column, known)) = self.known.split_first() else {
            return self.read_next();
        };
        self.known = known;
        Some(*column)
    }
}
