//! The columns of table maps.
ghost use Rattle.std.specs.Prelude.{◌≡◌, ℕ, List, None, Some, MatchResult};
ghost use Rattle.binlog_columns.specs.Refusals.{refusal, columns_in};
ghost use Rattle.binlog_columns.specs.TableColumns.{columns_of};
ghost use Rattle.binlog_optional_metadata.specs.Counts.{counts_of};

use crate::optional_metadata::OptionalMetadata;
use binlog_columns::{ColumnError, TableColumns};
use binlog_rows::TableMapEvent;

/// Table maps, whose columns are read from their bytes.
pub trait TableMapColumns {
    ghost types: { Self → List ℕ };

    ghost metadata: { Self → List ℕ };

    ghost optional: { Self → List ℕ };

    /// The columns of the table.
    ///
    /// # Errors
    ///
    /// That of [`TableColumns::new`].
    fn table_columns(&self) -> Result<TableColumns<'_>, ColumnError>
        ensures { MatchResult result
            (λ columns. (refusal 0 (types self.now) (metadata self.now) ≡ None) × (columns_of columns ≡ columns_in (types self.now) (metadata self.now)))
            (λ error. refusal 0 (types self.now) (metadata self.now) ≡ Some error) };

    /// The fields of the optional metadata. Which columns have a collation depends on the server that wrote the log
    /// ([`ColumnClass::character`](crate::ColumnClass::character)).
    ///
    /// # Errors
    ///
    /// That of [`TableColumns::new`], since the contents of fields depend on the columns.
    fn optional_metadata(&self, is_maria_log: bool) -> Result<OptionalMetadata<'_>, ColumnError>
        ensures { MatchResult result
            (λ fields. (fields.counts ≡ counts_of is_maria_log (columns_in (types self.now) (metadata self.now))) × (fields.rest.now ≡ optional self.now))
            (λ error. refusal 0 (types self.now) (metadata self.now) ≡ Some error) };
}

impl TableMapColumns for TableMapEvent<'_> {
    ghost types = { λ table_map. table_map.columns.types };

    ghost metadata = { λ table_map. table_map.columns.metadata };

    ghost optional = { λ table_map. table_map.columns.optional_metadata };

    fn table_columns(&self) -> Result<TableColumns<'_>, ColumnError> {
        TableColumns::new(self.columns_type_raw(), self.columns_metadata_raw())
    }

    fn optional_metadata(&self, is_maria_log: bool) -> Result<OptionalMetadata<'_>, ColumnError> {
        match self.table_columns() {
            Ok(columns) => {
                let bytes = self.optional_metadata_raw();
                Ok(OptionalMetadata::new(columns, bytes, is_maria_log))
            }
            Err(error) => Err(error),
        }
    }
}
