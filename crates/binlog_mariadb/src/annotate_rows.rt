//! ANNOTATE_ROWS: the statement that the row events after it come from.
ghost use Rattle.std.specs.Prelude.{◌≡◌, IfOk, IsOkUnless, refl};
ghost use Rattle.std.specs.Cow.{cow_slice_items, cow_str_bytes};
ghost use Rattle.std.specs.Str.Lossy.{utf8_lossy};
ghost use Rattle.binlog_wire.specs.declared.error.Error.TheVariants.{Memory};
ghost use Rattle.binlog_mariadb.specs.AnnotateRows.{annotate_rows};

use crate::event_type::MariaEventType;
use crate::traits::MariaEvent;
use binlog_event_format::BinlogCtx;
use binlog_wire::{EofBytes, Error, IntoOwned, MyDeserialize, ParseBuf, Put, RawBytes, TryClone};
use std::alloc::Global;
use std::borrow::{CowSlice, CowStr};

/// The ANNOTATE_ROWS event (type 160): the statement that the row events after it come from.
///
/// Its body is the statement, to the end. Any body is accepted, an empty one too.
///
/// Source: "ANNOTATE_ROWS_EVENT" in MariaDB's documentation.
#[derive(Debug, PartialEq, Eq, Hash, Drop)]
pub struct AnnotateRowsEvent<'a> {
    query: RawBytes<'a, EofBytes>,
}

impl<'a> AnnotateRowsEvent<'a> {
    /// The event of this statement.
    pub fn new(query: CowSlice<'a, u8>) -> Self
        ensures { result ≡ record { query = cow_slice_items query.entry } }
    {
        let query = RawBytes::new(query);
        AnnotateRowsEvent { query }
    }

    /// The statement.
    pub fn query_raw(&self) -> &[u8]
        ensures { result.now ≡ self.now.query }
    {
        self.query.as_bytes()
    }

    /// The statement as UTF-8 text, with U+FFFD in place of each malformed sequence. The only error is
    /// [`Error::Memory`].
    pub fn query(&self, alloc: Global) -> Result<CowStr<'_, Global>, Error>
        ensures ok { IfOk result (λ text. cow_str_bytes text ≡ utf8_lossy self.now.query) }
        ensures memory { IsOkUnless result Memory }
    {
        self.query.as_str(alloc)
    }
}

impl<'a> IntoOwned for AnnotateRowsEvent<'a> {
    type Owned = AnnotateRowsEvent<'static>;

    ghost is_owned = { λ value owned. owned ≡ value };

    fn into_owned(self, alloc: Global) -> Result<AnnotateRowsEvent<'static>, Error> {
        let query = self.query.into_owned(alloc)?;
        Ok(AnnotateRowsEvent { query })
    }
}

impl<'a> TryClone for AnnotateRowsEvent<'a> {
    fn clone(&self, alloc: Global) -> Result<Self, Error> {
        let query = self.query.clone(alloc)?;
        Ok(AnnotateRowsEvent { query })
    }
}

/// Reading never fails.
impl<'de> MyDeserialize<'de> for AnnotateRowsEvent<'de> {
    const SIZE: Option<usize> = None;

    type Ctx = BinlogCtx<'de>;

    ghost reads = { λ _. annotate_rows.reads };

    fn deserialize(alloc: Global, _ctx: Self::Ctx, buf: &mut ParseBuf<'de>) -> Result<Self, Error> {
        let query = buf.parse(alloc, ())?;
        Ok(AnnotateRowsEvent { query })
    }
}

impl Put for AnnotateRowsEvent<'_> {
    ghost bytes = { annotate_rows.written };

    fn check(&self) -> Result<(), Error> {
        Ok(())
    }

    fn written_len(&self) -> usize {
        self.query.written_len()
    }

    fn put(&self, buf: &mut Vec<u8>) {
        self.query.put(buf);
    }
}

impl<'a> MariaEvent<'a> for AnnotateRowsEvent<'a> {
    const EVENT_TYPE: MariaEventType = MariaEventType::ANNOTATE_ROWS_EVENT;

    ghost format = { λ _ _. annotate_rows };

    ghost raw_type = { λ _. 160 };

    ghost reading = { λ _. refl };

    ghost writing = { λ _ _ _. refl };
}
