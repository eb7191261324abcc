//! A row event of any type.
ghost use Rattle.std.specs.Prelude.{◌≡◌, ◌<◌, ◌^◌, option_map, is_some, bit_and, IfOk, IsOkUnless};
ghost use Rattle.bitflags.specs.Sets.{known_bits};
ghost use Rattle.binlog_wire.specs.declared.error.Error.TheVariants.{Memory};
ghost use Rattle.binlog_consts.specs.Flags.{rows_event_flags};
ghost use Rattle.binlog_rows.specs.Images.{bitmap_of};
ghost use Rattle.binlog_rows.specs.Rows.{IsOfForm};
ghost use Rattle.binlog_rows.specs.RowsData.{event_in, form_in, data_written};

use crate::rows_event::RowsEvent;
use crate::rows_event_of::{
    DeleteRowsEvent, DeleteRowsEventV1, PartialUpdateRowsEvent, UpdateRowsEvent, UpdateRowsEventV1,
    WriteRowsEvent, WriteRowsEventV1,
};
use binlog_consts::RowsEventFlags;
use binlog_wire::{BitView, Error, IntoOwned, Put, TryClone};
use std::alloc::Global;

/// A row event of any type.
#[derive(Debug, PartialEq, Eq, Hash, Drop)]
pub enum RowsEventData<'a> {
    /// Inserted rows: WRITE_ROWS V1, type 23.
    WriteRowsEventV1(WriteRowsEventV1<'a>),
    /// Updated rows: UPDATE_ROWS V1, type 24.
    UpdateRowsEventV1(UpdateRowsEventV1<'a>),
    /// Deleted rows: DELETE_ROWS V1, type 25.
    DeleteRowsEventV1(DeleteRowsEventV1<'a>),
    /// Inserted rows: WRITE_ROWS, type 30.
    WriteRowsEvent(WriteRowsEvent<'a>),
    /// Updated rows: UPDATE_ROWS, type 31.
    UpdateRowsEvent(UpdateRowsEvent<'a>),
    /// Deleted rows: DELETE_ROWS, type 32.
    DeleteRowsEvent(DeleteRowsEvent<'a>),
    /// Updated rows: PARTIAL_UPDATE_ROWS, type 39. Some JSON columns may be logged as partial updates.
    PartialUpdateRowsEvent(PartialUpdateRowsEvent<'a>),
}

impl<'a> RowsEventData<'a> {
    /// The event, of whatever type.
    pub fn event(&self) -> &RowsEvent<'a>
        ensures same { result.now ≡ event_in self.now }
        ensures form { IsOfForm (form_in self.now) (event_in self.now) }
    {
        match self {
            RowsEventData::WriteRowsEventV1(event) => event.event(),
            RowsEventData::UpdateRowsEventV1(event) => event.event(),
            RowsEventData::DeleteRowsEventV1(event) => event.event(),
            RowsEventData::WriteRowsEvent(event) => event.event(),
            RowsEventData::UpdateRowsEvent(event) => event.event(),
            RowsEventData::DeleteRowsEvent(event) => event.event(),
            RowsEventData::PartialUpdateRowsEvent(event) => event.event(),
        }
    }

    /// The table id, below 2^48. The latest table map with this id describes the table.
    pub fn table_id(&self) -> u64
        ensures number { result ≡ (event_in self.now).head.table_id }
        ensures small { result < 2 ^ 48 }
    {
        self.event().table_id()
    }

    /// The number of the table's columns.
    pub fn num_columns(&self) -> u64
        ensures { result ≡ (event_in self.now).columns.count }
    {
        self.event().num_columns()
    }

    /// The columns that are present in the before-image; None for inserted rows, which have no before-image.
    pub fn columns_before_image(&self) -> Option<BitView<'_>>
        ensures image { option_map bitmap_of result ≡ (event_in self.now).columns.before }
        ensures there { is_some result ≡ (form_in self.now).has_before }
    {
        self.event().columns_before_image()
    }

    /// The columns that are present in the after-image; None for deleted rows, which have no after-image.
    pub fn columns_after_image(&self) -> Option<BitView<'_>>
        ensures image { option_map bitmap_of result ≡ (event_in self.now).columns.after }
        ensures there { is_some result ≡ (form_in self.now).has_after }
    {
        self.event().columns_after_image()
    }

    /// The encoded rows.
    pub fn rows_data(&self) -> &[u8]
        ensures { result.now ≡ (event_in self.now).rows }
    {
        self.event().rows_data()
    }

    /// The known flags.
    pub fn flags(&self) -> RowsEventFlags
        ensures { result.0 ≡ bit_and (event_in self.now).head.flags (known_bits rows_event_flags) }
    {
        self.event().flags()
    }
}

impl<'a> IntoOwned for RowsEventData<'a> {
    type Owned = RowsEventData<'static>;

    ghost is_owned = { λ value owned. owned ≡ value };

    fn into_owned(self, alloc: Global) -> Result<RowsEventData<'static>, Error> {
        Ok(match self {
            Self::WriteRowsEventV1(event) => {
                RowsEventData::WriteRowsEventV1(event.into_owned(alloc)?)
            }
            Self::UpdateRowsEventV1(event) => {
                RowsEventData::UpdateRowsEventV1(event.into_owned(alloc)?)
            }
            Self::DeleteRowsEventV1(event) => {
                RowsEventData::DeleteRowsEventV1(event.into_owned(alloc)?)
            }
            Self::WriteRowsEvent(event) => RowsEventData::WriteRowsEvent(event.into_owned(alloc)?),
            Self::UpdateRowsEvent(event) => {
                RowsEventData::UpdateRowsEvent(event.into_owned(alloc)?)
            }
            Self::DeleteRowsEvent(event) => {
                RowsEventData::DeleteRowsEvent(event.into_owned(alloc)?)
            }
            Self::PartialUpdateRowsEvent(event) => {
                RowsEventData::PartialUpdateRowsEvent(event.into_owned(alloc)?)
            }
        })
    }
}

impl<'a> TryClone for RowsEventData<'a> {
    fn clone(&self, alloc: Global) -> Result<Self, Error> {
        Ok(match self {
            Self::WriteRowsEventV1(event) => Self::WriteRowsEventV1(event.clone(alloc)?),
            Self::UpdateRowsEventV1(event) => Self::UpdateRowsEventV1(event.clone(alloc)?),
            Self::DeleteRowsEventV1(event) => Self::DeleteRowsEventV1(event.clone(alloc)?),
            Self::WriteRowsEvent(event) => Self::WriteRowsEvent(event.clone(alloc)?),
            Self::UpdateRowsEvent(event) => Self::UpdateRowsEvent(event.clone(alloc)?),
            Self::DeleteRowsEvent(event) => Self::DeleteRowsEvent(event.clone(alloc)?),
            Self::PartialUpdateRowsEvent(event) => {
                Self::PartialUpdateRowsEvent(event.clone(alloc)?)
            }
        })
    }
}

/// Writes the body as its type does.
impl Put for RowsEventData<'_> {
    ghost bytes = { data_written };

    fn check(&self) -> Result<(), Error> {
        Ok(())
    }

    #[tactic(auto, using(crate::specs::Laws::RowsWriting::rows_written_is))]
    fn written_len(&self) -> usize {
        self.event().written_len()
    }

    #[tactic(auto, using(crate::specs::Laws::RowsWriting::rows_written_is))]
    fn put(&self, buf: &mut Vec<u8>) {
        self.event().put(buf);
    }
}
