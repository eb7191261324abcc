//! Sums over the fields of the table maps and the row events of a log.
use binlog_file::{BitView, RowsEvent, TableMapEvent};

/// Sums over the table maps and the row events of a log, modulo 2^64.
#[derive(Clone, Copy, Default)]
pub(crate) struct RowSums {
    /// The number of table maps.
    maps: u64,
    /// The number of bytes in their names, their column types and their other column data.
    map_bytes: u64,
    /// The number of row events.
    row_events: u64,
    /// The number of bytes in their rows and extra data.
    row_bytes: u64,
    /// The integer fields of both; and for each column bitmap its number of bits, plus one if the first is set.
    numbers: u64,
}

impl RowSums {
    /// All sums, in order.
    pub(crate) fn numbers(&self) -> [u64; 5] {
        [
            self.maps,
            self.map_bytes,
            self.row_events,
            self.row_bytes,
            self.numbers,
        ]
    }

    #[inline(always)]
    pub(crate) fn count_map(&mut self, map: &TableMapEvent<'_>) {
        let bytes = map
            .database_name_raw()
            .len()
            .wrapping_add(map.table_name_raw().len())
            .wrapping_add(map.columns_type_raw().len())
            .wrapping_add(map.columns_metadata_raw().len())
            .wrapping_add(map.optional_metadata_raw().len());
        self.maps = self.maps.wrapping_add(1);
        self.map_bytes = self.map_bytes.wrapping_add(bytes as u64);
        self.numbers = self
            .numbers
            .wrapping_add(map.table_id())
            .wrapping_add(u64::from(map.flags_raw()))
            .wrapping_add(bits(map.null_bitmask()));
    }

    #[inline(always)]
    pub(crate) fn count_rows(&mut self, event: &RowsEvent<'_>) {
        let extra = event.extra_data().map_or(0, |extra| extra.len());
        let bytes = extra.wrapping_add(event.rows_data().len());
        self.row_events = self.row_events.wrapping_add(1);
        self.row_bytes = self.row_bytes.wrapping_add(bytes as u64);
        self.numbers = self
            .numbers
            .wrapping_add(event.table_id())
            .wrapping_add(u64::from(event.flags_raw()))
            .wrapping_add(event.num_columns())
            .wrapping_add(image(event.columns_before_image()))
            .wrapping_add(image(event.columns_after_image()));
    }
}

fn image(columns: Option<BitView<'_>>) -> u64 {
    match columns {
        Some(columns) => bits(columns),
        None => 0,
    }
}

// The number of bits, plus one if the first is set.
fn bits(view: BitView<'_>) -> u64 {
    view.len()
        .wrapping_add(u64::from(view.bit(0) == Some(true)))
}
