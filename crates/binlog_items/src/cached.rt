//! The lines of JSON of items, by what lines before them left in an object that the caller holds.
ghost use Rattle.std.specs.Prelude.{◌≡◌, true, IfOk, IfErr};
ghost use Rattle.binlog_json_lines.specs.Options.{options_of};
ghost use Rattle.binlog_items.specs.ItemLines.{WritesItem, WritesItems, IsRefusal};

use crate::item::BinlogItem;
use crate::json::{WrittenLines, write_item_by, write_items_by};
use binlog_json_lines::{JsonLines, LineOptions};
use binlog_line_cache::BinlogCache;
use std::alloc::Global;

/// Writes the line of an item, as [`write_item`](crate::write_item) does, by what the cache keeps. It keeps what the next line may need,
/// if it kept something before or there is memory for it.
///
/// # Errors
///
/// Those of [`write_item`](crate::write_item).
pub fn write_item_cached(
    alloc: Global,
    log: &[u8],
    item: &BinlogItem,
    table_maps: &[BinlogItem],
    options: &LineOptions,
    index: u64,
    text: &mut [u8],
    cache: &mut BinlogCache,
) -> Result<usize, u8>
    ensures written { IfOk result (λ len. WritesItem (options_of options.now) log.now item.now table_maps.now index text.old text.new len) }
    ensures refused { IfErr result (λ number. IsRefusal log.now item.now table_maps.now number) }
    ensures same { IfErr result (λ _. text.new ≡ text.old) }
    ensures kept { cache.old.is_kept ≡ true → cache.new.is_kept ≡ true }
{
    match cache.take(alloc) {
        Some(mut lines) => {
            let written = write_item_by(
                &mut lines, alloc, log, item, table_maps, options, index, text,
            );
            cache.put(alloc, lines);
            written
        }
        None => {
            let mut lines = JsonLines::new(alloc);
            let written = write_item_by(
                &mut lines, alloc, log, item, table_maps, options, index, text,
            );
            cache.keep(alloc, lines);
            written
        }
    }
}

/// Writes the lines of the first items, as [`write_items`](crate::write_items) does, by what the cache keeps. It keeps what the next
/// lines may need, if it kept something before or there is memory for it.
///
/// # Errors
///
/// Those of [`write_items`](crate::write_items).
pub fn write_items_cached(
    alloc: Global,
    log: &[u8],
    items: &[BinlogItem],
    table_maps: &[BinlogItem],
    options: &LineOptions,
    index: u64,
    text: &mut [u8],
    cache: &mut BinlogCache,
) -> WrittenLines
    ensures written { WritesItems (options_of options.now) log.now items.now table_maps.now index text.old text.new result.count result.len result.error }
    ensures kept { cache.old.is_kept ≡ true → cache.new.is_kept ≡ true }
{
    match cache.take(alloc) {
        Some(mut lines) => {
            let written = write_items_by(
                &mut lines, alloc, log, items, table_maps, options, index, text,
            );
            cache.put(alloc, lines);
            written
        }
        None => {
            let mut lines = JsonLines::new(alloc);
            let written = write_items_by(
                &mut lines, alloc, log, items, table_maps, options, index, text,
            );
            cache.keep(alloc, lines);
            written
        }
    }
}
