//! The object that has what is kept.
ghost use Rattle.std.specs.Prelude.{◌≡◌, true, false, is_some};
ghost use Rattle.binlog_json_lines.specs.contracts.lines.JsonLines.{the_row};
ghost use Rattle.binlog_line_cache.specs.Caches.{boxed_if};

use crate::box_parts::BoxParts;
use binlog_json_lines::JsonLines;
use std::alloc::Global;
use std::marker::Model;
use std::mem::replace;
use std::ptr::null_mut;

/// What the pointer of a [`BinlogCache`] points to, for C.
#[repr(C)]
pub struct Opaque {
    byte: u8,
}

/// What makes lines of JSON, with what it keeps from line to line, or nothing. C holds it between calls: zeros at first, which keep
/// nothing, and then what a call left.
#[repr(C)]
pub struct BinlogCache {
    at: *mut Opaque,
    /// Whether something is kept.
    pub is_kept: bool,
}

impl Model for BinlogCache {
    ghost also_owns = { λ cache. boxed_if the_row cache.is_kept cache.at };
}

unsafe impl Send for BinlogCache {}

impl BinlogCache {
    // Nothing is kept.
    fn empty() -> Self
        ensures { result.is_kept ≡ false }
    {
        BinlogCache {
            at: null_mut(),
            is_kept: false,
        }
    }

    // The box of these parts is kept.
    fn of_parts(parts: BoxParts<JsonLines, Global>) -> Self
        ensures { result.is_kept ≡ true }
    {
        let BoxParts { at, alloc: _ } = parts;
        BinlogCache {
            at: at as *mut Opaque,
            is_kept: true,
        }
    }

    // The parts of the box, if one is kept.
    fn into_parts(self, alloc: Global) -> Option<BoxParts<JsonLines, Global>>
        ensures { is_some result ≡ self.is_kept }
    {
        let BinlogCache { at, is_kept } = self;
        if is_kept {
            Some(BoxParts {
                at: at as *mut JsonLines,
                alloc,
            })
        } else {
            None
        }
    }

    /// Takes what is kept, if anything is. Nothing is kept then.
    pub fn take(&mut self, alloc: Global) -> Option<Box<JsonLines>>
        ensures came { is_some result ≡ self.old.is_kept }
        ensures left { self.new.is_kept ≡ false }
    {
        let kept = replace(self, BinlogCache::empty());
        match kept.into_parts(alloc) {
            Some(parts) => Some(parts.into_box()),
            None => None,
        }
    }

    /// Keeps these lines. What was kept before is freed.
    pub fn put(&mut self, alloc: Global, lines: Box<JsonLines>)
        ensures { self.new.is_kept ≡ true }
    {
        let before = replace(self, BinlogCache::of_parts(BoxParts::of(lines)));
        if let Some(parts) = before.into_parts(alloc) {
            drop(parts.into_box());
        }
    }

    /// Keeps these lines, if there is memory for it. What was kept before is freed then; else it stays kept.
    pub fn keep(&mut self, alloc: Global, lines: JsonLines)
        ensures { self.old.is_kept ≡ true → self.new.is_kept ≡ true }
    {
        if let Ok(kept) = Box::new(alloc, lines) {
            self.put(alloc, kept);
        }
    }
}
