//! The parts of the text of a set.
use binlog_variable_fields::{GnoInterval, Tag};

/// A part of the text of a set, with the separator before it.
#[derive(Drop)]
pub enum Piece<'a> {
    /// `,` and the UUID of a source. The numbers after it have no tag.
    Source([u8; 16]),
    /// `:`, a tag with a `:` if the numbers from here on have another tag than those before, and an interval.
    Numbers(Option<Tag<'a>>, GnoInterval),
}

/// The source and the tag, or no tag, of the numbers that come next.
#[derive(Drop)]
pub struct Under<'a> {
    pub(crate) sid: [u8; 16],
    pub(crate) tag: Option<Tag<'a>>,
}
