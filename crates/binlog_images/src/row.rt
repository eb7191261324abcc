//! A row of a row event.
ghost use Rattle.std.specs.Prelude.{◌≡◌};

use crate::image::Image;

/// A row of a row event: what it was, what it is, or both. It borrows the bytes of the event, and takes no memory.
#[derive(Clone, Copy, Debug)]
pub struct Row<'a> {
    pub(crate) before: Option<Image<'a>>,
    pub(crate) after: Option<Image<'a>>,
}

impl<'a> Row<'a> {
    /// The row before it was updated or deleted; None for an inserted row.
    #[inline(always)]
    pub fn before(&self) -> Option<Image<'a>>
        ensures { result ≡ self.now.before }
    {
        self.before
    }

    /// The row after it was inserted or updated; None for a deleted row.
    #[inline(always)]
    pub fn after(&self) -> Option<Image<'a>>
        ensures { result ≡ self.now.after }
    {
        self.after
    }
}
