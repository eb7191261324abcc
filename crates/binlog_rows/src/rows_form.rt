//! The parts of each type of row event.

/// The parts that the row events of a type have.
#[derive(Clone, Copy, Debug, PartialEq, Eq, Hash)]
pub struct RowsForm {
    /// They have extra bytes, and are written with the extra-data length.
    pub has_extra: bool,
    /// They have a before-image, and its columns-present bitmap.
    pub has_before: bool,
    /// They have an after-image, and its columns-present bitmap.
    pub has_after: bool,
}
