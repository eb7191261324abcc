//! The collations of the columns of a class.
use crate::default_charset::DefaultCharset;
use crate::numbers::Numbers;

/// The number of the collation of each column of a class, in one of the two forms of the optional metadata.
#[derive(Clone, Copy, Debug)]
pub(crate) enum Collations<'a> {
    /// One of all columns, and others of some of them.
    Default(DefaultCharset<'a>),
    /// One of each column.
    Each(Numbers<'a>),
}
