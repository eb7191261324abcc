//! What is said of an event.
use crate::refusal::Refusal;

/// Where an event is among the transactions of its log.
#[derive(Clone, Copy, Debug, PartialEq, Eq, Hash)]
pub enum Place {
    /// In no transaction.
    Outside,
    /// A transaction begins with it and goes on.
    First,
    /// It is within a transaction.
    Within,
    /// A transaction ends with it.
    Last,
    /// A transaction begins and ends with it.
    Alone,
}

/// What is said of an event.
#[derive(Clone, Copy, Debug, PartialEq, Eq, Hash)]
pub struct Turn {
    /// Whether the transaction in front of the event ended without a last event: it is refused as [`Refusal::Unfinished`].
    pub cuts: bool,
    /// Where the event is.
    pub place: Place,
    /// Why its transaction can't be undone, if that is because of this event.
    pub refusal: Option<Refusal>,
}
