//! Where the items of a file begin.
ghost use Rattle.std.specs.Prelude.{◌≡◌, Some};
ghost use Rattle.binlog_file.specs.EventRefs.{view_of};
ghost use Rattle.binlog_filters.specs.Places.{start_of, behind_event};

use binlog_file::{BinlogFileHeader, EventRef};

/// Where the next item of a file begins.
#[derive(Clone, Copy, Debug, PartialEq, Eq)]
pub struct Place {
    /// The number of bytes of the file before the item, if it is known: how long a damaged event is isn't known.
    pub position: Option<u64>,
}

impl Place {
    /// Behind the file header.
    pub fn first() -> Place
        ensures { result ≡ record { position = Some 4 } }
    {
        Place {
            position: Some(BinlogFileHeader::LEN as u64),
        }
    }

    /// Where this event begins, if it is the next item. If the position isn't known, it is what the header states: its
    /// log position less its size.
    pub fn of_event(&self, event: &EventRef<'_>) -> Option<u64>
        ensures { result ≡ start_of self.now.position (view_of event.now) }
    {
        match self.position {
            Some(position) => Some(position),
            None => {
                let header = event.header();
                header
                    .log_pos()
                    .checked_sub(header.event_size())
                    .map(u64::from)
            }
        }
    }

    /// The place behind this event, if it is the next item.
    pub fn behind_event(&self, event: &EventRef<'_>) -> Place
        ensures { result.position ≡ behind_event self.now.position (view_of event.now) }
    {
        let size = event.frame().len() as u64;
        let position = match self.of_event(event) {
            Some(start) => start.checked_add(size),
            None => None,
        };
        Place { position }
    }

    /// The place behind a damaged event.
    pub fn behind_error() -> Place
        ensures { result.position ≡ None }
    {
        Place { position: None }
    }
}
