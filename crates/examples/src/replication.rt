//! How to follow the events that a source sends, which come without a file header.
use binlog_file::{BinlogVersion, Error, Event, EventStreamReader, EventType, RotateEvent};
use std::alloc::Global;

/// A position in the logs of a source, from which its events can be requested again.
#[derive(Debug, PartialEq, Eq, Drop)]
pub struct Place {
    /// The name of the log.
    pub log: Vec<u8>,
    /// The position of the next event in it.
    pub position: u64,
}

/// The position after these events.
///
/// # Errors
///
/// Those of [`EventStreamReader::read`] and of reading a ROTATE event.
pub fn follow(alloc: Global, events: &[u8]) -> Result<Place, Error> {
    let mut reader = EventStreamReader::new(alloc, BinlogVersion::Version4);
    let mut place = Place {
        log: Vec::new(alloc),
        position: 0,
    };
    place.follow(alloc, &mut reader, events)?;
    Ok(place)
}

impl Place {
    // Moves to the position after all events.
    fn follow(
        &mut self,
        alloc: Global,
        reader: &mut EventStreamReader,
        events: &[u8],
    ) -> Result<(), Error> {
        let mut rest = events;
        // Bounded, so that the loop is proved to end.
        'events: for _ in 0..u64::MAX {
            let Some(event) = reader.read(&mut rest)? else {
                return Ok(());
            };
            self.go_behind(alloc, &event)?;
        }
        Ok(())
    }

    // Moves to the position after an event.
    fn go_behind(&mut self, alloc: Global, event: &Event<'static>) -> Result<(), Error> {
        let header = event.header();
        if let Ok(EventType::ROTATE_EVENT) = header.event_type() {
            return self.go_to(alloc, &event.read_event(alloc)?);
        }
        // Artificial events have log position 0.
        if header.log_pos() != 0 {
            self.position = u64::from(header.log_pos());
        }
        Ok(())
    }

    // Moves to the log that a ROTATE names.
    fn go_to(&mut self, alloc: Global, rotate: &RotateEvent<'_>) -> Result<(), Error> {
        self.log = Vec::from_slice(alloc, rotate.name_raw())?;
        self.position = rotate.position();
        Ok(())
    }
}
