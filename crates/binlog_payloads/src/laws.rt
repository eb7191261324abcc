//! Laws of the definitions. Each is a function that does nothing and whose contract states the law.
ghost use Rattle.std.specs.Prelude.{◌≡◌, ◌↔◌, ℕ, List, map, Result, Ok, false};
ghost use Rattle.binlog_wire.specs.Fields.{IsBytes};
ghost use Rattle.binlog_payloads.specs.Fields.{IsPayloadEvent, Payload, payload_event};
ghost use Rattle.binlog_payloads.specs.Writing.{Fits, written};
ghost use Rattle.binlog_event_format.specs.declared.format_description.FormatDescriptionEvent.{FormatDescriptionEvent};
ghost use Rattle.binlog_events.specs.Events.{EventView};
ghost use Rattle.binlog_events.specs.declared.event_ref.EventRef.{EventRef};
ghost use Rattle.binlog_payloads.specs.InnerEvents.{AreInnerItems, IsContentSplit, PayloadGivesAll, inner_item, reader_fde};
ghost use Rattle.binlog_payloads.specs.declared.error.PayloadError.{PayloadError};
ghost use Rattle.binlog_payloads.specs.declared.inner.TransactionPayloadReader.{TransactionPayloadReader};

/// Bytes are read as an event exactly if they are the data of one that says this: fields in any order, known ones once, and then the
/// payload.
pub fn data_are_read()
    ensures { (bytes : List ℕ) (event : Payload) → IsBytes bytes → (payload_event bytes ≡ Ok event) ↔ IsPayloadEvent bytes event }
{}

/// What is written of an event are its data, and is read back as this event.
pub fn what_is_written_is_read()
    ensures spelled { (event : Payload) → Fits event → IsPayloadEvent (written event) event }
    ensures read { (event : Payload) → Fits event → payload_event (written event) ≡ Ok event }
{}

/// Each content has a split, and only one.
pub fn contents_are_split()
    ensures some { (content : List ℕ) → (frames : List (List ℕ)) × (tail : List ℕ) × IsContentSplit content frames tail }
    ensures one { (content : List ℕ) (frames others : List (List ℕ)) (tail end : List ℕ) → IsContentSplit content frames tail
        → IsContentSplit content others end → (frames ≡ others) × (tail ≡ end) }
{}

/// What a reader gives up to the first None are the items of its content, and a content has one list of items.
pub fn all_events_are_given()
    ensures all { (reader end : TransactionPayloadReader) (items : List (Result EventRef PayloadError)) → reader.is_ended ≡ false
        → PayloadGivesAll reader items end → AreInnerItems (reader_fde reader) reader.rest.now (map inner_item items) }
    ensures one { (fde : FormatDescriptionEvent) (content : List ℕ) (items others : List (Result EventView PayloadError)) → AreInnerItems fde content items
        → AreInnerItems fde content others → items ≡ others }
{}
