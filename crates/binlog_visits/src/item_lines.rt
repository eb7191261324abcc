//! The lines of the items of a log.
ghost use Rattle.std.specs.Prelude.{◌≡◌, ℕ, List, Result, Ok, Err, IfOk, IfErr};
ghost use Rattle.binlog_wire.specs.declared.error.Error.{Error};
ghost use Rattle.binlog_wire.specs.declared.error.Error.TheVariants.{Memory};
ghost use Rattle.binlog_file.specs.Events.{EventView};
ghost use Rattle.binlog_file.specs.EventRefs.{view_of};

use binlog_file::{Error, EventRef};
use std::alloc::Global;

/// Makes the line of an item, in a buffer of its own.
pub trait ItemLines {
    /// The line of the item with this index, its line feed included.
    ghost line: { ℕ → Result EventView Error → List ℕ };

    /// Making the line of this item may allocate.
    ghost takes: { Result EventView Error → Type 0 };

    /// The line of an event. The only error is [`Error::Memory`].
    fn event_line(
        &mut self,
        alloc: Global,
        index: u64,
        event: &EventRef<'_>,
    ) -> Result<&[u8], Error>
        ensures ok { IfOk result (λ text. text.now ≡ line index (Ok (view_of event.now))) }
        ensures memory { IfErr result (λ e. (e ≡ Memory) × takes (Ok (view_of event.now))) };

    /// The line of an error that is in the place of an event. The only error is [`Error::Memory`].
    fn error_line(&mut self, alloc: Global, index: u64, error: &Error) -> Result<&[u8], Error>
        ensures ok { IfOk result (λ text. text.now ≡ line index (Err error.now)) }
        ensures memory { IfErr result (λ e. (e ≡ Memory) × takes (Err error.now)) };
}
