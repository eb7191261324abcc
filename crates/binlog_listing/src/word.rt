//! The last word of an event's line: whether its data can be read.
ghost use Rattle.std.specs.Prelude.{◌≡◌, ◌+◌, ◌≤◌, ◌++◌, length, drop, IfOk, IfErr};
ghost use Rattle.binlog_wire.specs.declared.error.Error.TheVariants.{Memory};
ghost use Rattle.binlog_events.specs.EventRefs.{view_of};
ghost use Rattle.binlog_listing.specs.Words.{word_text, word_of, TakesMemoryFor};

use crate::line::write_text;
use binlog_events::EventRef;
use binlog_wire::Error;
use std::alloc::Global;

/// Whether the data of an event can be read.
#[derive(Clone, Copy)]
pub(crate) enum Word {
    /// The data is a body of the event's type.
    Read,
    /// The event's type is unknown.
    Unknown,
    /// The data isn't a body of the event's type.
    Refused,
}

impl Word {
    /// The word of an event. The only error is [`Error::Memory`], only for GTIDs with a tag and previous GTIDs.
    #[inline(always)]
    pub(crate) fn of(alloc: Global, event: &EventRef<'_>) -> Result<Word, Error>
        ensures ok { IfOk result (λ word. word ≡ word_of (view_of event.now)) }
        ensures memory { IfErr result (λ e. (e ≡ Memory) × TakesMemoryFor (view_of event.now)) }
    {
        match event.check_data(alloc) {
            Ok(true) => Ok(Word::Read),
            Ok(false) => Ok(Word::Unknown),
            Err(error) => {
                if error.is_environment_error() {
                    return Err(error);
                }
                Ok(Word::Refused)
            }
        }
    }
}

/// Writes the word so that it ends at the index `end`, and returns the index where it starts.
#[inline(always)]
pub(crate) fn write_word(word: Word, bytes: &mut [u8], end: usize) -> usize
    requires { (7 ≤ end) × (end ≤ length bytes.old) }
    ensures start { result ≤ end }
    ensures room { end ≤ result + 7 }
    ensures written { drop result bytes.new ≡ word_text word ++ drop end bytes.old }
{
    match word {
        Word::Read => write_text("read", bytes, end),
        Word::Unknown => write_text("unknown", bytes, end),
        Word::Refused => write_text("refused", bytes, end),
    }
}
