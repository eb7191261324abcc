//! The errors of reading and writing.
ghost use Rattle.std.specs.Prelude.{◌≡◌};

use std::alloc::AllocError;
use thiserror::Error;

/// The value of a field, or of fields read as one unit, that is complete in the input and isn't allowed.
#[derive(Clone, Copy, Debug, PartialEq, Eq, Hash)]
pub enum Invalid {
    /// A binlog version other than 1 to 4.
    BinlogVersion(u16),
    /// An event header length other than 19 in a format description.
    HeaderLength(u8),
    /// A length-encoded integer whose first byte is `fb` or `ff`.
    LenEnc(u8),
    /// An INTVAR subtype above 2.
    Subtype(u8),
    /// A duplicate-key handling of an EXECUTE_LOAD_QUERY event above 2.
    DupHandling(u8),
    /// A serialization version of a GTID_TAGGED_LOG event other than 2.
    SerializationVersion(u8),
    /// A payload size that ends before the fields begin.
    PayloadSize(u64),
    /// The field with this id has a value out of its range.
    FieldRange(u64),
    /// The field with this id has a negative value.
    Negative(u64),
    /// The field with this id is unknown, and its id is not above the last one that may not be ignored.
    UnknownField(u64),
    /// A tag that isn't 1 to 32 ASCII letters, digits and `_`, or that begins with a digit.
    Tag,
    /// A GTID_TAGGED_LOG event without a tag.
    MissingTag,
}

/// The field whose value doesn't fit its encoding.
#[derive(Clone, Copy, Debug, PartialEq, Eq, Hash)]
pub enum Field {
    /// The transaction's number within its source (GNO).
    Gno,
    /// `last_committed`: the logical timestamp of the last commit that the transaction depends on.
    LastCommitted,
    /// `sequence_number`: the logical timestamp of the transaction's own commit.
    SequenceNumber,
    /// The commit timestamp on the immediate server.
    ImmediateCommitTimestamp,
    /// The commit timestamp on the original server.
    OriginalCommitTimestamp,
    /// The version of the immediate server.
    ImmediateServerVersion,
    /// The tag of a GTID.
    Tag,
    /// The list of GTID sets of a PREVIOUS_GTIDS event.
    Sids,
}

/// Why a call failed.
///
/// Each error has a number, [`Error::number`], which a listing prints after an `E`.
#[derive(Clone, Copy, Debug, PartialEq, Eq, Error)]
pub enum Error {
    /// The input ends within the file header or within a frame.
    #[error("the input ends within a file header or an event")]
    EndOfInput,
    /// The first four bytes of a file aren't `fe 62 69 6e`.
    #[error("the file does not begin as a binlog")]
    InvalidFileHeader,
    /// An event header states this event size, which is below the header's own 19 bytes.
    #[error("an event states the size {0}, and its header alone takes 19 bytes")]
    EventSizeTooSmall(u32),
    /// The body has fewer bytes than the checksum that is due.
    #[error("an event is too short for its checksum")]
    TooShortForChecksum,
    /// A body ends within a unit.
    #[error("an event's body ends within a field")]
    EndOfBody,
    /// A unit of a body is complete, and its value isn't allowed.
    #[error("an event's body has a value that is not allowed: {0:?}")]
    InvalidData(Invalid),
    /// A body was read, and this many bytes are left after it.
    #[error("{0} bytes are left after an event's body")]
    RemainingBytes(usize),
    /// A GTID was asked for under this raw event type, which isn't a GTID event's.
    #[error("an event of type {0} holds no GTID")]
    WrongEventType(u8),
    /// An event was to be written under this unknown checksum algorithm.
    #[error("the checksum algorithm {0} is not known")]
    UnknownChecksumAlg(u8),
    /// An event of more than 4,294,967,276 bytes was to be written.
    #[error("an event is too long to be written")]
    EventTooLong,
    /// A value to be written doesn't fit its encoding.
    #[error("the value of {0:?} can not be written")]
    Unwritable(Field),
    /// An allocation failed; a frame that was being read has been taken whole from the input.
    #[error("out of memory")]
    Memory,
    /// An allocation failed within a frame.
    #[error("out of memory within an event")]
    FrameMemory,
    /// The reader failed in the file header or before the first byte of a frame.
    #[error("the reader failed between events")]
    Reader,
    /// The reader failed within a frame.
    #[error("the reader failed within an event")]
    ReaderInFrame,
    /// The writer failed, and it isn't known how much was written.
    #[error("the writer failed")]
    Writer,
    /// The stored checksum of an event isn't the computed one. Only reading that verifies checksums gives it. Both
    /// are numbers of four little-endian bytes; the text shows these bytes in their order.
    #[error("checksum mismatch: stored {:08x}, computed {:08x}", .stored.swap_bytes(), .computed.swap_bytes())]
    ChecksumMismatch {
        /// The checksum that the event stores.
        stored: u32,
        /// The checksum of the event's bytes.
        computed: u32,
    },
    /// This transaction number (GNO) isn't in 1 to 2^63 - 1, so that no set of GTIDs holds it.
    #[error("the transaction number {0} is not in 1 to 9223372036854775807")]
    BadGno(u64),
}

impl Error {
    ghost use Rattle.binlog_wire.specs.Errors.{error_number, is_within_frame, is_environment_error};

    /// The number of the error, 1 to 18, as listings print it.
    pub fn number(&self) -> u8
        ensures { result ≡ error_number self.now }
    {
        match self {
            Error::EndOfInput => 1,
            Error::InvalidFileHeader => 2,
            Error::EventSizeTooSmall(_) => 3,
            Error::TooShortForChecksum => 4,
            Error::EndOfBody => 5,
            Error::InvalidData(_) => 6,
            Error::RemainingBytes(_) => 7,
            Error::WrongEventType(_) => 8,
            Error::UnknownChecksumAlg(_) => 9,
            Error::EventTooLong => 10,
            Error::Unwritable(_) => 11,
            Error::Memory => 12,
            Error::FrameMemory => 13,
            Error::Reader => 14,
            Error::ReaderInFrame => 15,
            Error::Writer => 16,
            Error::ChecksumMismatch { .. } => 17,
            Error::BadGno(_) => 18,
        }
    }

    /// Whether the input is left within a frame, so that no later frame can be found: true of [`Error::EndOfInput`],
    /// [`Error::EventSizeTooSmall`], [`Error::FrameMemory`] and [`Error::ReaderInFrame`] alone.
    pub fn within_frame(&self) -> bool
        ensures { result ≡ is_within_frame self.now }
    {
        matches!(
            self,
            Error::EndOfInput
                | Error::EventSizeTooSmall(_)
                | Error::FrameMemory
                | Error::ReaderInFrame
        )
    }

    /// Whether an allocation, a reader or a writer failed, and the bytes or the value aren't at fault: true of
    /// [`Error::Memory`], [`Error::FrameMemory`], [`Error::Reader`], [`Error::ReaderInFrame`] and [`Error::Writer`]
    /// alone.
    pub fn is_environment_error(&self) -> bool
        ensures { result ≡ is_environment_error self.now }
    {
        matches!(
            self,
            Error::Memory
                | Error::FrameMemory
                | Error::Reader
                | Error::ReaderInFrame
                | Error::Writer
        )
    }
}

/// A failed allocation is [`Error::Memory`].
impl From<AllocError> for Error {
    ghost use Rattle.binlog_wire.specs.declared.error.Error.TheVariants.{Memory};

    ghost from_gives = { λ _ error. error ≡ Memory };

    fn from(_: AllocError) -> Error {
        Error::Memory
    }
}
