//! EXECUTE_LOAD_QUERY_EVENT: a `LOAD DATA` statement.
ghost use Rattle.std.specs.Prelude.{◌≡◌, [], take, IfOk, IsOkUnless};
ghost use Rattle.std.specs.Cow.{cow_slice_items, cow_str_bytes};
ghost use Rattle.std.specs.Str.Lossy.{utf8_lossy};
ghost use Rattle.binlog_wire.specs.declared.error.Error.TheVariants.{Memory};
ghost use Rattle.binlog_wire.specs.Reading.{Gives};

use crate::statement::{Statement, StatementHead, StatementTexts};
use crate::status_vars::StatusVars;
use binlog_consts::{EventType, LoadDuplicateHandling};
use binlog_event_format::{BinlogCtx, BinlogEvent};
use binlog_wire::{
    Constant, Error, IntRepr, IntoOwned, LeU32, MyDeserialize, ParseBuf, Put, TryClone,
};
use std::alloc::Global;
use std::borrow::{CowSlice, CowStr};

/// The length of the post-header in bytes.
const LOAD_HEAD_LEN: usize = 26;

/// The post-header of an EXECUTE_LOAD_QUERY event.
#[derive(Clone, Copy, Debug, PartialEq, Eq, Hash)]
pub struct LoadHead {
    statement: StatementHead,
    file_id: u32,
    start_pos: u32,
    end_pos: u32,
    dup_handling: LoadDuplicateHandling,
}

impl LoadHead {
    ghost use Rattle.binlog_statements.specs.ExecuteLoadQuery.{load_head};

    /// Reads a post-header from the start of `buf`, as `deserialize` does.
    ///
    /// # Errors
    ///
    /// - [`Error::EndOfBody`] if fewer than 26 bytes are left.
    /// - [`Error::InvalidData`] if the last of them, the duplicate handling, is above 2.
    #[inline(always)]
    fn read(buf: &mut ParseBuf<'_>) -> Result<Self, Error>
        ensures { Gives ⊥ buf.new result (load_head.reads buf.old) }
    {
        if buf.len() < LOAD_HEAD_LEN {
            return Err(Error::EndOfBody);
        }
        let statement = StatementHead::read(buf)?;
        let file_id = LeU32::read(buf)?;
        let start_pos = LeU32::read(buf)?;
        let end_pos = LeU32::read(buf)?;
        let number = u8::read(buf)?;
        let dup_handling = LoadDuplicateHandling::from_number(number).map_err(Error::InvalidData)?;
        Ok(LoadHead {
            statement,
            file_id,
            start_pos,
            end_pos,
            dup_handling,
        })
    }
}

/// # Errors
///
/// - [`Error::EndOfBody`] if fewer than 26 bytes are left.
/// - [`Error::InvalidData`] if the last of them, the duplicate handling, is above 2.
impl<'de> MyDeserialize<'de> for LoadHead {
    ghost use Rattle.std.specs.Prelude.{Some};
    ghost use Rattle.binlog_statements.specs.ExecuteLoadQuery.{load_head};

    const SIZE: Option<usize> = Some(26);

    type Ctx = ();

    ghost reads = { λ _. load_head.reads };

    ghost size = { Some 26 };

    fn deserialize(_alloc: Global, _ctx: (), buf: &mut ParseBuf<'de>) -> Result<Self, Error> {
        LoadHead::read(buf)
    }
}

impl Put for LoadHead {
    ghost use Rattle.binlog_statements.specs.ExecuteLoadQuery.{load_head};

    ghost bytes = { load_head.written };

    fn check(&self) -> Result<(), Error> {
        Ok(())
    }

    fn written_len(&self) -> usize {
        LOAD_HEAD_LEN
    }

    #[tactic(auto, using(std::proofs::Common::append_assoc))]
    fn put(&self, buf: &mut Vec<u8>) {
        self.statement.put(buf);
        LeU32::put(self.file_id, buf);
        LeU32::put(self.start_pos, buf);
        LeU32::put(self.end_pos, buf);
        u8::put(u8::from(self.dup_handling), buf);
    }
}

/// An EXECUTE_LOAD_QUERY event, type 18: a `LOAD DATA` statement that ran on the source. The blocks of its file come
/// in events before it.
///
/// The post-header has 26 bytes: the 13 bytes of a query's post-header, the file id (4), the start and the end position
/// of the statement's file name part (4 each), and the duplicate handling (1). The body follows: status variables,
/// schema name, one reserved byte, and the statement, to the end. All numbers are little-endian.
///
/// Source: MySQL's internals documentation, "EXECUTE_LOAD_QUERY_EVENT".
#[derive(Debug, PartialEq, Eq, Hash, Drop)]
pub struct ExecuteLoadQueryEvent<'a> {
    statement: Statement<'a>,
    file_id: u32,
    start_pos: u32,
    end_pos: u32,
    dup_handling: LoadDuplicateHandling,
}

impl<'a> ExecuteLoadQueryEvent<'a> {
    ghost use Rattle.binlog_statements.specs.ExecuteLoadQuery.{execute_load_query};
    ghost use Rattle.binlog_statements.specs.Statements.{new_statement, with_status_vars, with_schema, with_query};

    /// Reads an event from the start of `buf`, as `deserialize` does. Needs no allocator.
    ///
    /// # Errors
    ///
    /// - [`Error::EndOfBody`] if the bytes end before the statement.
    /// - [`Error::InvalidData`] if the duplicate handling is above 2.
    #[inline(always)]
    pub fn read(buf: &mut ParseBuf<'a>) -> Result<Self, Error>
        ensures { Gives ⊥ buf.new result (execute_load_query.reads buf.old) }
    {
        let head = LoadHead::read(buf)?;
        let texts = StatementTexts::read(head.statement, buf)?;
        Ok(ExecuteLoadQueryEvent {
            statement: Statement::with_head(head.statement, texts),
            file_id: head.file_id,
            start_pos: head.start_pos,
            end_pos: head.end_pos,
            dup_handling: head.dup_handling,
        })
    }

    /// An event with an empty statement; all numbers not passed here are 0. Only the first 65,535 bytes of
    /// `status_vars` and the first 255 bytes of `schema` are used.
    pub fn new(
        file_id: u32,
        dup_handling: LoadDuplicateHandling,
        status_vars: CowSlice<'a, u8>,
        schema: CowSlice<'a, u8>,
    ) -> Self
        ensures { result ≡ record {
          statement = new_statement (cow_slice_items status_vars.entry) (cow_slice_items schema.entry);
          file_id = file_id;
          start_pos = 0;
          end_pos = 0;
          dup_handling = dup_handling;
        } }
    {
        ExecuteLoadQueryEvent {
            statement: Statement::new(status_vars, schema),
            file_id,
            start_pos: 0,
            end_pos: 0,
            dup_handling,
        }
    }

    /// Sets the file id.
    pub fn with_file_id(mut self, file_id: u32) -> Self
        ensures { result ≡ record self.entry { file_id = file_id } }
    {
        self.file_id = file_id;
        self
    }

    /// Sets the start position, in bytes, of the statement's file name part, which replicas substitute.
    pub fn with_start_pos(mut self, start_pos: u32) -> Self
        ensures { result ≡ record self.entry { start_pos = start_pos } }
    {
        self.start_pos = start_pos;
        self
    }

    /// Sets the end position, in bytes, of the statement's file name part: the position after its last byte.
    pub fn with_end_pos(mut self, end_pos: u32) -> Self
        ensures { result ≡ record self.entry { end_pos = end_pos } }
    {
        self.end_pos = end_pos;
        self
    }

    /// Sets the duplicate handling.
    pub fn with_dup_handling(mut self, dup_handling: LoadDuplicateHandling) -> Self
        ensures { result ≡ record self.entry { dup_handling = dup_handling } }
    {
        self.dup_handling = dup_handling;
        self
    }

    /// The file id. The events with the file's blocks have the same one.
    pub fn file_id(&self) -> u32
        ensures { result ≡ self.now.file_id }
    {
        self.file_id
    }

    /// The start position, in bytes, of the statement's file name part, which replicas substitute.
    pub fn start_pos(&self) -> u32
        ensures { result ≡ self.now.start_pos }
    {
        self.start_pos
    }

    /// The end position, in bytes, of the statement's file name part: the position after its last byte.
    pub fn end_pos(&self) -> u32
        ensures { result ≡ self.now.end_pos }
    {
        self.end_pos
    }

    /// What happens to a row whose key exists already.
    pub fn dup_handling(&self) -> LoadDuplicateHandling
        ensures { result ≡ self.now.dup_handling }
    {
        self.dup_handling
    }

    /// Sets the id of the thread that ran the statement.
    pub fn with_thread_id(mut self, thread_id: u32) -> Self
        ensures { result ≡ record self.entry { statement = record self.entry.statement { thread_id = thread_id } } }
    {
        self.statement.thread_id = thread_id;
        self
    }

    /// Sets the execution time: seconds from the start of the statement until it was logged.
    pub fn with_execution_time(mut self, execution_time: u32) -> Self
        ensures { result ≡ record self.entry { statement = record self.entry.statement { execution_time = execution_time } } }
    {
        self.statement.execution_time = execution_time;
        self
    }

    /// Sets the error code that the statement returned on the source.
    pub fn with_error_code(mut self, error_code: u16) -> Self
        ensures { result ≡ record self.entry { statement = record self.entry.statement { error_code = error_code } } }
    {
        self.statement.error_code = error_code;
        self
    }

    /// Sets the encoded status variables. Only the first 65,535 bytes are used.
    pub fn with_status_vars(mut self, status_vars: CowSlice<'a, u8>) -> Self
        ensures { result ≡ record self.entry { statement = with_status_vars self.entry.statement (cow_slice_items status_vars.entry) } }
    {
        self.statement = self.statement.with_status_vars(status_vars);
        self
    }

    /// Sets the schema name. Only the first 255 bytes are used.
    pub fn with_schema(mut self, schema: CowSlice<'a, u8>) -> Self
        ensures { result ≡ record self.entry { statement = with_schema self.entry.statement (cow_slice_items schema.entry) } }
    {
        self.statement = self.statement.with_schema(schema);
        self
    }

    /// Sets the statement.
    pub fn with_query(mut self, query: CowSlice<'a, u8>) -> Self
        ensures { result ≡ record self.entry { statement = with_query self.entry.statement (cow_slice_items query.entry) } }
    {
        self.statement = self.statement.with_query(query);
        self
    }

    /// The id of the thread that ran the statement. Replicas use it to tell temporary tables apart.
    pub fn thread_id(&self) -> u32
        ensures { result ≡ self.now.statement.thread_id }
    {
        self.statement.thread_id
    }

    /// The execution time: seconds from the start of the statement until it was logged.
    pub fn execution_time(&self) -> u32
        ensures { result ≡ self.now.statement.execution_time }
    {
        self.statement.execution_time
    }

    /// The error code that the statement returned on the source; 0 if none.
    pub fn error_code(&self) -> u16
        ensures { result ≡ self.now.statement.error_code }
    {
        self.statement.error_code
    }

    /// The status variables: the session's settings that the statement depended on.
    pub fn status_vars(&self) -> &StatusVars<'a>
        ensures { result.now ≡ self.now.statement.texts.status_vars }
    {
        &self.statement.texts.status_vars
    }

    /// The encoded status variables: at most 65,535 bytes.
    pub fn status_vars_raw(&self) -> &[u8]
        ensures { result.now ≡ take 65535 self.now.statement.texts.status_vars.0 }
    {
        self.statement.texts.status_vars.0.as_bytes()
    }

    /// The name of the default schema: at most 255 bytes.
    pub fn schema_raw(&self) -> &[u8]
        ensures { result.now ≡ take 255 self.now.statement.texts.schema }
    {
        self.statement.texts.schema.as_bytes()
    }

    /// [`ExecuteLoadQueryEvent::schema_raw`] as UTF-8, with U+FFFD for invalid sequences. The only error is
    /// [`Error::Memory`].
    pub fn schema(&self, alloc: Global) -> Result<CowStr<'_, Global>, Error>
        ensures ok { IfOk result (λ text. cow_str_bytes text ≡ utf8_lossy (take 255 self.now.statement.texts.schema)) }
        ensures memory { IsOkUnless result Memory }
    {
        self.statement.texts.schema.as_str(alloc)
    }

    /// The statement's bytes.
    pub fn query_raw(&self) -> &[u8]
        ensures { result.now ≡ self.now.statement.texts.query }
    {
        self.statement.texts.query.as_bytes()
    }

    /// The statement as UTF-8, with U+FFFD for invalid sequences. The only error is [`Error::Memory`].
    pub fn query(&self, alloc: Global) -> Result<CowStr<'_, Global>, Error>
        ensures ok { IfOk result (λ text. cow_str_bytes text ≡ utf8_lossy self.now.statement.texts.query) }
        ensures memory { IsOkUnless result Memory }
    {
        self.statement.texts.query.as_str(alloc)
    }
}

impl<'a> IntoOwned for ExecuteLoadQueryEvent<'a> {
    type Owned = ExecuteLoadQueryEvent<'static>;

    ghost is_owned = { λ value owned. owned ≡ value };

    fn into_owned(self, alloc: Global) -> Result<ExecuteLoadQueryEvent<'static>, Error> {
        let statement = self.statement.into_owned(alloc)?;
        Ok(ExecuteLoadQueryEvent {
            statement,
            file_id: self.file_id,
            start_pos: self.start_pos,
            end_pos: self.end_pos,
            dup_handling: self.dup_handling,
        })
    }
}

impl<'a> TryClone for ExecuteLoadQueryEvent<'a> {
    fn clone(&self, alloc: Global) -> Result<Self, Error> {
        let statement = self.statement.clone(alloc)?;
        Ok(ExecuteLoadQueryEvent {
            statement,
            file_id: self.file_id,
            start_pos: self.start_pos,
            end_pos: self.end_pos,
            dup_handling: self.dup_handling,
        })
    }
}

/// # Errors
///
/// - [`Error::EndOfBody`] if the bytes end before the statement.
/// - [`Error::InvalidData`] if the duplicate handling is above 2.
impl<'de> MyDeserialize<'de> for ExecuteLoadQueryEvent<'de> {
    ghost use Rattle.binlog_statements.specs.ExecuteLoadQuery.{execute_load_query};

    const SIZE: Option<usize> = None;

    type Ctx = BinlogCtx<'de>;

    ghost reads = { λ _. execute_load_query.reads };

    fn deserialize(
        _alloc: Global,
        _ctx: BinlogCtx<'de>,
        buf: &mut ParseBuf<'de>,
    ) -> Result<Self, Error> {
        ExecuteLoadQueryEvent::read(buf)
    }
}

impl ExecuteLoadQueryEvent<'_> {
    ghost use Rattle.binlog_statements.specs.ExecuteLoadQuery.{load_head_of};

    fn head(&self) -> LoadHead
        ensures { result ≡ load_head_of self.now }
    {
        LoadHead {
            statement: self.statement.head(),
            file_id: self.file_id,
            start_pos: self.start_pos,
            end_pos: self.end_pos,
            dup_handling: self.dup_handling,
        }
    }
}

impl Put for ExecuteLoadQueryEvent<'_> {
    ghost use Rattle.binlog_statements.specs.ExecuteLoadQuery.{execute_load_query};

    ghost bytes = { execute_load_query.written };

    fn check(&self) -> Result<(), Error> {
        Ok(())
    }

    fn written_len(&self) -> usize {
        LOAD_HEAD_LEN + self.statement.texts.written_len()
    }

    #[tactic(auto, using(std::proofs::Common::append_assoc))]
    fn put(&self, buf: &mut Vec<u8>) {
        self.head().put(buf);
        self.statement.texts.put(buf);
    }
}

impl<'a> BinlogEvent<'a> for ExecuteLoadQueryEvent<'a> {
    ghost use Rattle.std.specs.Prelude.{refl};
    ghost use Rattle.binlog_statements.specs.ExecuteLoadQuery.{execute_load_query};

    const EVENT_TYPE: EventType = EventType::EXECUTE_LOAD_QUERY_EVENT;

    ghost format = { λ _ _. execute_load_query };

    ghost raw_type = { λ _. 18 };

    ghost reading = { λ _. refl };

    ghost writing = { λ _ _ _. refl };
}
