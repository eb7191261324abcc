//! QUERY_EVENT: a statement.
ghost use Rattle.std.specs.Prelude.{◌≡◌, [], take, IfOk, IsOkUnless};
ghost use Rattle.std.specs.Cow.{cow_slice_items, cow_str_bytes};
ghost use Rattle.std.specs.Str.Lossy.{utf8_lossy};
ghost use Rattle.binlog_wire.specs.declared.error.Error.TheVariants.{Memory};
ghost use Rattle.binlog_wire.specs.Reading.{Gives};

use crate::statement::{STATEMENT_HEAD_LEN, Statement, StatementHead, StatementTexts};
use crate::status_vars::StatusVars;
use binlog_consts::EventType;
use binlog_event_format::{BinlogCtx, BinlogEvent, DescriptionRef};
use binlog_wire::{Error, IntoOwned, MyDeserialize, ParseBuf, Put, TryClone};
use std::alloc::Global;
use std::borrow::{CowSlice, CowStr};

/// A QUERY event, type 2: a statement that ran on the source.
///
/// The post-header has 13 bytes: thread id (4), execution time (4), length of the schema name (1), error code (2),
/// length of the status variables (2). If the format description states a longer post-header, the rest of it is
/// skipped. The body follows: status variables, schema name, one reserved byte, and the statement, to the end. All
/// numbers are little-endian.
///
/// Source: MySQL's internals documentation, "QUERY_EVENT".
#[derive(Debug, PartialEq, Eq, Hash, Drop)]
pub struct QueryEvent<'a> {
    statement: Statement<'a>,
}

impl<'a> QueryEvent<'a> {
    ghost use Rattle.binlog_consts.specs.declared.event_type.EventType.TheVariants.{QUERY_EVENT};
    ghost use Rattle.binlog_event_format.specs.DescriptionRefs.{description_of};
    ghost use Rattle.binlog_event_format.specs.PostHeaders.{post_header};
    ghost use Rattle.binlog_statements.specs.Query.{query};
    ghost use Rattle.binlog_statements.specs.Statements.{new_statement, with_status_vars, with_schema, with_query};

    /// Reads an event from the start of `buf` under a format description, as `deserialize` does. Needs no allocator.
    /// The only error is [`Error::EndOfBody`], if the bytes end before the statement.
    #[inline(always)]
    pub fn read(fde: DescriptionRef<'_>, buf: &mut ParseBuf<'a>) -> Result<Self, Error>
        ensures { Gives ⊥ buf.new result ((query (post_header (description_of fde.entry) QUERY_EVENT)).reads buf.old) }
    {
        let head = StatementHead::read(buf)?;
        let post_header = fde.get_event_type_header_length(EventType::QUERY_EVENT);
        if !buf.checked_skip(usize::from(post_header).saturating_sub(STATEMENT_HEAD_LEN)) {
            return Err(Error::EndOfBody);
        }
        let texts = StatementTexts::read(head, buf)?;
        Ok(QueryEvent {
            statement: Statement::with_head(head, texts),
        })
    }

    /// An event with an empty statement; all numbers are 0. Only the first 65,535 bytes of `status_vars` and the first
    /// 255 bytes of `schema` are used.
    pub fn new(status_vars: CowSlice<'a, u8>, schema: CowSlice<'a, u8>) -> Self
        ensures { result ≡ record {
          statement = new_statement (cow_slice_items status_vars.entry) (cow_slice_items schema.entry);
        } }
    {
        QueryEvent {
            statement: Statement::new(status_vars, schema),
        }
    }

    /// Sets the id of the thread that ran the statement.
    pub fn with_thread_id(mut self, thread_id: u32) -> Self
        ensures { result ≡ record self.entry { statement = record self.entry.statement { thread_id = thread_id } } }
    {
        self.statement.thread_id = thread_id;
        self
    }

    /// Sets the execution time: seconds from the start of the statement until it was logged.
    pub fn with_execution_time(mut self, execution_time: u32) -> Self
        ensures { result ≡ record self.entry { statement = record self.entry.statement { execution_time = execution_time } } }
    {
        self.statement.execution_time = execution_time;
        self
    }

    /// Sets the error code that the statement returned on the source.
    pub fn with_error_code(mut self, error_code: u16) -> Self
        ensures { result ≡ record self.entry { statement = record self.entry.statement { error_code = error_code } } }
    {
        self.statement.error_code = error_code;
        self
    }

    /// Sets the encoded status variables. Only the first 65,535 bytes are used.
    pub fn with_status_vars(mut self, status_vars: CowSlice<'a, u8>) -> Self
        ensures { result ≡ record self.entry { statement = with_status_vars self.entry.statement (cow_slice_items status_vars.entry) } }
    {
        self.statement = self.statement.with_status_vars(status_vars);
        self
    }

    /// Sets the schema name. Only the first 255 bytes are used.
    pub fn with_schema(mut self, schema: CowSlice<'a, u8>) -> Self
        ensures { result ≡ record self.entry { statement = with_schema self.entry.statement (cow_slice_items schema.entry) } }
    {
        self.statement = self.statement.with_schema(schema);
        self
    }

    /// Sets the statement.
    pub fn with_query(mut self, query: CowSlice<'a, u8>) -> Self
        ensures { result ≡ record self.entry { statement = with_query self.entry.statement (cow_slice_items query.entry) } }
    {
        self.statement = self.statement.with_query(query);
        self
    }

    /// The id of the thread that ran the statement. Replicas use it to tell temporary tables apart.
    pub fn thread_id(&self) -> u32
        ensures { result ≡ self.now.statement.thread_id }
    {
        self.statement.thread_id
    }

    /// The execution time: seconds from the start of the statement until it was logged.
    pub fn execution_time(&self) -> u32
        ensures { result ≡ self.now.statement.execution_time }
    {
        self.statement.execution_time
    }

    /// The error code that the statement returned on the source; 0 if none.
    pub fn error_code(&self) -> u16
        ensures { result ≡ self.now.statement.error_code }
    {
        self.statement.error_code
    }

    /// The status variables: the session's settings that the statement depended on.
    pub fn status_vars(&self) -> &StatusVars<'a>
        ensures { result.now ≡ self.now.statement.texts.status_vars }
    {
        &self.statement.texts.status_vars
    }

    /// The encoded status variables: at most 65,535 bytes.
    pub fn status_vars_raw(&self) -> &[u8]
        ensures { result.now ≡ take 65535 self.now.statement.texts.status_vars.0 }
    {
        self.statement.texts.status_vars.0.as_bytes()
    }

    /// The name of the default schema: at most 255 bytes.
    pub fn schema_raw(&self) -> &[u8]
        ensures { result.now ≡ take 255 self.now.statement.texts.schema }
    {
        self.statement.texts.schema.as_bytes()
    }

    /// [`QueryEvent::schema_raw`] as UTF-8, with U+FFFD for invalid sequences. The only error is [`Error::Memory`].
    pub fn schema(&self, alloc: Global) -> Result<CowStr<'_, Global>, Error>
        ensures ok { IfOk result (λ text. cow_str_bytes text ≡ utf8_lossy (take 255 self.now.statement.texts.schema)) }
        ensures memory { IsOkUnless result Memory }
    {
        self.statement.texts.schema.as_str(alloc)
    }

    /// The statement's bytes.
    pub fn query_raw(&self) -> &[u8]
        ensures { result.now ≡ self.now.statement.texts.query }
    {
        self.statement.texts.query.as_bytes()
    }

    /// The statement as UTF-8, with U+FFFD for invalid sequences. The only error is [`Error::Memory`].
    pub fn query(&self, alloc: Global) -> Result<CowStr<'_, Global>, Error>
        ensures ok { IfOk result (λ text. cow_str_bytes text ≡ utf8_lossy self.now.statement.texts.query) }
        ensures memory { IsOkUnless result Memory }
    {
        self.statement.texts.query.as_str(alloc)
    }
}

impl<'a> IntoOwned for QueryEvent<'a> {
    type Owned = QueryEvent<'static>;

    ghost is_owned = { λ value owned. owned ≡ value };

    fn into_owned(self, alloc: Global) -> Result<QueryEvent<'static>, Error> {
        let statement = self.statement.into_owned(alloc)?;
        Ok(QueryEvent { statement })
    }
}

impl<'a> TryClone for QueryEvent<'a> {
    fn clone(&self, alloc: Global) -> Result<Self, Error> {
        let statement = self.statement.clone(alloc)?;
        Ok(QueryEvent { statement })
    }
}

/// The only error is [`Error::EndOfBody`], if the bytes end before the statement.
impl<'de> MyDeserialize<'de> for QueryEvent<'de> {
    ghost use Rattle.binlog_consts.specs.declared.event_type.EventType.TheVariants.{QUERY_EVENT};
    ghost use Rattle.binlog_event_format.specs.DescriptionRefs.{description_of};
    ghost use Rattle.binlog_event_format.specs.PostHeaders.{post_header};
    ghost use Rattle.binlog_statements.specs.Query.{query};

    const SIZE: Option<usize> = None;

    type Ctx = BinlogCtx<'de>;

    ghost reads = { λ ctx. (query (post_header (description_of ctx.fde) QUERY_EVENT)).reads };

    fn deserialize(
        _alloc: Global,
        ctx: BinlogCtx<'de>,
        buf: &mut ParseBuf<'de>,
    ) -> Result<Self, Error> {
        QueryEvent::read(ctx.fde, buf)
    }
}

impl Put for QueryEvent<'_> {
    ghost use Rattle.binlog_statements.specs.Query.{query};

    ghost bytes = { (query 13).written };

    fn check(&self) -> Result<(), Error> {
        Ok(())
    }

    fn written_len(&self) -> usize {
        STATEMENT_HEAD_LEN + self.statement.texts.written_len()
    }

    #[tactic(auto, using(std::proofs::Common::append_assoc))]
    fn put(&self, buf: &mut Vec<u8>) {
        self.statement.head().put(buf);
        self.statement.texts.put(buf);
    }
}

impl<'a> BinlogEvent<'a> for QueryEvent<'a> {
    ghost use Rattle.std.specs.Prelude.{refl};
    ghost use Rattle.binlog_consts.specs.declared.event_type.EventType.TheVariants.{QUERY_EVENT};
    ghost use Rattle.binlog_event_format.specs.PostHeaders.{post_header};
    ghost use Rattle.binlog_statements.specs.Query.{query};

    const EVENT_TYPE: EventType = EventType::QUERY_EVENT;

    ghost format = { λ d _. query (post_header d QUERY_EVENT) };

    ghost raw_type = { λ _. 2 };

    ghost reading = { λ _. refl };

    ghost writing = { λ _ _ _. refl };
}
