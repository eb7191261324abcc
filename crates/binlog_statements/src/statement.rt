//! What a QUERY and an EXECUTE_LOAD_QUERY event have in common.
ghost use Rattle.std.specs.Prelude.{◌≡◌, ◌∷◌, ◌++◌, ◌+◌, ◌^◌, ◌<◌, ◌≤◌, [], length, take, vec_len, vec_capacity, IfOk, IsOkUnless};
ghost use Rattle.std.specs.Cow.{cow_slice_items};
ghost use Rattle.binlog_wire.specs.declared.error.Error.TheVariants.{Memory};
ghost use Rattle.binlog_wire.specs.Reading.{Gives};

use crate::status_vars::StatusVars;
use binlog_wire::{
    BareU8Bytes, BytesRepr, EofBytes, Error, IntRepr, IntoOwned, LeU16, LeU32, MyDeserialize,
    ParseBuf, Put, RawBytes, Skip, TryClone,
};
use std::alloc::Global;
use std::borrow::CowSlice;

/// The length of a query's post-header in bytes.
pub const STATEMENT_HEAD_LEN: usize = 13;

/// A query's post-header.
#[derive(Clone, Copy, Debug, PartialEq, Eq, Hash)]
pub struct StatementHead {
    thread_id: u32,
    execution_time: u32,
    schema_len: u8,
    error_code: u16,
    status_vars_len: u16,
}

impl StatementHead {
    ghost use Rattle.binlog_statements.specs.Statements.{head};

    /// Reads a post-header from the start of `buf`, as `deserialize` does. The only error is [`Error::EndOfBody`], if
    /// fewer than 13 bytes are left.
    #[inline(always)]
    pub fn read(buf: &mut ParseBuf<'_>) -> Result<Self, Error>
        ensures { Gives ⊥ buf.new result (head.reads buf.old) }
    {
        if buf.len() < STATEMENT_HEAD_LEN {
            return Err(Error::EndOfBody);
        }
        let thread_id = LeU32::read(buf)?;
        let execution_time = LeU32::read(buf)?;
        let schema_len = u8::read(buf)?;
        let error_code = LeU16::read(buf)?;
        let status_vars_len = LeU16::read(buf)?;
        Ok(StatementHead {
            thread_id,
            execution_time,
            schema_len,
            error_code,
            status_vars_len,
        })
    }
}

/// The only error is [`Error::EndOfBody`], if fewer than 13 bytes are left.
impl<'de> MyDeserialize<'de> for StatementHead {
    ghost use Rattle.std.specs.Prelude.{Some};
    ghost use Rattle.binlog_statements.specs.Statements.{head};

    const SIZE: Option<usize> = Some(13);

    type Ctx = ();

    ghost reads = { λ _. head.reads };

    ghost size = { Some 13 };

    fn deserialize(_alloc: Global, _ctx: (), buf: &mut ParseBuf<'de>) -> Result<Self, Error> {
        StatementHead::read(buf)
    }
}

impl Put for StatementHead {
    ghost use Rattle.binlog_statements.specs.Statements.{head};

    ghost bytes = { head.written };

    fn check(&self) -> Result<(), Error> {
        Ok(())
    }

    fn written_len(&self) -> usize {
        STATEMENT_HEAD_LEN
    }

    fn put(&self, buf: &mut Vec<u8>) {
        LeU32::put(self.thread_id, buf);
        LeU32::put(self.execution_time, buf);
        u8::put(self.schema_len, buf);
        LeU16::put(self.error_code, buf);
        LeU16::put(self.status_vars_len, buf);
    }
}

/// The variable-length fields of a statement: status variables, schema name, and the statement itself.
#[derive(Debug, PartialEq, Eq, Hash, Drop)]
pub struct StatementTexts<'a> {
    /// The encoded status variables.
    pub status_vars: StatusVars<'a>,
    /// The schema name.
    pub schema: RawBytes<'a, BareU8Bytes>,
    /// The statement itself.
    pub query: RawBytes<'a, EofBytes>,
}

impl<'a> StatementTexts<'a> {
    ghost use Rattle.binlog_statements.specs.Statements.{texts};

    /// Reads the texts after this post-header from the start of `buf`, as `deserialize` does. The only error is
    /// [`Error::EndOfBody`], if the bytes end before the statement.
    #[inline(always)]
    pub fn read(head: StatementHead, buf: &mut ParseBuf<'a>) -> Result<Self, Error>
        ensures { Gives ⊥ buf.new result ((texts head).reads buf.old) }
    {
        let status_vars = StatusVars::read(head.status_vars_len, buf)?;
        let schema = BareU8Bytes::read(usize::from(head.schema_len), buf)?;
        if !buf.checked_skip(1) {
            return Err(Error::EndOfBody);
        }
        let query = EofBytes::read((), buf)?;
        Ok(StatementTexts {
            status_vars,
            schema: RawBytes::new(CowSlice::Borrowed(schema)),
            query: RawBytes::new(CowSlice::Borrowed(query)),
        })
    }

    /// Sets the encoded status variables.
    pub fn with_status_vars(self, status_vars: CowSlice<'a, u8>) -> Self
        ensures { result ≡ record self.entry { status_vars = record { 0 = cow_slice_items status_vars.entry } } }
    {
        StatementTexts {
            status_vars: StatusVars(RawBytes::new(status_vars)),
            schema: self.schema,
            query: self.query,
        }
    }

    /// Sets the schema name.
    pub fn with_schema(mut self, schema: CowSlice<'a, u8>) -> Self
        ensures { result ≡ record self.entry { schema = cow_slice_items schema.entry } }
    {
        self.schema = RawBytes::new(schema);
        self
    }

    /// Sets the statement.
    pub fn with_query(mut self, query: CowSlice<'a, u8>) -> Self
        ensures { result ≡ record self.entry { query = cow_slice_items query.entry } }
    {
        self.query = RawBytes::new(query);
        self
    }
}

impl<'a> IntoOwned for StatementTexts<'a> {
    type Owned = StatementTexts<'static>;

    ghost is_owned = { λ value owned. owned ≡ value };

    fn into_owned(self, alloc: Global) -> Result<StatementTexts<'static>, Error> {
        let status_vars = self.status_vars.into_owned(alloc)?;
        let schema = self.schema.into_owned(alloc)?;
        let query = self.query.into_owned(alloc)?;
        Ok(StatementTexts {
            status_vars,
            schema,
            query,
        })
    }
}

impl<'a> TryClone for StatementTexts<'a> {
    fn clone(&self, alloc: Global) -> Result<Self, Error> {
        let status_vars = self.status_vars.clone(alloc)?;
        let schema = self.schema.clone(alloc)?;
        let query = self.query.clone(alloc)?;
        Ok(StatementTexts {
            status_vars,
            schema,
            query,
        })
    }
}

/// The only error is [`Error::EndOfBody`], if the bytes end before the statement.
impl<'de> MyDeserialize<'de> for StatementTexts<'de> {
    ghost use Rattle.binlog_statements.specs.Statements.{texts};

    const SIZE: Option<usize> = None;

    type Ctx = StatementHead;

    ghost reads = { λ head. (texts head).reads };

    fn deserialize(
        _alloc: Global,
        head: StatementHead,
        buf: &mut ParseBuf<'de>,
    ) -> Result<Self, Error> {
        StatementTexts::read(head, buf)
    }
}

/// The status variables (at most 65,535 bytes), the schema name (at most 255), one reserved byte, and the statement.
impl Put for StatementTexts<'_> {
    ghost bytes = { λ t. take 65535 t.status_vars.0 ++ (take 255 t.schema ++ 0 ∷ t.query) };

    fn check(&self) -> Result<(), Error> {
        Ok(())
    }

    fn written_len(&self) -> usize
        ensures count { result ≡ length (take 65535 self.now.status_vars.0 ++ (take 255 self.now.schema ++ 0 ∷ self.now.query)) }
        ensures small { result < 2 ^ 63 + 2 ^ 17 }
    {
        self.status_vars.0.written_len() + self.schema.written_len() + 1 + self.query.written_len()
    }

    #[tactic(auto, using(std::proofs::Common::append_assoc))]
    fn put(&self, buf: &mut Vec<u8>) {
        self.status_vars.0.put(buf);
        self.schema.put(buf);
        Skip::<1>.put(buf);
        self.query.put(buf);
    }
}

/// A statement that ran on the source: thread id, execution time, error code, and the texts.
#[derive(Debug, PartialEq, Eq, Hash, Drop)]
pub struct Statement<'a> {
    /// The id of the thread that ran the statement.
    pub thread_id: u32,
    /// Seconds from the start of the statement until it was logged.
    pub execution_time: u32,
    /// The error code that the statement returned on the source; 0 if none.
    pub error_code: u16,
    /// The variable-length fields.
    pub texts: StatementTexts<'a>,
}

impl<'a> Statement<'a> {
    ghost use Rattle.binlog_statements.specs.Statements.{head_of, new_statement, statement_with, with_status_vars, with_schema, with_query};

    /// An empty statement with these status variables and this schema name.
    pub fn new(status_vars: CowSlice<'a, u8>, schema: CowSlice<'a, u8>) -> Self
        ensures { result ≡ new_statement (cow_slice_items status_vars.entry) (cow_slice_items schema.entry) }
    {
        Statement {
            thread_id: 0,
            execution_time: 0,
            error_code: 0,
            texts: StatementTexts {
                status_vars: StatusVars(RawBytes::new(status_vars)),
                schema: RawBytes::new(schema),
                query: RawBytes::default(),
            },
        }
    }

    /// The statement with the numbers of this post-header and these texts. The post-header's lengths aren't kept.
    pub fn with_head(head: StatementHead, texts: StatementTexts<'a>) -> Self
        ensures { result ≡ statement_with head texts.entry }
    {
        Statement {
            thread_id: head.thread_id,
            execution_time: head.execution_time,
            error_code: head.error_code,
            texts,
        }
    }

    /// Sets the encoded status variables.
    pub fn with_status_vars(mut self, status_vars: CowSlice<'a, u8>) -> Self
        ensures { result ≡ with_status_vars self.entry (cow_slice_items status_vars.entry) }
    {
        self.texts = self.texts.with_status_vars(status_vars);
        self
    }

    /// Sets the schema name.
    pub fn with_schema(mut self, schema: CowSlice<'a, u8>) -> Self
        ensures { result ≡ with_schema self.entry (cow_slice_items schema.entry) }
    {
        self.texts = self.texts.with_schema(schema);
        self
    }

    /// Sets the statement's text.
    pub fn with_query(mut self, query: CowSlice<'a, u8>) -> Self
        ensures { result ≡ with_query self.entry (cow_slice_items query.entry) }
    {
        self.texts = self.texts.with_query(query);
        self
    }

    /// The post-header to write.
    pub fn head(&self) -> StatementHead
        ensures { result ≡ head_of self.now }
    {
        StatementHead {
            thread_id: self.thread_id,
            execution_time: self.execution_time,
            schema_len: self.texts.schema.written_len() as u8,
            error_code: self.error_code,
            status_vars_len: self.texts.status_vars.0.written_len() as u16,
        }
    }
}

impl<'a> IntoOwned for Statement<'a> {
    type Owned = Statement<'static>;

    ghost is_owned = { λ value owned. owned ≡ value };

    fn into_owned(self, alloc: Global) -> Result<Statement<'static>, Error> {
        let texts = self.texts.into_owned(alloc)?;
        Ok(Statement {
            thread_id: self.thread_id,
            execution_time: self.execution_time,
            error_code: self.error_code,
            texts,
        })
    }
}

impl<'a> TryClone for Statement<'a> {
    fn clone(&self, alloc: Global) -> Result<Self, Error> {
        let texts = self.texts.clone(alloc)?;
        Ok(Statement {
            thread_id: self.thread_id,
            execution_time: self.execution_time,
            error_code: self.error_code,
            texts,
        })
    }
}
