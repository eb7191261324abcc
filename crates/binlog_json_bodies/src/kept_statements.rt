//! What statements in turn have in common, kept for those behind them.
#![tactic(auto, using(std::proofs::Common::append_assoc))]

ghost use Rattle.std.specs.Prelude.{◌≡◌};
ghost use Rattle.std.specs.Bool.{OnTrue};
ghost use Rattle.json_line.specs.Tokens.{Adds};
ghost use Rattle.binlog_json_bodies.specs.Statements.{head_members};

use crate::kept_status_vars::KeptStatusVars;
use crate::statements::write_statement_head;
use json_line::Line;
use std::alloc::{AllocError, Global};

/// The thread id, the execution time and the error code of a statement, with the members that they have in a line.
#[derive(Drop)]
struct PrintedHead {
    thread_id: u32,
    execution_time: u32,
    error_code: u16,
    members: Line,
    ghost printed: { members ≡ head_members thread_id execution_time error_code },
}

impl PrintedHead {
    // Prints the members. What is allocated is their line.
    fn new(
        alloc: Global,
        thread_id: u32,
        execution_time: u32,
        error_code: u16,
    ) -> Result<Self, AllocError> {
        let mut members = Line::new(alloc);
        write_statement_head(&mut members, thread_id, execution_time, error_code)?;
        Ok(PrintedHead {
            thread_id,
            execution_time,
            error_code,
            members,
        })
    }

    // Whether these are the thread id, the execution time and the error code.
    #[inline(always)]
    fn is_of(&self, thread_id: u32, execution_time: u32, error_code: u16) -> bool
        ensures { OnTrue result ((self.now.thread_id ≡ thread_id) × (self.now.execution_time ≡ execution_time) × (self.now.error_code ≡ error_code)) }
    {
        self.thread_id == thread_id
            && self.execution_time == execution_time
            && self.error_code == error_code
    }

    // Writes the members.
    #[inline(always)]
    fn write(&self, line: &mut Line) -> Result<(), AllocError>
        ensures { Adds result line.old line.new (head_members self.now.thread_id self.now.execution_time self.now.error_code) }
    {
        line.copied_members(&self.members)?;
        Ok(())
    }
}

/// The thread id, the execution time and the error code of a statement, and its status variables, with the members that they have in a
/// line: each is kept where two statements in turn have the same, as most of a session's do, and copied for those behind them. The
/// memory is that of the variables of one statement, twice, and of the members.
#[derive(Drop)]
pub struct KeptStatements {
    // Those of the last statement that were not copied.
    last_thread_id: u32,
    last_execution_time: u32,
    last_error_code: u16,
    printed: Option<PrintedHead>,
    pub(crate) status_vars: KeptStatusVars,
}

impl KeptStatements {
    /// None yet. Nothing is allocated.
    pub fn new(alloc: Global) -> Self {
        KeptStatements {
            last_thread_id: 0,
            last_execution_time: 0,
            last_error_code: 0,
            printed: None,
            status_vars: KeptStatusVars::new(alloc),
        }
    }

    /// Writes the thread id, the execution time in seconds, and the error code of a statement, as members of its object.
    ///
    /// # Errors
    ///
    /// [`AllocError`] if an allocation fails. Some members may then have been written.
    #[inline(always)]
    pub(crate) fn write_head(
        &mut self,
        line: &mut Line,
        alloc: Global,
        thread_id: u32,
        execution_time: u32,
        error_code: u16,
    ) -> Result<(), AllocError>
        ensures { Adds result line.old line.new (head_members thread_id execution_time error_code) }
    {
        if let Some(printed) = &self.printed
            && printed.is_of(thread_id, execution_time, error_code)
        {
            printed.write(line)?;
            return Ok(());
        }
        self.write_other_head(line, alloc, thread_id, execution_time, error_code)
    }

    // Writes the members of a statement that aren't kept, and keeps them if those of the statement before were the same.
    #[inline(never)]
    fn write_other_head(
        &mut self,
        line: &mut Line,
        alloc: Global,
        thread_id: u32,
        execution_time: u32,
        error_code: u16,
    ) -> Result<(), AllocError>
        ensures { Adds result line.old line.new (head_members thread_id execution_time error_code) }
    {
        if self.is_repeated(thread_id, execution_time, error_code) {
            self.printed = Some(PrintedHead::new(alloc, thread_id, execution_time, error_code)?);
        }
        write_statement_head(line, thread_id, execution_time, error_code)
    }

    // Notes a statement. The result is whether the last one had the same.
    fn is_repeated(&mut self, thread_id: u32, execution_time: u32, error_code: u16) -> bool {
        let is_repeated = self.last_thread_id == thread_id
            && self.last_execution_time == execution_time
            && self.last_error_code == error_code;
        self.last_thread_id = thread_id;
        self.last_execution_time = execution_time;
        self.last_error_code = error_code;
        is_repeated
    }
}
