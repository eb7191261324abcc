//! The status variables of a statement, kept for the statements behind it.
#![tactic(auto, using(std::proofs::Common::append_assoc))]

ghost use Rattle.std.specs.Prelude.{◌≡◌, IfOk};
ghost use Rattle.std.specs.Bool.{OnTrue};
ghost use Rattle.json_line.specs.Tokens.{Adds};
ghost use Rattle.binlog_json_bodies.specs.ClientSets.{client_collation};
ghost use Rattle.binlog_json_bodies.specs.StatusVars.{status_vars_members};

use crate::status_vars::write_status_vars;
use json_line::Line;
use std::alloc::{AllocError, Global};

/// Status variables, with the members that they have in a line.
#[derive(Drop)]
struct PrintedStatusVars {
    bytes: Vec<u8>,
    members: Line,
    // The number of the client's collation, if they state one.
    collation: Option<u16>,
    ghost printed: { members ≡ status_vars_members bytes.items },
    ghost client: { collation ≡ client_collation bytes.items },
}

impl PrintedStatusVars {
    // Prints the members of these status variables. What is allocated is a copy of the bytes, and the members.
    fn new(alloc: Global, text: &[u8]) -> Result<Self, AllocError> {
        let mut members = Line::new(alloc);
        let collation = write_status_vars(&mut members, alloc, text)?;
        let bytes = text.to_vec(alloc)?;
        Ok(PrintedStatusVars {
            bytes,
            members,
            collation,
        })
    }

    // Whether these are the bytes.
    #[inline(always)]
    fn is_of(&self, text: &[u8]) -> bool
        ensures { OnTrue result (self.now.bytes.items ≡ text.now) }
    {
        self.bytes.as_slice() == text
    }

    // Writes the members. The result is the number of the client's collation, if the status variables state one.
    #[inline(always)]
    fn write(&self, line: &mut Line) -> Result<Option<u16>, AllocError>
        ensures members { Adds result line.old line.new (status_vars_members self.now.bytes.items) }
        ensures client { IfOk result (λ collation. collation ≡ client_collation self.now.bytes.items) }
    {
        line.copied_members(&self.members)?;
        Ok(self.collation)
    }
}

/// The status variables of a statement, with the members that they have in a line: they are kept where two statements in turn have the
/// same, as most of a session's do, and copied for those behind them. The memory is that of the variables of one statement, twice, and
/// of their members.
#[derive(Drop)]
pub(crate) struct KeptStatusVars {
    // The bytes of the last that were not copied.
    last: Vec<u8>,
    printed: Option<PrintedStatusVars>,
}

impl KeptStatusVars {
    /// None yet. Nothing is allocated.
    pub(crate) fn new(alloc: Global) -> Self {
        KeptStatusVars {
            last: Vec::new(alloc),
            printed: None,
        }
    }

    /// Writes the member with the status variables, and the member with the bytes after them, if any. The result is the
    /// number of the client's collation, if they state one.
    ///
    /// # Errors
    ///
    /// [`AllocError`] if an allocation fails. Some tokens may then have been written.
    #[inline(always)]
    pub(crate) fn write(
        &mut self,
        line: &mut Line,
        alloc: Global,
        text: &[u8],
    ) -> Result<Option<u16>, AllocError>
        ensures members { Adds result line.old line.new (status_vars_members text.now) }
        ensures client { IfOk result (λ collation. collation ≡ client_collation text.now) }
    {
        if let Some(printed) = &self.printed
            && printed.is_of(text)
        {
            return printed.write(line);
        }
        self.write_others(line, alloc, text)
    }

    // Writes the members of status variables that aren't kept, and keeps them if those of the statement before were the same.
    #[inline(never)]
    fn write_others(
        &mut self,
        line: &mut Line,
        alloc: Global,
        text: &[u8],
    ) -> Result<Option<u16>, AllocError>
        ensures members { Adds result line.old line.new (status_vars_members text.now) }
        ensures client { IfOk result (λ collation. collation ≡ client_collation text.now) }
    {
        if self.last.as_slice() == text {
            self.printed = Some(PrintedStatusVars::new(alloc, text)?);
        } else {
            self.last.clear();
            self.last.extend_from_slice(text)?;
        }
        write_status_vars(line, alloc, text)
    }
}
