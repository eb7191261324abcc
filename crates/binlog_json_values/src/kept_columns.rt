//! The columns of a table, kept for its rows.
ghost use Rattle.std.specs.Prelude.{◌≡◌, map, IfOk};
ghost use Rattle.binlog_optional_metadata.specs.Facts.{facts_of};
ghost use Rattle.binlog_json_values.specs.Kept.{facts_in, AreNamed};

use crate::keys::ColumnKeys;
use crate::names::NumberedNames;
use crate::owned_facts::OwnedFacts;
use binlog_optional_metadata::ColumnFacts;
use std::alloc::{AllocError, Global};

/// What is known of the columns of a table, in memory of its own, with their names printed: for the rows of several row events.
#[derive(Drop)]
pub struct KeptColumns {
    facts: Vec<OwnedFacts>,
    pub(crate) keys: ColumnKeys,
    ghost named: { AreNamed (map facts_in facts.items) keys.lines.items },
}

/// Copies of the facts of columns.
fn copied_facts(alloc: Global, columns: &[ColumnFacts<'_>]) -> Result<Vec<OwnedFacts>, AllocError>
    ensures { IfOk result (λ copies. map facts_in copies.items ≡ map facts_of columns.now) }
{
    let mut copies = Vec::with_capacity(alloc, columns.len())?;
    'columns: for facts in columns {
        copies.push(OwnedFacts::new(alloc, facts)?)?;
    }
    Ok(copies)
}

impl KeptColumns {
    ghost use Rattle.binlog_json_values.specs.KeptColumns.{kept_facts};

    /// Keeps what is known of these columns. What is allocated is a copy of their facts, and of each name the text of a key.
    ///
    /// # Errors
    ///
    /// [`AllocError`] if an allocation fails.
    pub fn new(alloc: Global, columns: &[ColumnFacts<'_>]) -> Result<Self, AllocError>
        ensures { IfOk result (λ kept. kept_facts kept ≡ map facts_of columns.now) }
    {
        let mut names = NumberedNames::new(alloc);
        let mut keys = ColumnKeys::new(alloc);
        keys.print(&mut names, columns)?;
        let facts = copied_facts(alloc, columns)?;
        Ok(KeptColumns { facts, keys })
    }

    /// The facts, borrowed.
    pub(crate) fn facts(&self, alloc: Global) -> Result<Vec<ColumnFacts<'_>>, AllocError>
        ensures { IfOk result (λ borrowed. map facts_of borrowed.items ≡ kept_facts self.now) }
    {
        let mut borrowed = Vec::with_capacity(alloc, self.facts.len())?;
        'columns: for facts in &self.facts {
            borrowed.push(facts.lend(alloc)?)?;
        }
        Ok(borrowed)
    }
}
