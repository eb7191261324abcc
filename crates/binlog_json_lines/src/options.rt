//! What lines of row events show.
ghost use Rattle.std.specs.Prelude.{◌≡◌};
ghost use Rattle.binlog_json_lines.specs.Options.{options_of, plain};

use column_files::DeclaredTables;
use std::alloc::Global;

/// What lines of row events show.
#[derive(Drop)]
pub struct LineOptions {
    /// Whether they keep the stored bytes of rows also where all rows are read.
    pub keeps_stored: bool,
    /// The tables of files of columns, for what table maps don't state of columns. Of the files that have a table the last one counts.
    pub files: Vec<DeclaredTables>,
}

impl LineOptions {
    /// No stored bytes where all rows are read, and no files of columns. Nothing is allocated.
    pub fn new(alloc: Global) -> Self
        ensures { options_of result ≡ plain }
    {
        LineOptions {
            keeps_stored: false,
            files: Vec::new(alloc),
        }
    }
}
