//! What a command is asked for.
ghost use Rattle.std.specs.Prelude.{◌≡◌, ◌↔◌, ◌&&◌, false, [], IsTrue, map, option_map, unwrap_or, codes};
ghost use Rattle.clap.specs.Matches.{found_of, matched_of, one_text, first_value, raw_values};
ghost use Rattle.binlog_inputs.specs.Requests.{Flags, lines_capacity};

use binlog_cli::BUFFER_SIZE;
use clap::ArgMatches;

/// Which of the standard streams are terminals.
#[derive(Clone, Copy)]
pub struct Terminals {
    /// Standard output.
    pub output: bool,
    /// Standard error.
    pub errors: bool,
}

impl Terminals {
    // Whether a command has a place for progress: a terminal to which it doesn't write lines meanwhile.
    fn has_progress(self, name: &str) -> bool {
        self.errors && !(self.output && (name == "list" || name == "json"))
    }
}

/// How files are read.
#[derive(Clone, Copy)]
pub struct Reading {
    /// Whether their checksums are verified.
    pub is_verified: bool,
    /// Whether the progress in large files is shown.
    pub shows_progress: bool,
    /// Whether more is waited for at their end.
    pub is_followed: bool,
}

impl Reading {
    /// To the end and no further, with no checksums and no progress.
    pub fn to_end() -> Self
        ensures { result ≡ record { is_verified = false; shows_progress = false; is_followed = false } }
    {
        Reading {
            is_verified: false,
            shows_progress: false,
            is_followed: false,
        }
    }

    /// How one of several files is read: only the last one is followed.
    pub fn of_file(self, is_last: bool) -> Self
        ensures { result ≡ record self { is_followed = self.is_followed && is_last } }
    {
        Reading {
            is_followed: self.is_followed && is_last,
            ..self
        }
    }

    /// The size of the buffer of the lines, in bytes: none if they have to be seen at once.
    pub fn output_capacity(self) -> usize
        ensures { result ≡ lines_capacity self.is_followed }
    {
        if self.is_followed { 0 } else { BUFFER_SIZE }
    }
}

/// What the words of the command line ask of a command.
#[derive(Drop)]
pub struct Request<'m, 'a> {
    /// The options, and their values.
    pub options: &'m ArgMatches<'a>,
    /// The names of the files, in order.
    pub files: &'m [&'a str],
    /// How they are read.
    pub reading: Reading,
    /// Whether no lines are written.
    pub is_quiet: bool,
    /// Whether rows alone are written as lines of JSON.
    pub is_compact: bool,
    /// Whether lines of JSON keep the stored bytes of rows.
    pub keeps_stored: bool,
    /// The names of the files of columns, in order.
    pub columns: &'m [&'a str],
    /// The names of the logs behind those that are undone, in order.
    pub later: &'m [&'a str],
    /// The log whose GTIDs aren't written.
    pub missing_in: Option<&'a str>,
    /// How much time there is between two tables of a log that is followed, as 60s.
    pub every: Option<&'a str>,
    /// The name of the file that is written; `-` is standard output.
    pub output: &'a str,
    /// The name of the state file of a log that is followed.
    pub state: Option<&'a str>,
    /// Whether output and state have to be on their devices.
    pub is_synced: bool,
}

impl<'m, 'a> Request<'m, 'a> {
    /// What these options ask of the command of this name.
    pub fn new(name: &str, options: &'m ArgMatches<'a>, terminals: Terminals) -> Self
        ensures verified { IsTrue result.reading.is_verified ↔ name.now ≡ codes "verify" }
        ensures options { result.options.now ≡ options.now }
        ensures files { map (λ file. file.now) result.files.now ≡ unwrap_or (option_map raw_values (matched_of (found_of options.now) (codes "FILE"))) [] }
        ensures followed { Flags (one_text (found_of options.now) (codes "follow")) result.reading.is_followed }
        ensures quiet { Flags (one_text (found_of options.now) (codes "quiet")) result.is_quiet }
        ensures compact { Flags (one_text (found_of options.now) (codes "compact")) result.is_compact }
        ensures stored { Flags (one_text (found_of options.now) (codes "stored")) result.keeps_stored }
        ensures columns { map (λ file. file.now) result.columns.now ≡ unwrap_or (option_map raw_values (matched_of (found_of options.now) (codes "columns"))) [] }
        ensures later { map (λ file. file.now) result.later.now ≡ unwrap_or (option_map raw_values (matched_of (found_of options.now) (codes "later"))) [] }
        ensures missing { option_map (λ file. file.now) result.missing_in ≡ first_value (found_of options.now) (codes "missing-in") }
        ensures every { option_map (λ time. time.now) result.every ≡ first_value (found_of options.now) (codes "every") }
        ensures output { result.output.now ≡ unwrap_or (first_value (found_of options.now) (codes "output")) (codes "-") }
        ensures state { option_map (λ file. file.now) result.state ≡ first_value (found_of options.now) (codes "state") }
        ensures synced { Flags (one_text (found_of options.now) (codes "sync")) result.is_synced }
    {
        let is_followed = options.get_flag("follow");
        // A line of progress would stay while a followed file is waited for.
        let has_progress = terminals.has_progress(name) && !is_followed;
        Request {
            options,
            files: options.get_strs("FILE").unwrap_or(&[]),
            reading: Reading {
                is_verified: name == "verify",
                shows_progress: has_progress && !options.get_flag("no-progress"),
                is_followed,
            },
            is_quiet: options.get_flag("quiet"),
            is_compact: options.get_flag("compact"),
            keeps_stored: options.get_flag("stored"),
            columns: options.get_strs("columns").unwrap_or(&[]),
            later: options.get_strs("later").unwrap_or(&[]),
            missing_in: options.get_str("missing-in"),
            every: options.get_str("every"),
            output: options.get_str("output").unwrap_or("-"),
            state: options.get_str("state"),
            is_synced: options.get_flag("sync"),
        }
    }
}
