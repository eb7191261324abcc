//! Commands of the command line and their options, as tables of texts.
use clap::{Arg, ArgAction, Command, value_parser};
use std::alloc::{AllocError, Global};

/// What an option takes.
#[derive(Clone, Copy)]
pub enum Takes {
    /// Nothing.
    Nothing,
    /// A text, which the help calls so.
    Text(&'static str),
    /// A text, which has to be given.
    NeededText(&'static str),
    /// A text, and more of them where it is given again.
    Texts(&'static str),
    /// A number, which the help calls `N`.
    Number,
}

/// An option of a command.
pub struct OptionText {
    /// Its name, without the hyphens.
    pub name: &'static str,
    /// The letter that stands for it.
    pub short: Option<char>,
    /// What it takes.
    pub takes: Takes,
    /// What the help says of it.
    pub help: &'static str,
}

/// A command, which reads files.
pub struct CommandText {
    /// Its name.
    pub name: &'static str,
    /// What the help says of it.
    pub about: &'static str,
    /// What the help says behind its options.
    pub after_help: &'static str,
    /// Whether it reads standard input where no file is named, and for the name `-`. Else a file has to be named.
    pub reads_input: bool,
    /// Its options in groups, in the order of the help.
    pub options: &'static [&'static [OptionText]],
}

impl CommandText {
    /// The command with its options, and its files as `FILE`. The only error is that no memory can be had.
    pub fn command<'a>(&self, alloc: Global) -> Result<Command<'a>, AllocError> {
        let mut command = Command::new(alloc, self.name)
            .about(self.about)
            .after_help(self.after_help)
            .arg(self.files(alloc))?;
        for options in self.options {
            for option in options.iter() {
                command = command.arg(option.arg(alloc))?;
            }
        }
        Ok(command)
    }

    // The files that it reads.
    fn files<'a>(&self, alloc: Global) -> Arg<'a> {
        let files = Arg::new(alloc, "FILE")
            .action(ArgAction::Append)
            .num_args(1..);
        if self.reads_input {
            files
                .default_value("-")
                .help("The logs, in order; - is standard input")
        } else {
            files
                .required(true)
                .help("The logs, in order; each has to be a file")
        }
    }
}

impl OptionText {
    fn arg<'a>(&self, alloc: Global) -> Arg<'a> {
        let arg = Arg::new(alloc, self.name).long(self.name).help(self.help);
        let arg = match self.takes {
            Takes::Nothing => arg.action(ArgAction::SetTrue),
            Takes::Text(name) => arg.action(ArgAction::Set).value_name(name),
            Takes::NeededText(name) => arg.action(ArgAction::Set).value_name(name).required(true),
            Takes::Texts(name) => arg.action(ArgAction::Append).value_name(name),
            Takes::Number => arg
                .action(ArgAction::Set)
                .value_name("N")
                .value_parser(value_parser!(u64)),
        };
        match self.short {
            Some(letter) => arg.short(letter),
            None => arg,
        }
    }
}
