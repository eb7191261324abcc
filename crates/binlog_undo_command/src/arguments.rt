//! The words of the command line, with those of `binlog undo`.
use binlog_cli::{CommandText, OptionText, Takes};
use clap::Command;
use std::alloc::{AllocError, Global};

/// The program and all of its commands.
pub fn command<'a>(alloc: Global) -> Result<Command<'a>, AllocError> {
    binlog_cli::command(alloc)?.subcommand(UNDO.command(alloc)?)
}

const UNDO: CommandText = CommandText {
    name: "undo",
    about: "Writes a log that undoes the changes of rows of logs, or names what can't be undone",
    after_help: "Nothing is written if something can't be undone. Apply the log with mariadb-binlog OUT | mariadb.\n\n\
        Examples:\n  \
        binlog undo --dry-run mysql-bin.000007\n  \
        binlog undo --table shop.orders -o undo.bin mysql-bin.000007 mysql-bin.000008",
    reads_input: false,
    options: &[WRITING, CHOICE],
};

// What is written, and what may be left out.
const WRITING: &[OptionText] = &[
    OptionText {
        name: "output",
        short: Some('o'),
        takes: Takes::Text("OUT"),
        help: "The log that is written",
    },
    OptionText {
        name: "dry-run",
        short: None,
        takes: Takes::Nothing,
        help: "Writes nothing, and prints what would be undone",
    },
    OptionText {
        name: "one-transaction",
        short: None,
        takes: Takes::Nothing,
        help: "Makes all that is undone one transaction",
    },
    OptionText {
        name: "no-foreign-key-checks",
        short: None,
        takes: Takes::Nothing,
        help: "The server checks no foreign keys while the log is applied",
    },
    OptionText {
        name: "plain-old-temporal",
        short: None,
        takes: Takes::Nothing,
        help: "Columns of MariaDB's old types of dates and times are known to have no fractions",
    },
    OptionText {
        name: "skip",
        short: None,
        takes: Takes::Texts("REASON"),
        help: "Leaves transactions as they are that are refused for this reason; may be given again",
    },
    OptionText {
        name: "later",
        short: None,
        takes: Takes::Texts("LOG"),
        help: "A log behind the FILEs: it must not change the tables of which rows are undone; may be given again",
    },
    OptionText {
        name: "check-rows",
        short: None,
        takes: Takes::Nothing,
        help: "What stays, in the FILEs and the later logs, must not remove a row that what is undone has left behind",
    },
];

// Which transactions and tables are undone.
const CHOICE: &[OptionText] = &[
    OptionText {
        name: "table",
        short: None,
        takes: Takes::Texts("DB.TABLE"),
        help: "Rows of these tables; * stands for any bytes, ? for one; may be given again",
    },
    OptionText {
        name: "exclude-table",
        short: None,
        takes: Takes::Texts("DB.TABLE"),
        help: "No rows of these tables, which are named in the same way; may be given again",
    },
    OptionText {
        name: "start-position",
        short: None,
        takes: Takes::Number,
        help: "Transactions that begin at this byte of the first FILE or behind it",
    },
    OptionText {
        name: "stop-position",
        short: None,
        takes: Takes::Number,
        help: "Transactions that begin before this byte of the last FILE",
    },
    OptionText {
        name: "start-datetime",
        short: None,
        takes: Takes::Text("TIME"),
        help: "Transactions that ended at this time or later, in UTC, as 2026-11-26T12:00:00",
    },
    OptionText {
        name: "stop-datetime",
        short: None,
        takes: Takes::Text("TIME"),
        help: "Transactions that ended before this time, in UTC",
    },
    OptionText {
        name: "server-id",
        short: None,
        takes: Takes::Number,
        help: "Transactions that this server created",
    },
    OptionText {
        name: "include-gtids",
        short: None,
        takes: Takes::Text("GTIDS"),
        help: "Transactions with one of these GTIDs of MySQL or MariaDB",
    },
    OptionText {
        name: "exclude-gtids",
        short: None,
        takes: Takes::Text("GTIDS"),
        help: "Transactions with none of these GTIDs",
    },
];
