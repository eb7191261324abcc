//! The words of the command line of `binlog`: its commands, their options and their help.
use crate::command_text::{CommandText, OptionText, Takes};
use clap::Command;
use std::alloc::{AllocError, Global};

// The version, and how the program was made.
const VERSION: &str = "0.1.0 (proved)";

/// The program and its commands.
pub fn command<'a>(alloc: Global) -> Result<Command<'a>, AllocError> {
    let mut command = Command::new(alloc, "binlog")
        .bin_name("binlog")?
        .version(VERSION)
        .about("Lists, checks, counts and copies the events of MySQL binary logs")
        .after_help(
            "Messages go to standard error, as 'binlog: FILE: event INDEX at byte POSITION: ERROR'. All files are read.\n\
             Exit status: 0, all is well; 1, a file can't be opened or is no binary log; 2, something in a log is damaged;\n\
             3, memory, a reader or a writer failed; 64, wrong usage. The worst counts.\n\n\
             Examples:\n  \
             binlog list mysql-bin.000007\n  \
             binlog json --type XID mysql-bin.000007 | jq .data.xid\n  \
             zcat mysql-bin.000007.gz | binlog verify -",
        )
        .arg_required_else_help(true)
        .subcommand_required(true);
    for text in COMMANDS {
        let subcommand = text.command(alloc)?;
        command = command.subcommand(subcommand)?;
    }
    Ok(command)
}

const COMMANDS: &[CommandText] = &[LIST, JSON, GTIDS, VERIFY, STATS, COPY];

const LIST: CommandText = CommandText {
    name: "list",
    about: "Lists each event: index type size log_pos flags data_len checksum word",
    after_help: "The word is read, unknown (an unknown type) or refused (a malformed body). A damaged event has the line\n\
        'index error E<number>'.\n\n\
        Examples:\n  \
        binlog list mysql-bin.000007 mysql-bin.000008\n  \
        binlog list --start-position 4711 --stop-position 9000 mysql-bin.000007",
    reads_input: true,
    options: &[FOLLOWING, PROGRESS, FILTERS],
};

const JSON: CommandText = CommandText {
    name: "json",
    about: "Prints each event as a line of JSON",
    after_help: "Examples:\n  \
        binlog json --type QUERY mysql-bin.000007 | jq -r .data.query\n  \
        binlog json --include-gtids 3e11fa47-71ca-11e1-9e33-c80aa9429562:5 mysql-bin.000007\n  \
        binlog json --include-gtids 0-1-100,0-1-101 mariadb-bin.000007\n  \
        binlog json --columns columns.tsv mysql-bin.000007\n  \
        binlog json --compact --table shop.orders mysql-bin.000007\n  \
        binlog json --follow --type QUERY mysql-bin.000008 | jq -r .data.query",
    reads_input: true,
    options: &[FOLLOWING, ROWS, PROGRESS, FILTERS],
};

const GTIDS: CommandText = CommandText {
    name: "gtids",
    about: "Lists the GTIDs of the files together, and their gaps, a line for each source and tag",
    after_help: "Examples:\n  \
        binlog gtids mysql-bin.000007 mysql-bin.000008\n  \
        binlog gtids --missing-in replica-bin.000001 mysql-bin.000007",
    reads_input: true,
    options: &[MISSING, PROGRESS, FILTERS],
};

const VERIFY: CommandText = CommandText {
    name: "verify",
    about: "Reads files with their checksums verified, and prints a line for each file",
    after_help: "Examples:\n  \
        binlog verify mysql-bin.*\n  \
        binlog verify --quiet mysql-bin.000007 || echo damaged",
    reads_input: true,
    options: &[QUIET, PROGRESS, FILTERS],
};

const STATS: CommandText = CommandText {
    name: "stats",
    about: "Counts the events of the files together: by type, their bytes, transactions, times, the largest event",
    after_help: "Examples:\n  \
        binlog stats mysql-bin.000007\n  \
        binlog stats --server-id 1 mysql-bin.*\n  \
        binlog stats --by table --top 20 mysql-bin.*\n  \
        binlog stats --by time=5m mysql-bin.*\n  \
        binlog stats --by transaction --top 10 mysql-bin.*\n  \
        binlog stats --follow --every 60s mysql-bin.000007\n  \
        binlog stats --by table --json mysql-bin.000007 | jq 'select(.table == \"orders\").inserted'",
    reads_input: true,
    options: &[COUNTING, REPEATING, PROGRESS, FILTERS],
};

const COPY: CommandText = CommandText {
    name: "copy",
    about: "Writes a log of the events that the filters take, byte for byte, with all format descriptions",
    after_help: "Examples:\n  \
        binlog copy --start-position 4711 -o part.bin mysql-bin.000007\n  \
        binlog copy --exclude-gtids 3e11fa47-71ca-11e1-9e33-c80aa9429562:5 -o - mysql-bin.000007 | binlog list -",
    reads_input: true,
    options: &[OUTPUT, PROGRESS, FILTERS],
};

const FOLLOW: OptionText = OptionText {
    name: "follow",
    short: Some('f'),
    takes: Takes::Nothing,
    help: "Waits at the end of the last file for more events, as tail -f does",
};

// Waiting for more events, and where that goes on.
const FOLLOWING: &[OptionText] = &[
    FOLLOW,
    OptionText {
        name: "state",
        short: None,
        takes: Takes::Text("STATE"),
        help: "With --follow: goes on where the file STATE says, and keeps there how far it is",
    },
    OptionText {
        name: "sync",
        short: None,
        takes: Takes::Nothing,
        help: "With --state: waits until lines and state are on their devices",
    },
];

// Waiting for more events, and how often counts are printed.
const REPEATING: &[OptionText] = &[
    FOLLOW,
    OptionText {
        name: "every",
        short: None,
        takes: Takes::Text("TIME"),
        help: "With --follow: prints the counts so far once all is read, and again each time that so much time has passed, as 60s, 5m or 1h",
    },
];

// The rows of row events.
const ROWS: &[OptionText] = &[
    OptionText {
        name: "compact",
        short: None,
        takes: Takes::Nothing,
        help: "Prints the rows of row events, a line for each; a row event whose rows can't be read keeps its own line",
    },
    OptionText {
        name: "stored",
        short: None,
        takes: Takes::Nothing,
        help: "Keeps the stored bytes of rows also where all their values are shown",
    },
    OptionText {
        name: "columns",
        short: None,
        takes: Takes::Texts("COLUMNS"),
        help: "Names, signs, members and character sets of columns that the log doesn't state, from this file; may be given again",
    },
];

// Which GTIDs are listed.
const MISSING: &[OptionText] = &[OptionText {
    name: "missing-in",
    short: None,
    takes: Takes::Text("LOG"),
    help: "Only the GTIDs that this log lacks",
}];

// What is printed of files.
const QUIET: &[OptionText] = &[OptionText {
    name: "quiet",
    short: Some('q'),
    takes: Takes::Nothing,
    help: "Prints nothing; the exit status says whether all is well",
}];

// What is counted together, and how that is printed.
const COUNTING: &[OptionText] = &[
    OptionText {
        name: "by",
        short: None,
        takes: Takes::Text("GROUP"),
        help: "What is counted: events by type, which is the default; rows by table; events by time, as time=60s, time=5m or time=1h; or transaction sizes, by transaction",
    },
    OptionText {
        name: "top",
        short: None,
        takes: Takes::Number,
        help: "With --by table or --by transaction: only the N with most bytes",
    },
    OptionText {
        name: "json",
        short: None,
        takes: Takes::Nothing,
        help: "Prints lines of JSON",
    },
];

// Where the copy goes.
const OUTPUT: &[OptionText] = &[OptionText {
    name: "output",
    short: Some('o'),
    takes: Takes::NeededText("OUT"),
    help: "The log that is written, a new file; - is standard output",
}];

// What is shown while files are read.
const PROGRESS: &[OptionText] = &[OptionText {
    name: "no-progress",
    short: None,
    takes: Takes::Nothing,
    help: "Shows no progress in files above 100 MB on a terminal",
}];

// The filters of events.
const FILTERS: &[OptionText] = &[
    OptionText {
        name: "start-position",
        short: None,
        takes: Takes::Number,
        help: "Events that begin at this byte of the first FILE or behind it",
    },
    OptionText {
        name: "stop-position",
        short: None,
        takes: Takes::Number,
        help: "Events that begin before this byte of the last FILE",
    },
    OptionText {
        name: "start-datetime",
        short: None,
        takes: Takes::Text("TIME"),
        help: "Events of this time or later, in UTC, as 2026-11-26T12:00:00",
    },
    OptionText {
        name: "stop-datetime",
        short: None,
        takes: Takes::Text("TIME"),
        help: "Events before this time, in UTC",
    },
    OptionText {
        name: "server-id",
        short: None,
        takes: Takes::Number,
        help: "Events that this server created",
    },
    OptionText {
        name: "type",
        short: None,
        takes: Takes::Texts("NAME"),
        help: "Events of this type of MySQL or MariaDB, as XID or XID_EVENT; may be given again",
    },
    OptionText {
        name: "include-gtids",
        short: None,
        takes: Takes::Text("GTIDS"),
        help: "Whole transactions with one of these GTIDs of MySQL or MariaDB",
    },
    OptionText {
        name: "exclude-gtids",
        short: None,
        takes: Takes::Text("GTIDS"),
        help: "Whole transactions with none of these GTIDs",
    },
    OptionText {
        name: "table",
        short: None,
        takes: Takes::Texts("DB.TABLE"),
        help: "Rows and table maps of these tables; * stands for any bytes, ? for one; may be given again",
    },
    OptionText {
        name: "database",
        short: None,
        takes: Takes::Texts("DB"),
        help: "Rows, table maps and statements of these databases, as --table; may be given again",
    },
];
