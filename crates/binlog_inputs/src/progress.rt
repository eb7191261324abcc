//! The progress in a file, on a terminal.
ghost use Rattle.std.specs.Prelude.{◌≡◌, ◌<◌, ◌≤◌, ◌+◌, ◌^◌, ◌-◌, min, nat_lt, true, false, IsNone, IfSome, if◌then◌else◌};

// The size in bytes above which the progress in a file is shown, and the bytes between two of its lines.
const LARGE_FILE: u64 = 100_000_000;

const BYTES_BETWEEN: u64 = 16_777_216;

/// How much of a file is read: a line on standard error that is written again and again.
#[derive(Clone, Copy, Debug, PartialEq, Eq)]
pub struct Progress {
    // The size of the file in bytes.
    size: u64,
    // The position from which on the next line is due; 2^64 - 1 if none is.
    due: u64,
    // Whether a line stands on the terminal.
    is_shown: bool,
}

impl Progress {
    /// Shows nothing.
    pub fn hidden() -> Progress
        ensures { result ≡ record { size = 0; due = 2 ^ 64 - 1; is_shown = false } }
    {
        Progress {
            size: 0,
            due: u64::MAX,
            is_shown: false,
        }
    }

    /// Shows the progress in a file of this size in bytes if it is above 100,000,000.
    pub fn in_file(size: u64) -> Progress
        ensures { result ≡ record { size = size; due = if nat_lt 100000000 size then 16777216 else 2 ^ 64 - 1; is_shown = false } }
    {
        let due = if size > LARGE_FILE {
            BYTES_BETWEEN
        } else {
            u64::MAX
        };
        Progress {
            size,
            due,
            is_shown: false,
        }
    }

    /// Writes the line if it is due: how many bytes are read of how many, and the number of events. Nothing is written if the
    /// position isn't known.
    #[inline(always)]
    pub fn note<E: Eprint>(&mut self, rt: &E, position: Option<u64>, events: u64)
        ensures unknown { IsNone position → self.new ≡ self.old }
        ensures early { IfSome position (λ n. n < self.old.due → self.new ≡ self.old) }
        ensures due { IfSome position (λ n. self.old.due ≤ n → self.new ≡ record self.old { due = min (n + 16777216) (2 ^ 64 - 1); is_shown = true }) }
    {
        let Some(position) = position else {
            return;
        };
        if position >= self.due {
            self.show(rt, position, events);
        }
    }

    // Writes the line. It isn't inlined, so that it costs nothing where no line is due.
    #[inline(never)]
    fn show<E: Eprint>(&mut self, rt: &E, position: u64, events: u64)
        ensures { self.new ≡ record self.old { due = min (position + 16777216) (2 ^ 64 - 1); is_shown = true } }
    {
        self.due = position.saturating_add(BYTES_BETWEEN);
        self.is_shown = true;
        let size = self.size;
        let _ = eprint!(rt; "\r{position} of {size} bytes, {events} events\x1b[K");
    }

    /// Wipes the line, so that something else can be written in its place.
    pub fn wipe<E: Eprint>(&mut self, rt: &E)
        ensures { self.new ≡ record self.old { is_shown = false } }
    {
        if self.is_shown {
            self.is_shown = false;
            let _ = eprint!(rt; "\r\x1b[K");
        }
    }
}
