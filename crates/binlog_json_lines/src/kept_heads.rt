//! The type, the time and the server of an event in a line, kept for the events behind it.
#![tactic(auto, using(std::proofs::Common::append_assoc))]

ghost use Rattle.std.specs.Prelude.{◌≡◌, ◌<◌};
ghost use Rattle.std.specs.Bool.{OnTrue};
ghost use Rattle.json_line.specs.Tokens.{Adds};
ghost use Rattle.binlog_json_lines.specs.ItemLines.{origin_members};

use crate::header_members::write_origin;
use binlog_file::BinlogEventHeader;
use json_line::Line;
use std::alloc::{AllocError, Global};

/// At most how many heads are kept. No two of MySQL's types have the same remainder by it.
const PLACES: usize = 64;

/// The type, the time and the server of an event, with the members that they have in a line.
#[derive(Drop)]
struct PrintedHead {
    event_type: u8,
    timestamp: u32,
    server_id: u32,
    members: Line,
    ghost printed: { members ≡ origin_members event_type timestamp server_id },
}

impl PrintedHead {
    // Prints the members of this header. What is allocated is their line.
    fn new(alloc: Global, header: &BinlogEventHeader) -> Result<Self, AllocError> {
        let mut members = Line::new(alloc);
        write_origin(&mut members, header)?;
        Ok(PrintedHead {
            event_type: header.event_type_raw(),
            timestamp: header.timestamp(),
            server_id: header.server_id(),
            members,
        })
    }

    // Whether the type, the time and the server are those of this header.
    #[inline(always)]
    fn is_of(&self, header: &BinlogEventHeader) -> bool
        ensures { OnTrue result ((self.now.timestamp ≡ header.now.timestamp) × (self.now.server_id ≡ header.now.server_id) × (self.now.event_type ≡ header.now.event_type)) }
    {
        self.timestamp == header.timestamp()
            && self.server_id == header.server_id()
            && self.event_type == header.event_type_raw()
    }

    // Writes the members.
    #[inline(always)]
    fn write(&self, line: &mut Line) -> Result<(), AllocError>
        ensures { Adds result line.old line.new (origin_members self.now.event_type self.now.timestamp self.now.server_id) }
    {
        line.copied_members(&self.members)?;
        Ok(())
    }
}

/// The type, the time and the server of events, with the members that they have in a line: they are kept where two events of a type in
/// turn are of the same second and server, and copied for those behind them. The memory is that of the members of one event for each
/// remainder of the types by [`PLACES`].
#[derive(Drop)]
pub(crate) struct KeptHeads {
    heads: Vec<Option<PrintedHead>>,
    /// The time and the server of the last event in each place whose members were not copied; 0 before the first.
    last_times: [u32; 64],
    last_servers: [u32; 64],
}

/// The place of a type.
#[inline(always)]
fn place(event_type: u8) -> usize
    ensures { result < 64 }
{
    usize::from(event_type) % PLACES
}

impl KeptHeads {
    /// None yet. Nothing is allocated.
    pub(crate) fn new(alloc: Global) -> Self {
        KeptHeads {
            heads: Vec::new(alloc),
            last_times: [0; 64],
            last_servers: [0; 64],
        }
    }

    /// Writes the members that state the type, the time and the server of an event.
    ///
    /// # Errors
    ///
    /// [`AllocError`] if an allocation fails. Some members may then have been written.
    #[inline(always)]
    pub(crate) fn write(
        &mut self,
        line: &mut Line,
        alloc: Global,
        header: &BinlogEventHeader,
    ) -> Result<(), AllocError>
        ensures { Adds result line.old line.new (origin_members header.now.event_type header.now.timestamp header.now.server_id) }
    {
        if let Some(printed) = self.kept(header.event_type_raw())
            && printed.is_of(header)
        {
            printed.write(line)?;
            return Ok(());
        }
        self.write_others(line, alloc, header)
    }

    // What is kept in the place of this type.
    #[inline(always)]
    fn kept(&self, event_type: u8) -> Option<&PrintedHead> {
        match self.heads.get(place(event_type)) {
            Some(head) => head.as_ref(),
            None => None,
        }
    }

    // Writes the members of a header that isn't kept, and keeps them if the event before in its place had the same.
    #[inline(never)]
    fn write_others(
        &mut self,
        line: &mut Line,
        alloc: Global,
        header: &BinlogEventHeader,
    ) -> Result<(), AllocError>
        ensures { Adds result line.old line.new (origin_members header.now.event_type header.now.timestamp header.now.server_id) }
    {
        if self.is_repeated(header) {
            self.keep(alloc, header)?;
        }
        write_origin(line, header)
    }

    // Notes an event. The result is whether the last one in the same place was of the same second and server.
    fn is_repeated(&mut self, header: &BinlogEventHeader) -> bool {
        let index = place(header.event_type_raw());
        let (time, server) = (self.last_times[index], self.last_servers[index]);
        self.last_times[index] = header.timestamp();
        self.last_servers[index] = header.server_id();
        time == header.timestamp() && server == header.server_id()
    }

    // Keeps the members of this header in the place of its type.
    fn keep(&mut self, alloc: Global, header: &BinlogEventHeader) -> Result<(), AllocError> {
        for _place in self.heads.len()..PLACES {
            self.heads.push(None)?;
        }
        let printed = PrintedHead::new(alloc, header)?;
        if let Some(kept) = self.heads.get_mut(place(header.event_type_raw())) {
            *kept = Some(printed);
        }
        Ok(())
    }
}
