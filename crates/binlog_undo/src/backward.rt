//! Bytes that are made from their end.
ghost use Rattle.std.specs.Prelude.{◌≡◌, ◌≤◌, [], ◌++◌, length, OnOk, IfOk};

use std::alloc::{AllocError, Global};
use std::marker::Model;

/// Bytes that are made from their end: each part comes in front of the parts before it. Contracts see them, and how many more there is
/// room for.
#[derive(Debug, Drop)]
pub(crate) struct Backward {
    /// Room, and behind it the bytes.
    buffer: Vec<u8>,
    /// The length of the room.
    room: usize,
}

impl Model for Backward {
    ghost use Rattle.std.specs.Prelude.{◌≤◌, length, drop};
    ghost use Rattle.binlog_undo.specs.Backwards.{BackwardBytes};

    ghost Value = { BackwardBytes };

    ghost view = { λ bytes. record { made = drop bytes.room bytes.buffer.items; room = bytes.room } };

    ghost invariant = { λ bytes. bytes.room ≤ length bytes.buffer.items };
}

impl Backward {
    /// No bytes yet, and room for so many.
    pub(crate) fn with_room(alloc: Global, room: usize) -> Result<Self, AllocError>
        ensures { IfOk result (λ bytes. bytes.made ≡ []) }
    {
        Ok(Backward {
            buffer: vec![in alloc; 0; room]?,
            room,
        })
    }

    /// Puts a part in front of the bytes.
    pub(crate) fn prepend(&mut self, alloc: Global, part: &[u8]) -> Result<(), AllocError>
        ensures { OnOk result (self.new.made ≡ part.now ++ self.old.made) }
    {
        if self.room < part.len() {
            self.grow(alloc, part.len())?;
        }
        self.put(part);
        Ok(())
    }

    // Puts a part in front of the bytes, for which there is room.
    fn put(&mut self, part: &[u8])
        requires { length part.now ≤ self.old.room }
        ensures { self.new.made ≡ part.now ++ self.old.made }
    {
        let start = self.room - part.len();
        self.buffer[start..self.room].copy_from_slice(part);
        self.room = start;
    }

    // Makes room for so many bytes, and for as many as there are.
    fn grow(&mut self, alloc: Global, count: usize) -> Result<(), AllocError>
        ensures made { OnOk result (self.new.made ≡ self.old.made) }
        ensures room { OnOk result (count ≤ self.new.room) }
    {
        let made = &self.buffer[self.room..];
        let room = count.max(made.len());
        let mut buffer = Vec::new(alloc);
        buffer.resize(room, 0)?;
        buffer.extend_from_slice(made)?;
        self.buffer = buffer;
        self.room = room;
        Ok(())
    }

    /// The bytes.
    pub(crate) fn into_bytes(self, alloc: Global) -> Result<Vec<u8>, AllocError>
        ensures { IfOk result (λ bytes. bytes.items ≡ self.made) }
    {
        if self.room == 0 {
            return Ok(self.buffer);
        }
        Vec::from_slice(alloc, &self.buffer[self.room..])
    }
}
