//! Bytes in a room that was taken once and never grows.
ghost use Rattle.std.specs.Prelude.{◌≡◌, ◌≤◌, ◌++◌, [], IfOk, vec_capacity, ◌+◌, length, min, take};

use crate::Memory;
use std::alloc::Global;

/// Bytes, and how many fit.
#[derive(Drop)]
pub(crate) struct Room {
    pub(crate) bytes: Vec<u8>,
    pub(crate) size: usize,
    ghost within: { length bytes.items ≤ size },
    ghost reserved: { size ≤ vec_capacity bytes },
}

impl Room {
    ghost use Rattle.mon_io.specs.Room.{room_bytes, free_room};

    /// An empty room for `size` bytes.
    pub(crate) fn new(alloc: Global, size: usize) -> Result<Room, Memory>
        ensures empty { IfOk result (λ room. room_bytes room ≡ []) }
        ensures free { IfOk result (λ room. free_room room ≡ size) }
    {
        match Vec::with_capacity(alloc, size) {
            Ok(bytes) => Ok(Room { bytes, size }),
            Err(_) => Err(Memory),
        }
    }

    /// Appends as much of the piece as fits, and gives how much that is. It takes no memory.
    pub(crate) fn append(&mut self, piece: &[u8]) -> usize
        ensures count { result ≡ min (length piece.now) (free_room self.old) }
        ensures bytes { room_bytes self.new ≡ room_bytes self.old ++ take result piece.now }
        ensures free { free_room self.old ≡ free_room self.new + result }
    {
        let count = piece.len().min(self.free());
        self.bytes.extend_from_slice(&piece[..count]).unwrap();
        count
    }

    /// How many more bytes fit.
    pub(crate) fn free(&self) -> usize
        ensures { result ≡ free_room self.now }
    {
        self.size - self.bytes.len()
    }
}
