// The bytes of a session: its shelves and its packets, each in pieces of one size.
ghost use Rattle.std.specs.Prelude.{◌≡◌, ◌+◌, ◌*◌, ◌^◌, ◌<◌, length};
ghost use Rattle.steps.specs.Memory.{shelves_size, packets_size};

use std::ops::Range;

// 16 shelves of 8 slots.
const SHELVES_SIZE: usize = 34304;

// 256 packets of 67 bytes.
const PACKETS_SIZE: usize = 17152;

// The two buffers of a list, with room for every session, for who owns them and lends both fields for the whole list. A
// list takes any two slices of these lengths.
#[derive(Drop)]
pub struct Memory {
    pub shelves: [u8; SHELVES_SIZE],
    pub packets: [u8; PACKETS_SIZE],
}

impl Memory {
    pub fn new() -> Memory
        ensures shelves { length result.shelves ≡ shelves_size }
        ensures packets { length result.packets ≡ packets_size }
    {
        Memory {
            shelves: [0; SHELVES_SIZE],
            packets: [0; PACKETS_SIZE],
        }
    }
}

// Where the piece at an index stands.
pub(crate) fn piece_at(size: usize, at: usize) -> Range<usize>
    requires end { size * at + size < 2 ^ 64 }
    ensures start { result.start ≡ size * at }
    ensures end { result.end ≡ size * at + size }
{
    let start = size * at;
    start..start + size
}
