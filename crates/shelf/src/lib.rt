// A shelf: a lent buffer of whole slots, each all zero (free), or a byte 1, a packet, and zeros to its end. What a packet
// says is not known here. A slot goes by its index: that it is there is said of the shelf lent with it, so no type of an
// index could hold it.
#![tactic(auto)]

ghost use Rattle.std.specs.Prelude.{◌≡◌, ◌-◌, ◌≤◌, ◌<◌, length, replicate};
ghost use Rattle.shelf.specs.Shelf.{slot_size, slots, whole_slots, slot_at, all_zero, slot_of, laid, free_slot, lowest_free, slot_or_none};

// The bytes of a slot.
pub const SLOT_SIZE: usize = 268;

// The most slots that a shelf has.
pub const SLOTS_MOST: usize = 32;

// Whether every byte is 0: four at a time, and then those that are left. The folds have no early exit, so that the
// compiler makes wide code of them; one fold over the bytes alone costs a call up to 8 % more.
pub fn is_zero(s: &[u8]) -> bool
    ensures { result ≡ all_zero s.now }
{
    let n = s.len() / 4;
    let fours = (0..n).fold(0, |fours, k| fours | vectors::bytes::gathered(s, 4 * k));
    let rest = s[4 * n..].iter().fold(0, |rest, byte| rest | *byte);
    (fours == 0) & (rest == 0)
}

// Whether a slot is free. One that is in use shows it by its first byte. Written out where it is called: a call of it costs
// an arrival or a release up to 5 % more.
#[tactic(auto, using(crate::proofs::Zeros::first_byte_not_zero))]
#[inline(always)]
pub fn is_free(slot: &[u8; SLOT_SIZE]) -> bool
    ensures { result ≡ all_zero slot.now }
{
    slot[0] == 0 && is_zero(slot)
}

// Whether the shelf is whole slots, and not too many of them.
pub fn has_whole_slots(shelf: &[u8]) -> bool
    ensures { result ≡ whole_slots shelf.now }
{
    (shelf.len() % SLOT_SIZE == 0) & (shelf.len() / SLOT_SIZE <= SLOTS_MOST)
}

// The bytes of slot i. The callers have found the slot to be there.
pub fn slot(shelf: &[u8], i: usize) -> &[u8; SLOT_SIZE]
    requires { i < slots shelf.now }
    ensures { result.now ≡ slot_at shelf.now i }
{
    &shelf.as_chunks::<SLOT_SIZE>().0[i]
}

// The first free slot.
pub fn lowest_free(shelf: &[u8]) -> Option<usize>
    ensures { result ≡ slot_or_none (slots shelf.now) (lowest_free shelf.now) }
{
    shelf.as_chunks::<SLOT_SIZE>().0.iter().position(is_free)
}

// A packet goes to slot i: a byte 1, the packet, and zeros to the slot's end. The callers have found the slot to be there
// and the packet to be short enough for it. Called and not written out: else arrivals that shelve nothing pay for it.
#[inline(never)]
pub fn lay(shelf: &mut [u8], i: usize, packet: &[u8])
    requires there { i < slots shelf.old }
    requires short { length packet.now ≤ slot_size - 1 }
    ensures { shelf.new ≡ laid shelf.old i (slot_of packet.now) }
{
    let start = SLOT_SIZE * i;
    let slot = &mut shelf[start..start + SLOT_SIZE];
    let packet_end = 1 + packet.len();
    slot[0] = 1;
    vectors::bytes::put_bytes(slot, 1, packet);
    slot[packet_end..].fill(0);
}

// Slot i is zeroed. The callers have found the slot to be there.
pub fn clear(shelf: &mut [u8], i: usize)
    requires { i < slots shelf.old }
    ensures { shelf.new ≡ laid shelf.old i free_slot }
{
    let start = SLOT_SIZE * i;
    shelf[start..start + SLOT_SIZE].fill(0);
}

// Every byte of the shelf is zeroed.
pub fn clear_all(shelf: &mut [u8])
    ensures { shelf.new ≡ replicate (length shelf.old) 0 }
{
    shelf.fill(0);
}
