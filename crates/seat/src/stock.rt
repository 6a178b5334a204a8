// The packets on a shelf, as a seat sees them.
ghost use Rattle.std.specs.Prelude.{◌≡◌, false, ◌+◌, ◌≤◌, ◌<◌, length, drop, MatchBool, MatchOption};
ghost use Rattle.vectors.specs.Vectors.{entry};
ghost use Rattle.packet.specs.Packet.{first_bad_point};
ghost use Rattle.shelf.specs.Shelf.{slots};
ghost use Rattle.seat.specs.Stock.{named_length, packet_in, sound_slots};
ghost use Rattle.seat.specs.Survey.{marked_with, is_sooner, Counted, Looked, Looking, Surveyed};
ghost use Rattle.seat.specs.Steps.{LookedOver};

use super::Seat;
use super::admission::{admit, window_with};
use answers::{EditNo, SeatNo};
use packet::{HEAD_LEN, Message};
use shelf::SLOT_SIZE;

// A ready packet on the shelf: its slot, and by what it comes first.
#[derive(Clone, Copy)]
pub struct Ready {
    pub slot: usize,
    pub sender: SeatNo,
    pub number: EditNo,
}

// What one look over a sound shelf finds: the numbers that are handed over or on the shelf, a word for each sender, laid
// out as ahead is; and where a packet is to be chosen, the ready one that comes first.
#[derive(Clone, Copy)]
pub struct Stock {
    pub marks: [u64; 16],
    pub first: Option<Ready>,
}

// Where the packet on a slot ends, as its own fields say.
fn end_in(slot: &[u8; SLOT_SIZE]) -> usize
    ensures { result ≡ 1 + named_length (drop 1 slot.now) }
{
    let seats = (slot[1] % 16) as usize + 1;
    let body = slot[3] as usize;
    1 + HEAD_LEN + 4 * seats + body
}

// The part of a slot that holds its packet; empty where the slot holds none, as its definition has it, and reading refuses
// that.
pub fn packet_in(slot: &[u8; SLOT_SIZE]) -> &[u8]
    ensures { result.now ≡ packet_in slot.now }
{
    let end = end_in(slot);
    if slot[0] != 1 {
        return &slot[..0];
    }
    if SLOT_SIZE < end {
        return &slot[..0];
    }
    if !shelf::is_zero(&slot[end..]) {
        return &slot[..0];
    }
    &slot[1..end]
}

// The same of a slot whose packet was found well formed: its own fields say where it ends.
pub fn held_in(slot: &[u8; SLOT_SIZE]) -> &[u8]
    requires { first_bad_point (packet_in slot.now) ≡ 0 }
    ensures { result.now ≡ packet_in slot.now }
{
    let end = end_in(slot);
    &slot[1..end]
}

// A message's number is marked in the words. The caller has found the number to be in the sender's window.
fn mark_in(run: &[u16; 16], marks: &mut [u64; 16], message: &Message)
    requires new { entry run.now message.now.heading.sender < entry message.now.past message.now.heading.sender }
    requires near { entry message.now.past message.now.heading.sender ≤ entry run.now message.now.heading.sender + 64 }
    ensures { marks.new ≡ marked_with run.now marks.old message.now.heading.sender (entry message.now.past message.now.heading.sender) }
{
    let window = window_with(run, &*marks, message).mark(message.number());
    marks[message.heading.sender.index()] = window.ahead;
}

impl Ready {
    // Whether this packet is released sooner: by sender, then by number.
    fn is_sooner(self, other: Ready) -> bool
        ensures { result ≡ is_sooner self other }
    {
        (self.sender, self.number) < (other.sender, other.number)
    }
}

// The packet on slot i is counted in: its number is marked. Where a packet is to be chosen, it is the first so far where
// it is ready and sooner. The caller has found its number to be in the sender's window.
fn count_in(choosing: bool, seat: &Seat, stock: &mut Stock, i: usize, message: &Message)
    requires new { entry seat.now.run message.now.heading.sender < entry message.now.past message.now.heading.sender }
    requires near { entry message.now.past message.now.heading.sender ≤ entry seat.now.run message.now.heading.sender + 64 }
    ensures { Counted choosing seat.now stock.old i message.now.heading.sender message.now.past message.now.barrier stock.new }
{
    mark_in(&seat.run, &mut stock.marks, message);
    if choosing && seat.is_ready(message.barrier) {
        let next = Ready {
            slot: i,
            sender: message.heading.sender,
            number: message.number(),
        };
        if stock.first.is_none_or(|first| next.is_sooner(first)) {
            stock.first = Some(next);
        }
    }
}

// Whether slot i is sound, and if so it is counted in. The caller has found the slot to be there and in use, and those
// before it to be sound. The stock is lent: an Option of the first, with the words handed round, costs up to 2.2 % more.
fn look(choosing: bool, seat: &Seat, shelf: &[u8], i: usize, stock: &mut Stock) -> bool
    requires { Looking choosing i seat.now shelf.now stock.old }
    ensures long { length stock.new.marks ≡ 16 }
    ensures looked { MatchBool result (Looked choosing (i + 1) seat.now shelf.now stock.new) (sound_slots (i + 1) seat.now shelf.now ≡ false) }
{
    let slot = shelf::slot(shelf, i);
    let Ok(message) = packet::read_message(packet_in(slot)) else {
        return false;
    };
    if admit(seat, &stock.marks, &message).is_err() {
        return false;
    }
    count_in(choosing, seat, stock, i, &message);
    true
}

// One look over the shelf, for the ready packet that comes first too where one is to be chosen: none where a slot is not
// sound.
pub fn survey(choosing: bool, seat: Seat, shelf: &[u8]) -> Option<Stock>
    ensures { MatchOption result (sound_slots (slots shelf.now) seat shelf.now ≡ false) (λ stock. Surveyed choosing seat shelf.now stock) }
{
    let marks = seat.ahead;
    let mut stock = Stock { marks, first: None };
    for (i, slot) in shelf.as_chunks::<SLOT_SIZE>().0.iter().enumerate() {
        if !shelf::is_free(slot) && !look(choosing, &seat, shelf, i, &mut stock) {
            return None;
        }
    }
    Some(stock)
}

// One look over state and shelf: none where one of them is not sound. The flag stays: the contracts of count_in, look and
// survey would speak of a closure in its place as they speak of it.
pub fn look_over(choosing: bool, seat: Seat, shelf: &[u8]) -> Option<Stock>
    ensures { LookedOver choosing seat shelf.now result }
{
    if !seat.is_sound() {
        return None;
    }
    if !shelf::has_whole_slots(shelf) {
        return None;
    }
    survey(choosing, seat, shelf)
}
