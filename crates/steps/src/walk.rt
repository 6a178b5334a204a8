// The session that a step list walks, and its three kinds of step. The functions that ask something of their callers are
// called once the line's numbers were found to be in range.
ghost use Rattle.std.specs.Prelude.{◌≡◌, ℕ, ◌+◌, ◌*◌, ◌≤◌, ◌<◌, ◌==◌, ◌&&◌, List, length, take};
ghost use Rattle.std.specs.List.{position};
ghost use Rattle.answers.specs.Answers.{bare};
ghost use Rattle.steps.specs.Session.{send_told, arrive_told, release_told, wish_of, step_told};
ghost use Rattle.steps.specs.Memory.{shelf_size, session_in, shelves_size, packets_size, Bounded, Walks, index_in, with_edit, walked_to, SentEmpty};

use super::memory::piece_at;
use answers::{Answer, Edit, Report};
use lines::{Letter, Step};
use packet::HEAD_LEN;
use seat::{Seat, Stepped, Wish};
use shelf::SLOT_SIZE;
use std::ops::Range;

// The bytes that the longest packet takes: 16 seats and no body.
const PACKET_MOST: usize = 67;

// The send lines that are taken.
const SENDS_MOST: usize = 256;

// What a line is answered that cannot be read, or that names no seat or no packet.
pub const UNKNOWN: u8 = 21;

// A session of n seats, each with a shelf of so many slots. Seat k's state stands at index k - 1, and its shelf at that
// place of the shelves. Packet i was the i-th that was sent, and carries the edit at i.
// The kit's ArrayVec for edits and letters is not Copy, so the public Course, which holds this, would no longer be.
// Its bounds stand in `requires`: specs/Memory builds walks as records, and a ghost field would stand in each.
#[derive(Clone, Copy)]
pub struct Walk {
    pub n: u8,
    pub slots: usize,
    pub sends: usize,
    pub letters: usize,
    pub seats: [Seat; 16],
    pub edits: [Edit; 256],
}

// What a step was answered, and the walk after it.
#[derive(Clone, Copy)]
pub struct Walked {
    pub walk: Walk,
    pub report: Report,
}

// The send of an edit with no body, whose packet is as long as n says.
fn send_empty(seat: Seat, wish: Wish, out: &mut [u8]) -> Stepped
    ensures { SentEmpty seat wish out.old result out.new }
{
    seat.send(wish, b"", out)
}

// A missing letter means usual. Both types are other crates', so this is no From.
fn wish_of(letter: Option<Letter>) -> Wish
    ensures { result ≡ wish_of letter }
{
    match letter {
        Some(Letter::Ordinary) => Wish::Ordinary,
        Some(Letter::Causal) => Wish::Causal,
        None => Wish::Usual,
    }
}

// Whether this is the edit of that sender and number, which a line names: they need not be a seat's and an edit's.
fn carries(edit: Edit, sender: u32, number: u32) -> bool
    ensures { result ≡ ((edit.sender.0 == sender) && (edit.number.0 == number)) }
{
    (edit.sender.0 as u32 == sender) & (edit.number.0 as u32 == number)
}

impl Walk {
    // The packet that was sent last is noted.
    fn with_edit(mut self, answer: Answer) -> Walk
        requires { self.letters < 256 }
        ensures { result ≡ with_edit self answer }
    {
        if let Answer::Done(edit) = answer {
            self.edits[self.letters] = edit;
            self.letters += 1;
        }
        self
    }

    // The answer of a step at the seat at an index, whose next state is kept.
    fn moved_on(mut self, at: usize, stepped: Stepped) -> Walked
        requires { at < 16 }
        ensures { result ≡ walked_to self at stepped.seat stepped.answer }
    {
        self.seats[at] = stepped.seat;
        Walked {
            walk: self,
            report: stepped.answer.report(),
        }
    }

    // 21, and nothing changes.
    fn unknown(self) -> Walked
        ensures { result ≡ record { walk = self; report = bare 21 } }
    {
        Walked {
            walk: self,
            report: Report::bare(UNKNOWN),
        }
    }

    // The index of a seat of the session.
    fn index(&self, seat: u32) -> Option<usize>
        ensures { result ≡ index_in self.now seat }
    {
        if (1 <= seat) & (seat <= self.n as u32) {
            return Some((seat - 1) as usize);
        }
        None
    }

    // Where the shelf of the seat at an index stands.
    fn shelf(&self, at: usize) -> Range<usize>
        requires seats { at < 16 }
        requires slots { self.now.slots ≤ 8 }
        ensures start { result.start ≡ shelf_size self.now * at }
        ensures end { result.end ≡ shelf_size self.now * at + shelf_size self.now }
    {
        piece_at(self.slots * SLOT_SIZE, at)
    }

    // The packet that carries this edit.
    fn find(&self, sender: u32, number: u32) -> Option<usize>
        requires { self.now.letters ≤ 256 }
        ensures { result ≡ position (λ edit. (edit.sender.0 == sender) && (edit.number.0 == number)) (take self.now.letters self.now.edits) }
    {
        let edits = &self.edits[..self.letters];
        edits.iter().position(|edit| carries(*edit, sender, number))
    }

    // The seat sends an edit with no body.
    fn send(self, seat: u32, wish: Wish, packets: &mut [u8]) -> Walked
        requires bounded { Bounded self }
        requires packets { length packets.old ≡ packets_size }
        ensures { (shelves : List ℕ) → Walks (send_told (session_in self shelves packets.old) seat wish) result shelves packets.new }
    {
        let full = SENDS_MOST <= self.sends;
        if full {
            return self.unknown();
        }
        let next = Walk {
            sends: self.sends + 1,
            ..self
        };
        let Some(at) = next.index(seat) else {
            return next.unknown();
        };
        let room = &mut packets[piece_at(PACKET_MOST, next.letters)];
        let sent = send_empty(next.seats[at], wish, room);
        let answer = sent.answer;
        next.with_edit(answer).moved_on(at, sent)
    }

    // The packet of that sender and number arrives at the seat.
    fn arrive(
        self,
        seat: u32,
        sender: u32,
        number: u32,
        packets: &[u8],
        shelves: &mut [u8],
    ) -> Walked
        requires bounded { Bounded self }
        requires packets { length packets.now ≡ packets_size }
        requires shelves { length shelves.old ≡ shelves_size }
        ensures { Walks (arrive_told (session_in self shelves.old packets.now) seat sender number) result shelves.new packets.now }
    {
        let Some(at) = self.index(seat) else {
            return self.unknown();
        };
        let Some(i) = self.find(sender, number) else {
            return self.unknown();
        };
        let seats = self.n as usize;
        let packet = &packets[piece_at(PACKET_MOST, i)][..HEAD_LEN + 4 * seats];
        let arrived = self.seats[at].arrive(packet, &mut shelves[self.shelf(at)]);
        self.moved_on(at, arrived)
    }

    // The seat releases. Bodies are empty, and so is the output.
    fn release(self, seat: u32, shelves: &mut [u8]) -> Walked
        requires bounded { Bounded self }
        requires shelves { length shelves.old ≡ shelves_size }
        ensures { (packets : List ℕ) → Walks (release_told (session_in self shelves.old packets) seat) result shelves.new packets }
    {
        let Some(at) = self.index(seat) else {
            return self.unknown();
        };
        let released = self.seats[at].release(&mut shelves[self.shelf(at)], &mut []);
        self.moved_on(at, released)
    }

    // A line after the first, or none that can be read.
    pub fn step(self, step: Option<Step>, shelves: &mut [u8], packets: &mut [u8]) -> Walked
        requires bounded { Bounded self }
        requires shelves { length shelves.old ≡ shelves_size }
        requires packets { length packets.old ≡ packets_size }
        ensures { Walks (step_told (session_in self shelves.old packets.old) step) result shelves.new packets.new }
    {
        let Some(step) = step else {
            return self.unknown();
        };
        match step {
            Step::Send(seat, letter) => self.send(seat, wish_of(letter), packets),
            Step::Arrive(seat, sender, number) => self.arrive(
                seat, sender, number, packets, shelves,
            ),
            Step::Release(seat) => self.release(seat, shelves),
        }
    }
}
