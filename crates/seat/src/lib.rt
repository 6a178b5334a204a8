// A seat of a shared session: its state, and the four steps open, send, arrive and release (document 01, "The steps").
#![tactic(auto)]

mod admission;
mod arrival;
mod sending;
mod state;
mod stock;
mod taking;

ghost use Rattle.std.specs.Prelude.{◌≡◌};
ghost use Rattle.seat.specs.State.{counting};
ghost use Rattle.seat.specs.Opening.{OpenedAs};
ghost use Rattle.seat.specs.Arriving.{Arrived};
ghost use Rattle.seat.specs.Releasing.{Released};
ghost use Rattle.seat.specs.Sending.{Sent};

use answers::{Answer, Edit, EditNo, Refusal, SeatNo};
use arrival::settle;
use packet::{BODY_MOST, HEAD_LEN, Header, Kind};
use stock::look_over;
use taking::take;

// The highest count.
pub const COUNT_MOST: u16 = 65535;

// The state by value, in document 01's four arrays: tests go over a whole array at once. Entry k - 1 of each is seat k's.
// The shelf stands beside it throughout, as document 01 has it, for a shelf is lent.
#[derive(Clone, Copy)]
pub struct Seat {
    pub n: u8,
    pub own: SeatNo,
    pub past: [u16; 16],
    pub barrier: [u16; 16],
    pub run: [u16; 16],
    pub ahead: [u64; 16],
}

// A state of zeros only, which is not sound. A refused open hands it back (`opened_seat`), as each step hands back a state.
pub const NO_SEAT: Seat = Seat {
    n: 0,
    own: SeatNo(0),
    past: [0; 16],
    barrier: [0; 16],
    run: [0; 16],
    ahead: [0; 16],
};

// The kind that a sender wishes for.
#[derive(Clone, Copy)]
pub enum Wish {
    Ordinary,
    Causal,
    Usual,
}

// What a step answers, and the next state.
#[derive(Clone, Copy)]
pub struct Stepped {
    pub seat: Seat,
    pub answer: Answer,
}

// A state with all counts zero.
fn counting_from_zero(n: u8, own: SeatNo) -> Seat
    ensures { result ≡ counting n own }
{
    Seat { n, own, ..NO_SEAT }
}

// A refusal, with the state that it hands back.
fn refuse(seat: Seat, refusal: Refusal) -> Stepped
    ensures { result ≡ record { seat = seat; answer = Answer.Refused refusal } }
{
    Stepped {
        seat,
        answer: Answer::Refused(refusal),
    }
}

impl Seat {
    // Opens a seat with all counts zero, and zeroes its shelf. A refused open hands back no seat.
    pub fn open(n: u8, own: SeatNo, shelf: &mut [u8]) -> Stepped
        ensures { OpenedAs n own shelf.old result shelf.new }
    {
        let header = Header { n, sender: own };
        if !header.is_in_range() {
            return refuse(NO_SEAT, Refusal::NoSuchSeat);
        }
        if !shelf::has_whole_slots(shelf) {
            return refuse(NO_SEAT, Refusal::NotSound);
        }
        shelf::clear_all(shelf);
        Stepped {
            seat: counting_from_zero(n, own),
            answer: Answer::Opened,
        }
    }

    // Sends an edit, lines 1 to 4: its packet goes to the start of the output.
    pub fn send(self, wish: Wish, body: &[u8], out: &mut [u8]) -> Stepped
        ensures { Sent self wish body.now out.old result out.new }
    {
        if !self.is_sound() {
            return refuse(self, Refusal::NotSound);
        }
        if BODY_MOST < body.len() {
            return refuse(self, Refusal::BodyTooLong);
        }
        let count = self.own_count();
        if count == COUNT_MOST {
            return refuse(self, Refusal::CountFull);
        }
        let length = HEAD_LEN + 4 * self.n as usize + body.len();
        if out.len() < length {
            return refuse(self, Refusal::OutputTooShort);
        }
        let kind = Kind::from(wish);
        let past = self.past_sent();
        self.message_sent(kind, past).put(body, out);
        Stepped {
            seat: self.after_sending(kind, past),
            answer: Answer::Done(Edit {
                sender: self.own,
                number: EditNo(count + 1),
                length: length as u16,
            }),
        }
    }

    // A packet arrives: it is handed over, put on the shelf, or refused.
    pub fn arrive(self, packet: &[u8], shelf: &mut [u8]) -> Stepped
        ensures { Arrived self packet.now shelf.old result shelf.new }
    {
        let Some(stock) = look_over(false, self, &*shelf) else {
            return refuse(self, Refusal::NotSound);
        };
        match packet::read_message(packet) {
            Ok(message) => settle(self, stock, message, packet, shelf),
            Err(point) => refuse(self, point.into()),
        }
    }

    // The ready packet on the shelf that comes first is handed over: its body goes to the output, and its slot is freed.
    pub fn release(self, shelf: &mut [u8], out: &mut [u8]) -> Stepped
        ensures { Released self shelf.old out.old result shelf.new out.new }
    {
        let Some(stock) = look_over(true, self, &*shelf) else {
            return refuse(self, Refusal::NotSound);
        };
        let Some(first) = stock.first else {
            return Stepped {
                seat: self,
                answer: Answer::NothingReady,
            };
        };
        take(self, first.slot, shelf, out)
    }
}
