// A packet is taken off a sound seat's shelf.
ghost use Rattle.seat.specs.Releasing.{Released};
ghost use Rattle.seat.specs.Steps.{Chosen, ChosenRead};

use super::arrival::edit_in;
use super::stock::held_in;
use super::{Seat, Stepped, refuse};
use answers::{Answer, Refusal};
use packet::{HEAD_LEN, Message};
use vectors::bytes::put_bytes;

// The packet on slot i is handed over, where its body has room. The caller has read it.
fn hand_out(seat: Seat, message: Message, i: usize, shelf: &mut [u8], out: &mut [u8]) -> Stepped
    requires { ChosenRead seat shelf.old i message.heading message.past message.barrier }
    ensures { Released seat shelf.old out.old result shelf.new out.new }
{
    let packet = held_in(shelf::slot(&*shelf, i));
    let edit = edit_in(message, packet.len());
    let at = HEAD_LEN + 4 * message.heading.n as usize;
    let body = &packet[at..];
    if out.len() < body.len() {
        return refuse(seat, Refusal::OutputTooShort);
    }
    if seat.is_barrier_above_past(message) {
        return refuse(seat, Refusal::BarrierAbovePast);
    }
    put_bytes(out, 0, body);
    shelf::clear(shelf, i);
    Stepped {
        seat: seat.hand_over(message),
        answer: Answer::Done(edit),
    }
}

// The packet on slot i, which is the one to release, is read and handed over. The caller has found it.
pub fn take(seat: Seat, i: usize, shelf: &mut [u8], out: &mut [u8]) -> Stepped
    requires { Chosen seat shelf.old i }
    ensures { Released seat shelf.old out.old result shelf.new out.new }
{
    // A sound shelf holds well formed packets alone.
    let message = packet::read_message(held_in(shelf::slot(&*shelf, i))).unwrap();
    hand_out(seat, message, i, shelf, out)
}
