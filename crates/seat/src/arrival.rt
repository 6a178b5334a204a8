// A packet that arrives, once state and shelf are found sound.
ghost use Rattle.std.specs.Prelude.{◌≡◌, ◌-◌, ◌≤◌, IfOk};
ghost use Rattle.answers.specs.Answers.{edit_no, first_of};
ghost use Rattle.answers.specs.declared.Edit.{Edit};
ghost use Rattle.vectors.specs.Vectors.{entry};
ghost use Rattle.window.specs.Window.{handed};
ghost use Rattle.packet.specs.Packet.{body_at};
ghost use Rattle.seat.specs.Arriving.{admission_refusals, admitted_answer, Arrived};
ghost use Rattle.seat.specs.Survey.{window_with};
ghost use Rattle.seat.specs.Steps.{Heard, answer_of, GoesToLowest};

use super::admission::admit;
use super::stock::Stock;
use super::{Seat, Stepped, refuse};
use answers::{Answer, Edit, Refusal};
use packet::{HEAD_LEN, Message};

// Where a packet goes that is not refused: it is handed over, or laid on a slot.
#[derive(Clone, Copy)]
pub enum Place {
    Seat,
    Slot(usize),
}

// The edit that a packet of some length carries, with its body's length.
pub fn edit_in(message: Message, packet: usize) -> Edit
    requires body { body_at message.heading.n ≤ packet }
    requires short { packet ≤ 267 }
    ensures { result ≡ record { sender = message.heading.sender; number = edit_no (entry message.past message.heading.sender); length = packet - body_at message.heading.n } }
{
    let heading = message.heading;
    Edit {
        sender: heading.sender,
        number: message.number(),
        length: (packet - (HEAD_LEN + 4 * heading.n as usize)) as u16,
    }
}

// Where a packet goes that passed refusals 10 to 18.
fn place_of(seat: Seat, message: Message, shelf: &[u8]) -> Result<Place, Refusal>
    ensures answer { (edit : Edit) → answer_of edit result ≡ admitted_answer seat shelf.now message.heading message.past message.barrier edit }
    ensures slot { IfOk result (GoesToLowest shelf.now) }
{
    if seat.is_ready(message.barrier) {
        if seat.is_barrier_above_past(message) {
            return Err(Refusal::BarrierAbovePast);
        }
        return Ok(Place::Seat);
    }
    match shelf::lowest_free(shelf) {
        None => Err(Refusal::ShelfFull),
        Some(free) => Ok(Place::Slot(free)),
    }
}

// Where a packet goes that passed refusals 10 and 14. The words say which numbers are handed over or on the shelf.
fn judge(seat: Seat, words: &[u64; 16], message: Message, shelf: &[u8]) -> Result<Place, Refusal>
    ensures answer { (edit : Edit) → answer_of edit result ≡ first_of (admission_refusals seat message.heading message.past (handed (window_with seat.run words.now message.heading.sender) (entry message.past message.heading.sender))) (admitted_answer seat shelf.now message.heading message.past message.barrier edit) }
    ensures slot { IfOk result (GoesToLowest shelf.now) }
{
    admit(&seat, words, &message)?;
    place_of(seat, message, shelf)
}

// A packet that was read as well formed arrives at a sound seat and shelf.
pub fn settle(
    seat: Seat,
    stock: Stock,
    message: Message,
    packet: &[u8],
    shelf: &mut [u8],
) -> Stepped
    requires { Heard seat shelf.old stock packet.now message.heading message.past message.barrier }
    ensures { Arrived seat packet.now shelf.old result shelf.new }
{
    let marks = &stock.marks;
    match judge(seat, marks, message, &*shelf) {
        Ok(Place::Seat) => Stepped {
            seat: seat.hand_over(message),
            answer: Answer::Done(edit_in(message, packet.len())),
        },
        Ok(Place::Slot(free)) => {
            shelf::lay(shelf, free, packet);
            Stepped {
                seat,
                answer: Answer::Shelved,
            }
        }
        Err(refusal) => refuse(seat, refusal),
    }
}
