// The packet that carries an edit over the link: reading it, its body, and writing it (document 01, "Packet").
#![tactic(auto)]

mod message;
mod points;

ghost use Rattle.std.specs.Prelude.{◌≡◌, IfOk};
ghost use Rattle.packet.specs.Packet.{kind_of, past_of, barrier_of, first_bad_point};
ghost use Rattle.packet.specs.Points.{failed};
ghost use Rattle.packet.specs.Reading.{headed, header_of, read_of, body_of};
ghost use Rattle.packet.specs.Writing.{in_range, Written};

use answers::{Answer, Edit, Refusal, SeatNo};
pub use message::Message;
pub use points::Point;
use points::read_heading;
use vectors::bytes::fields;

// The bytes before past.
pub const HEAD_LEN: usize = 3;

// The most bytes that a body has.
pub const BODY_MOST: usize = 200;

// An edit's kind, with its bit in a packet.
#[derive(Clone, Copy)]
pub enum Kind {
    Ordinary = 0,
    Causal = 1,
}

// What writing takes beside the kind.
#[derive(Clone, Copy)]
pub struct Header {
    pub n: u8,
    pub sender: SeatNo,
}

// What reading finds: the header with its kind. Document 01 has both, and Demand2 speaks of both (`headed`).
#[derive(Clone, Copy)]
pub struct Heading {
    pub n: u8,
    pub sender: SeatNo,
    pub kind: Kind,
}

// The vectors stand beside the answer, as document 01 and `read_of` have them: 0 above n, and all 0 on a refusal.
#[derive(Clone, Copy)]
pub struct Reading {
    pub answer: Result<Heading, Refusal>,
    pub past: [u16; 16],
    pub barrier: [u16; 16],
}

impl Header {
    // Whether n is 1 to 16, and the sender 1 to n.
    pub fn is_in_range(self) -> bool
        ensures { result ≡ in_range self }
    {
        let n = self.n;
        let sender = self.sender.0;
        (1 <= n) & (n <= 16) & (1 <= sender) & (sender <= n)
    }
}

// What a well formed packet says, or the first point that it breaks.
pub fn read_message(packet: &[u8]) -> Result<Message, Point>
    ensures point { failed result ≡ first_bad_point packet.now }
    ensures heading { IfOk result (λ message. message.heading ≡ headed (kind_of packet.now) (header_of packet.now)) }
    ensures past { IfOk result (λ message. message.past ≡ past_of packet.now) }
    ensures barrier { IfOk result (λ message. message.barrier ≡ barrier_of packet.now) }
{
    let heading = read_heading(packet)?;
    let seats = heading.n as usize;
    let past = fields(packet, HEAD_LEN, seats);
    let barrier = fields(packet, HEAD_LEN + 2 * seats, seats);
    let message = Message {
        heading,
        past,
        barrier,
    };
    message.check()?;
    Ok(message)
}

// What the packet says, or a refusal where it is not well formed.
pub fn read(packet: &[u8]) -> Reading
    ensures { result ≡ read_of packet.now }
{
    match read_message(packet) {
        Ok(message) => {
            let past = message.past;
            let barrier = message.barrier;
            Reading {
                answer: Ok(message.heading),
                past,
                barrier,
            }
        }
        Err(point) => Reading {
            answer: Err(point.into()),
            past: [0; 16],
            barrier: [0; 16],
        },
    }
}

// The part of the packet that holds the body; empty on a refusal, as document 01 and `body_of` have it.
pub fn body(packet: &[u8]) -> &[u8]
    ensures { result.now ≡ body_of packet.now }
{
    match read_message(packet) {
        Ok(message) => {
            let at = HEAD_LEN + 4 * message.heading.n as usize;
            &packet[at..]
        }
        Err(_) => &packet[..0],
    }
}

// The packet goes to the start of the output. Its answer is an `Answer`: a step hands it on, and `Written` speaks of it.
#[tactic(auto, using(crate::proofs::Laid::answer_11, crate::proofs::Laid::long_leaves_output))]
pub fn write(
    kind: Kind,
    header: Header,
    past: [u16; 16],
    barrier: [u16; 16],
    body: &[u8],
    out: &mut [u8],
) -> Answer
    ensures { Written kind header past barrier body.now out.old result out.new }
{
    if BODY_MOST < body.len() {
        return Answer::Refused(Refusal::BodyTooLong);
    }
    let Some(message) = Message::to_write(kind, header, past, barrier) else {
        return Answer::Refused(Refusal::NotWellFormed);
    };
    let length = HEAD_LEN + 4 * header.n as usize + body.len();
    if out.len() < length {
        return Answer::Refused(Refusal::OutputTooShort);
    }
    message.put(body, out);
    Answer::Done(Edit {
        sender: header.sender,
        number: message.number(),
        length: length as u16,
    })
}
