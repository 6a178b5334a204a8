// The eight points of well-formedness (document 01, "Packet"), and the test of the first six. A message tests the last
// two.
ghost use Rattle.std.specs.Prelude.{◌≡◌, IfOk};
ghost use Rattle.packet.specs.Packet.{kind_bit, kind_of, head_point};
ghost use Rattle.packet.specs.Points.{failed};
ghost use Rattle.answers.specs.declared.Refusal.TheVariants.{NotWellFormed};
ghost use Rattle.packet.specs.Reading.{headed, header_of};

use super::{BODY_MOST, HEAD_LEN, Heading, Kind};
use answers::{Refusal, SeatNo};

// A point that a packet breaks, with its number.
#[derive(Clone, Copy)]
pub enum Point {
    Bytes = 1,
    Version = 2,
    ZeroBits = 3,
    Sender = 4,
    BodyLength = 5,
    TotalLength = 6,
    BarrierWithinPast = 7,
    CausalBarrier = 8,
}

impl From<Point> for Refusal {
    ghost from_gives = { λ _ refusal. refusal ≡ NotWellFormed };

    fn from(_point: Point) -> Refusal {
        Refusal::NotWellFormed
    }
}

// Points 1 to 6, and what the first bytes of a packet say that keeps them.
pub(crate) fn read_heading(packet: &[u8]) -> Result<Heading, Point>
    ensures point { failed result ≡ head_point packet.now }
    ensures heading { IfOk result (λ heading. heading ≡ headed (kind_of packet.now) (header_of packet.now)) }
{
    if packet.len() < HEAD_LEN {
        return Err(Point::Bytes);
    }
    let first = packet[0];
    let second = packet[1];
    let third = packet[2];
    if first / 16 != 1 {
        return Err(Point::Version);
    }
    if second % 8 != 0 {
        return Err(Point::ZeroBits);
    }
    if first % 16 < second / 16 {
        return Err(Point::Sender);
    }
    let body = third as usize;
    if BODY_MOST < body {
        return Err(Point::BodyLength);
    }
    let seats = (first % 16) as usize + 1;
    if packet.len() != HEAD_LEN + 4 * seats + body {
        return Err(Point::TotalLength);
    }
    Ok(Heading {
        n: first % 16 + 1,
        sender: SeatNo(second / 16 + 1),
        kind: kind_of(second),
    })
}

// The kind by its bit. A conversion from a byte would have to say what the byte's other bits are.
fn kind_of(second: u8) -> Kind
    ensures { result ≡ kind_bit second }
{
    if second / 8 % 2 == 1 {
        Kind::Causal
    } else {
        Kind::Ordinary
    }
}
