// A message: what a packet says beside its body.
ghost use Rattle.std.specs.Prelude.{◌≡◌, ◌<◌, ◌≤◌, length, IfSome, is_some};
ghost use Rattle.std.proofs.lemmas.List.Edits.{sets};
ghost use Rattle.answers.specs.Answers.{edit_no};
ghost use Rattle.vectors.specs.Vectors.{entry};
ghost use Rattle.packet.specs.Packet.{head_len, body_most, packet_length, vectors_point, less_one, point_seven};
ghost use Rattle.packet.specs.Points.{failed};
ghost use Rattle.packet.specs.Reading.{headed, header_in};
ghost use Rattle.packet.specs.Writing.{writable, bit_of, head_of, packet_of};

use super::{HEAD_LEN, Header, Heading, Kind, Point};
use answers::EditNo;
use vectors::bytes::{put_bytes, put_fields};
use vectors::{is_same, is_within, is_zero_above};

// Its n and sender are in range. The vectors hold 16 entries whatever n is, as document 01 and `read_of` have them.
#[derive(Clone, Copy)]
pub struct Message {
    pub heading: Heading,
    pub past: [u16; 16],
    pub barrier: [u16; 16],
    pub ghost seats_high: { heading.n ≤ 16 },
    pub ghost sender_low: { 1 ≤ heading.sender.0 },
    pub ghost sender_high: { heading.sender.0 ≤ heading.n },
}

impl Message {
    // The message, where it can be written: n and sender are in range, it keeps points 7 and 8, and is 0 above n.
    pub(crate) fn to_write(
        kind: Kind,
        header: Header,
        past: [u16; 16],
        barrier: [u16; 16],
    ) -> Option<Message>
        ensures some { is_some result ≡ writable kind header past barrier }
        ensures heading { IfSome result (λ message. message.heading ≡ headed kind header) }
        ensures past { IfSome result (λ message. message.past ≡ past) }
        ensures barrier { IfSome result (λ message. message.barrier ≡ barrier) }
    {
        if !header.is_in_range() {
            return None;
        }
        let heading = Heading {
            n: header.n,
            sender: header.sender,
            kind,
        };
        let message = Message {
            heading,
            past,
            barrier,
        };
        let seats = header.n as usize;
        let zero = is_zero_above(seats, past) & is_zero_above(seats, barrier);
        (message.check().is_ok() & zero).then_some(message)
    }

    // The number of the edit that it carries.
    pub fn number(&self) -> EditNo
        ensures { result ≡ edit_no (entry self.now.past self.now.heading.sender) }
    {
        EditNo(self.past[self.heading.sender.index()])
    }

    // Points 7 and 8.
    pub(crate) fn check(&self) -> Result<(), Point>
        ensures { failed result ≡ vectors_point self.now.heading.kind self.now.heading.sender self.now.past self.now.barrier }
    {
        if !self.is_ordered() {
            return Err(Point::BarrierWithinPast);
        }
        match self.heading.kind {
            Kind::Ordinary => Ok(()),
            Kind::Causal => {
                if is_same(self.barrier, self.past_less_one()) {
                    Ok(())
                } else {
                    Err(Point::CausalBarrier)
                }
            }
        }
    }

    fn is_ordered(&self) -> bool
        ensures { result ≡ point_seven self.now.heading.sender self.now.past self.now.barrier }
    {
        let past = self.past;
        let barrier = self.barrier;
        let at = self.heading.sender.index();
        is_within(barrier, past) & (barrier[at] < past[at])
    }

    // Past with the sender's entry, which is not 0, one lower.
    fn past_less_one(&self) -> [u16; 16]
        requires { 0 < entry self.now.past self.now.heading.sender }
        ensures { result ≡ less_one self.now.past self.now.heading.sender }
    {
        let at = self.heading.sender.index();
        let mut lower = self.past;
        lower[at] -= 1;
        lower
    }

    // Version and n - 1; sender - 1 and the kind; the body's length.
    fn put_head(&self, body: usize, out: &mut [u8])
        requires short { body ≤ body_most }
        requires room { head_len ≤ length out.old }
        ensures { out.new ≡ sets out.old 0 (head_of self.now.heading.kind (header_in self.now.heading) body) }
    {
        let heading = self.heading;
        out[0] = 16 + (heading.n - 1);
        out[1] = (heading.sender.0 - 1) * 16 + heading.kind.bit() * 8;
        out[2] = body as u8;
    }

    // The packet goes to the start of the output. The callers have found the body to be short enough, and room.
    pub fn put(&self, body: &[u8], out: &mut [u8])
        requires short { length body.now ≤ body_most }
        requires room { packet_length self.now.heading.n (length body.now) ≤ length out.old }
        ensures { out.new ≡ sets out.old 0 (packet_of self.now.heading.kind (header_in self.now.heading) self.now.past self.now.barrier body.now) }
    {
        let seats = self.heading.n as usize;
        self.put_head(body.len(), out);
        put_fields(out, HEAD_LEN, &self.past[..seats]);
        put_fields(out, HEAD_LEN + 2 * seats, &self.barrier[..seats]);
        put_bytes(out, HEAD_LEN + 4 * seats, body);
    }
}

impl Kind {
    // The kind's bit in a packet.
    fn bit(self) -> u8
        ensures bit { result ≡ bit_of self }
        ensures small { result ≤ 1 }
    {
        self as u8
    }
}
