// Sending, lines 1 to 4 of document 000, section 3.2: what the packet carries, and the state after it.
ghost use Rattle.std.specs.Prelude.{◌≡◌, ◌≤◌, ◌<◌, true};
ghost use Rattle.packet.specs.Reading.{headed};
ghost use Rattle.seat.specs.State.{own_count, header_of, sound_state};
ghost use Rattle.seat.specs.Sending.{kind_of, barrier_sent, past_sent, barrier_after, sent_seat};

use super::state::raised_by;
use super::{Seat, Wish};
use packet::{Heading, Kind, Message};

// The kind that is wished for: usual is ordinary.
impl From<Wish> for Kind {
    ghost from_gives = { λ wish kind. kind ≡ kind_of wish };

    fn from(wish: Wish) -> Kind {
        match wish {
            Wish::Ordinary => Kind::Ordinary,
            Wish::Causal => Kind::Causal,
            Wish::Usual => Kind::Ordinary,
        }
    }
}

impl Seat {
    // How many edits the seat has sent. The caller has found the own number to be in range.
    pub(crate) fn own_count(self) -> u16
        requires { (1 ≤ self.own.0) × (self.own.0 ≤ 16) }
        ensures { result ≡ own_count self }
    {
        let past = self.past;
        past[self.own.index()]
    }

    // Line 1: the barrier that the packet carries is past if causal.
    pub(crate) fn barrier_sent(self, kind: Kind) -> [u16; 16]
        ensures { result ≡ barrier_sent self kind }
    {
        raised_by(kind, self.past, self.barrier)
    }

    // Line 2: past[self] rises by 1. The caller has found the own number to be in range, and room for one more edit.
    pub(crate) fn past_sent(self) -> [u16; 16]
        requires { (1 ≤ self.own.0) × (self.own.0 ≤ 16) × (own_count self < 65535) }
        ensures { result ≡ past_sent self }
    {
        let mut past = self.past;
        past[self.own.index()] += 1;
        past
    }

    // What the packet says, with the new past, which the step makes once and hands in here and below. The caller has found
    // the state to be sound.
    pub(crate) fn message_sent(self, kind: Kind, past: [u16; 16]) -> Message
        requires sound { sound_state self ≡ true }
        requires past { past ≡ past_sent self }
        ensures heading { result.heading ≡ headed kind (header_of self) }
        ensures past { result.past ≡ past_sent self }
        ensures barrier { result.barrier ≡ barrier_sent self kind }
    {
        let heading = Heading {
            n: self.n,
            sender: self.own,
            kind,
        };
        let barrier = self.barrier_sent(kind);
        Message {
            heading,
            past,
            barrier,
        }
    }

    // Line 4: barrier becomes the new past if causal.
    fn barrier_after(self, kind: Kind, past: [u16; 16]) -> [u16; 16]
        requires { past ≡ past_sent self }
        ensures { result ≡ barrier_after self kind }
    {
        let before = self.barrier;
        raised_by(kind, past, before)
    }

    // The state after sending, with the new past.
    pub(crate) fn after_sending(self, kind: Kind, past: [u16; 16]) -> Seat
        requires { past ≡ past_sent self }
        ensures { result ≡ sent_seat self kind }
    {
        let barrier = self.barrier_after(kind, past);
        Seat {
            past,
            barrier,
            ..self
        }
    }
}
