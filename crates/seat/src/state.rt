// The seat's state: soundness, readiness and handing over.
ghost use Rattle.std.specs.Prelude.{◌≡◌};
ghost use Rattle.seat.specs.State.{header_of, sound_windows, sound_state};
ghost use Rattle.seat.specs.HandingOver.{ready, raised_by, hand_over, Due, barrier_above_past};

use super::Seat;
use packet::{Header, Kind, Message};
use vectors::{is_within, is_zero, is_zero_above, max_of};
use window::Window;

// What raises barrier: past if the edit is causal, its barrier if ordinary.
pub fn raised_by(kind: Kind, past: [u16; 16], barrier: [u16; 16]) -> [u16; 16]
    ensures { result ≡ raised_by kind past barrier }
{
    match kind {
        Kind::Ordinary => barrier,
        Kind::Causal => past,
    }
}

impl Seat {
    // The header of the packets that the seat sends.
    pub(crate) fn header(self) -> Header
        ensures { result ≡ header_of self }
    {
        Header {
            n: self.n,
            sender: self.own,
        }
    }

    // Whether each sender's window is sound. Three arrays stand side by side, so the places are gone through.
    fn has_sound_windows(self) -> bool
        ensures { result ≡ sound_windows self }
    {
        (0..16).fold(true, |ok, k| {
            let run = self.run[k];
            let ahead = self.ahead[k];
            ok & Window { run, ahead }.is_sound(self.past[k])
        })
    }

    // Whether the state is sound. That barrier, run and ahead are 0 above n follows from past being 0 there.
    pub fn is_sound(self) -> bool
        ensures { result ≡ sound_state self }
    {
        if !self.header().is_in_range() {
            return false;
        }
        let seats = self.n as usize;
        let past = self.past;
        let barrier = self.barrier;
        if !(is_zero_above(seats, past) & is_within(barrier, past)) {
            return false;
        }
        // Where no number is marked, run alone is looked at.
        let reached = self.run;
        let words = self.ahead;
        if is_zero(words) {
            return is_within(reached, past);
        }
        self.has_sound_windows()
    }

    // Line 5: every edit that the packet waits for is handed over here.
    pub(crate) fn is_ready(self, barrier: [u16; 16]) -> bool
        ensures { result ≡ ready self barrier }
    {
        is_within(barrier, self.run)
    }

    // Whether barrier would stand above past after handing over.
    pub(crate) fn is_barrier_above_past(self, message: Message) -> bool
        ensures { result ≡ barrier_above_past self message.heading message.past message.barrier }
    {
        let raised = raised_by(message.heading.kind, message.past, message.barrier);
        !is_within(
            max_of(self.barrier, raised),
            max_of(self.past, message.past),
        )
    }

    // Lines 7 to 10. The callers have found the edit to be new and in the sender's window, and the state to be sound.
    pub(crate) fn hand_over(self, message: Message) -> Seat
        requires { Due self message.heading message.past }
        ensures { result ≡ hand_over self message.heading message.past message.barrier }
    {
        let raised = raised_by(message.heading.kind, message.past, message.barrier);
        let at = message.heading.sender.index();
        let run = self.run[at];
        let ahead = self.ahead[at];
        let moved = Window { run, ahead }.hand_over(message.number());
        let mut next = self;
        next.run[at] = moved.run;
        next.ahead[at] = moved.ahead;
        next.past = max_of(self.past, message.past);
        next.barrier = max_of(self.barrier, raised);
        next
    }
}
