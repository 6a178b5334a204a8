// Refusals 15 to 18, of a message that was read (document 01, "Answer numbers").
ghost use Rattle.std.specs.Prelude.{◌≡◌};
ghost use Rattle.answers.specs.Answers.{first_of};
ghost use Rattle.answers.specs.declared.Answer.{Answer};
ghost use Rattle.vectors.specs.Vectors.{entry};
ghost use Rattle.window.specs.Window.{handed};
ghost use Rattle.seat.specs.Stock.{above_own_count};
ghost use Rattle.seat.specs.Arriving.{admission_refusals};
ghost use Rattle.seat.specs.Survey.{window_with};
ghost use Rattle.seat.specs.Steps.{unless};

use super::Seat;
use answers::{Refusal, SeatNo};
use packet::Message;
use window::Window;

// The entry of a seat, whatever its number: 0 above 16, and the first entry for 0, which is no seat.
fn entry_of(v: &[u16; 16], seat: SeatNo) -> u16
    ensures { result ≡ entry v.now seat }
{
    let at = seat.0.saturating_sub(1) as usize;
    v.get(at).copied().unwrap_or(0)
}

// Refusal 16: the packet has more of this seat's edits in its past than this seat has sent.
fn is_above_own_count(seat: &Seat, past: &[u16; 16]) -> bool
    ensures { result ≡ above_own_count seat.now past.now }
{
    entry_of(&seat.past, seat.own) < entry_of(past, seat.own)
}

// A sender's window of run and the words, which may be other ones than ahead.
pub fn window_with(run: &[u16; 16], words: &[u64; 16], message: &Message) -> Window
    ensures { result ≡ window_with run.now words.now message.now.heading.sender }
{
    let at = message.heading.sender.index();
    Window {
        run: run[at],
        ahead: words[at],
    }
}

// Whether a message passes, beside the words that say which numbers are handed over or on the shelf.
pub fn admit(seat: &Seat, words: &[u64; 16], message: &Message) -> Result<(), Refusal>
    ensures { (done : Answer) → unless result done ≡ first_of (admission_refusals seat.now message.now.heading message.now.past (handed (window_with seat.now.run words.now message.now.heading.sender) (entry message.now.past message.now.heading.sender))) done }
{
    let heading = message.heading;
    let number = message.number();
    if heading.n != seat.n {
        return Err(Refusal::OtherSession);
    }
    if is_above_own_count(seat, &message.past) {
        return Err(Refusal::AboveOwnCount);
    }
    let window = window_with(&seat.run, words, message);
    if window.holds(number) {
        return Err(Refusal::Repeated);
    }
    if window.run as u32 + 64 < number.0 as u32 {
        return Err(Refusal::TooFarAhead);
    }
    Ok(())
}
