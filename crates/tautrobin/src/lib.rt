// The four steps on numbers and byte slices (document 01, "For the package, which is written in C"). Crate tautrobin_c
// exports them to C.
#![tactic(auto)]

mod image;

ghost use Rattle.std.specs.Prelude.{◌≡◌, ◌≤◌, ◌<◌, true, false, MatchOption};
ghost use Rattle.answers.specs.Answers.{seat_no, report};
ghost use Rattle.packet.specs.Writing.{in_range};
ghost use Rattle.tautrobin.specs.Image.{encoded};
ghost use Rattle.tautrobin.specs.Calls.{packed, kind_most, wish_of, bad_call_number, Kept, OpenCalled, SendCalled, ArriveCalled, ReleaseCalled};

use answers::{Report, SeatNo};
use image::{IMAGE_SIZE, decode, encode, encode_counts};
use packet::Header;
use seat::{Seat, Stepped, Wish};

// What the calls refuse before the library's step; 22 is no refusal of a step, so that `Refusal` lacks it. The four calls
// keep their type for C, so that it is told by its number.
#[derive(Clone, Copy)]
enum BadCall {
    NotSound = 10,
    NoSuchSeat = 20,
    NoSuchKind = 22,
}

impl BadCall {
    // The whole answer: its number, and three zeros.
    fn number(self) -> u64
        ensures { result ≡ bad_call_number self }
    {
        self as u64
    }
}

// The answer as one number, as C has it (`packed`): bits 0 to 7 the answer number, 8 to 15 sender, 16 to 31 sequence
// number, 32 to 47 length.
fn pack(told: Report) -> u64
    ensures { result ≡ packed told }
{
    let answer = told.answer as u64;
    let sender = told.edit.sender.0 as u64;
    let number = told.edit.number.0 as u64;
    let length = told.edit.length as u64;
    answer + 256 * sender + 65536 * number + 4294967296 * length
}

// The kind that is wished for, where there is one of this number: a function, for neither type is this crate's.
#[tactic(auto, unfolding(crate::specs::Calls::wish_of))]
fn wish_of(kind: u32) -> Option<Wish>
    ensures { MatchOption result (kind_most < kind) (λ wish. (kind ≤ kind_most) × (wish ≡ wish_of kind)) }
{
    match kind {
        0 => Some(Wish::Ordinary),
        1 => Some(Wish::Causal),
        2 => Some(Wish::Usual),
        _ => None,
    }
}

// The seat of these numbers, where there is one.
#[tactic(auto, using(crate::proofs::OpenCall::no_byte_of_seats, crate::proofs::OpenCall::no_byte_of_own))]
fn seat_numbered(n: u32, own: u32) -> Option<Header>
    ensures { MatchOption result (in_range (record { n = n; sender = seat_no own }) ≡ false) (λ seat. (seat ≡ record { n = n; sender = seat_no own }) × (in_range seat ≡ true)) }
{
    let n = u8::try_from(n).ok()?;
    let sender = SeatNo(u8::try_from(own).ok()?);
    let seat = Header { n, sender };
    seat.is_in_range().then_some(seat)
}

// The answer of a step; on 0 and 1 (`rewritten` speaks of the number) `put` puts the next state into the image.
#[tactic(auto, using(crate::proofs::Reporting::left_alone, crate::proofs::Reporting::goes_in))]
fn keep<F: FnOnce(Seat, &mut [u8; IMAGE_SIZE])>(
    stepped: Stepped,
    state: &mut [u8; IMAGE_SIZE],
    put: F,
) -> u64
    requires can { (image : _) → image.now ≡ state.old → (report stepped.answer).answer ≤ 1 → F.pre put stepped.seat image }
    requires puts { (image left : _) → F.post put stepped.seat image tt left → left.now ≡ encoded stepped.seat }
    ensures { Kept stepped state.old result state.new }
{
    let told = stepped.answer.report();
    if told.answer <= 1 {
        put(stepped.seat, state);
    }
    pack(told)
}

// Each call takes the image's array itself: of a step in a closure that is not run, nothing tells that the shelf and the
// output that it holds stay as they were.

// Opens a seat, and zeroes its shelf.
pub fn tautrobin_open(n: u32, own: u32, state: &mut [u8], shelf: &mut [u8]) -> u64
    ensures { OpenCalled n own state.old shelf.old result state.new shelf.new }
{
    let Some(seat) = seat_numbered(n, own) else {
        return BadCall::NoSuchSeat.number();
    };
    let Some(image) = state.as_mut_array::<IMAGE_SIZE>() else {
        return BadCall::NotSound.number();
    };
    keep(Seat::open(seat.n, seat.sender, shelf), image, encode)
}

// Sends an edit: its packet goes to the start of the output.
pub fn tautrobin_send(state: &mut [u8], kind: u32, body: &[u8], out: &mut [u8]) -> u64
    ensures { SendCalled state.old kind body.now out.old result state.new out.new }
{
    let Some(image) = state.as_mut_array::<IMAGE_SIZE>() else {
        return BadCall::NotSound.number();
    };
    let seat = decode(image);
    let Some(wish) = wish_of(kind) else {
        if seat.is_sound() {
            return BadCall::NoSuchKind.number();
        }
        return BadCall::NotSound.number();
    };
    keep(seat.send(wish, body, out), image, encode_counts)
}

// A packet arrives: it is handed over, put on the shelf, or refused.
pub fn tautrobin_arrive(state: &mut [u8], shelf: &mut [u8], packet: &[u8]) -> u64
    ensures { ArriveCalled state.old shelf.old packet.now result state.new shelf.new }
{
    let Some(image) = state.as_mut_array::<IMAGE_SIZE>() else {
        return BadCall::NotSound.number();
    };
    let seat = decode(image);
    keep(seat.arrive(packet, shelf), image, encode)
}

// The ready packet on the shelf that comes first is handed over: its body goes to the output, and its slot is freed.
pub fn tautrobin_release(state: &mut [u8], shelf: &mut [u8], out: &mut [u8]) -> u64
    ensures { ReleaseCalled state.old shelf.old out.old result state.new shelf.new out.new }
{
    let Some(image) = state.as_mut_array::<IMAGE_SIZE>() else {
        return BadCall::NotSound.number();
    };
    let seat = decode(image);
    keep(seat.release(shelf, out), image, encode)
}
