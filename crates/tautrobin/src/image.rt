// The state as it crosses to C: an image of 225 bytes (document 01, "For the package, which is written in C").
ghost use Rattle.std.specs.Prelude.{◌≡◌, set};
ghost use Rattle.std.proofs.lemmas.List.Edits.{sets};
ghost use Rattle.vectors.specs.Bytes.{fields_of};
ghost use Rattle.tautrobin.specs.Image.{past_at, barrier_at, decoded, encoded, numbers_byte, Recounted, Numbered};

use answers::SeatNo;
use seat::Seat;
use vectors::bytes::{fields, put_fields};

pub const IMAGE_SIZE: usize = 225;

// Where the fields of past, barrier, run and ahead start, after the byte with n and own number.
const PAST_AT: usize = 1;

const BARRIER_AT: usize = 33;

const RUN_AT: usize = 65;

const AHEAD_AT: usize = 97;

// The state that an image says.
pub fn decode(image: &[u8; IMAGE_SIZE]) -> Seat
    ensures { (result ≡ decoded image.now) × Numbered result }
{
    let n = image[0] / 16 + 1;
    let own = image[0] % 16 + 1;
    let past = fields(image, PAST_AT, 16);
    let barrier = fields(image, BARRIER_AT, 16);
    let run = fields(image, RUN_AT, 16);
    let ahead = fields(image, AHEAD_AT, 16);
    Seat {
        n,
        own: SeatNo(own),
        past,
        barrier,
        run,
        ahead,
    }
}

// n - 1 and own number - 1 go to the first byte.
fn put_numbers(seat: Seat, image: &mut [u8; IMAGE_SIZE])
    requires { Numbered seat }
    ensures { image.new ≡ set image.old 0 (numbers_byte seat) }
{
    image[0] = (seat.n - 1) * 16 + (seat.own.0 - 1);
}

// Past and barrier go to their places.
fn put_counts(seat: Seat, image: &mut [u8; IMAGE_SIZE])
    ensures { image.new ≡ sets (sets image.old past_at (fields_of 2 seat.past)) barrier_at (fields_of 2 seat.barrier) }
{
    put_fields(image, PAST_AT, &seat.past);
    put_fields(image, BARRIER_AT, &seat.barrier);
}

// The image of a state that is another than the image's in past and barrier alone.
pub fn encode_counts(seat: Seat, image: &mut [u8; IMAGE_SIZE])
    requires { Recounted seat (decoded image.old) }
    ensures { image.new ≡ encoded seat }
{
    put_counts(seat, image);
}

// The image of a state. The callers have found n and own number to be in range.
pub fn encode(seat: Seat, image: &mut [u8; IMAGE_SIZE])
    requires { Numbered seat }
    ensures { image.new ≡ encoded seat }
{
    put_numbers(seat, image);
    put_counts(seat, image);
    put_fields(image, RUN_AT, &seat.run);
    put_fields(image, AHEAD_AT, &seat.ahead);
}
