// Opening the session that line one names.
ghost use Rattle.std.specs.Prelude.{◌≡◌, ℕ, ◌+◌, ◌*◌, ◌≤◌, ◌<◌, List, length};
ghost use Rattle.shelf.specs.Shelf.{slot_size};
ghost use Rattle.steps.specs.Session.{opened};
ghost use Rattle.steps.specs.Memory.{slots_most, session_in, shelves_size, Bounded, AllOpened, OpenedIn};

use super::memory::piece_at;
use super::walk::Walk;
use answers::{Edit, SeatNo};
use seat::{NO_SEAT, Seat};
use shelf::SLOT_SIZE;

// The size of a session that there is room for: its seats, and the slots of each shelf.
#[derive(Clone, Copy)]
pub struct Size {
    pub n: u8,
    pub slots: usize,
    pub ghost seats_high: { n ≤ 16 },
    pub ghost slots_high: { slots ≤ slots_most },
}

// The seat at an index is opened: its number is one more.
fn open_at(size: Size, at: usize, shelves: &mut [u8]) -> Seat
    requires at { at < size.n }
    requires shelves { length shelves.old ≡ shelves_size }
    ensures { OpenedIn size.n size.slots at shelves.old result shelves.new }
{
    let number = at as u8 + 1;
    let shelf = &mut shelves[piece_at(size.slots * SLOT_SIZE, at)];
    Seat::open(size.n, SeatNo(number), shelf).seat
}

// Seats 1 to n are opened.
fn open_all(size: Size, shelves: &mut [u8]) -> [Seat; 16]
    requires shelves { length shelves.old ≡ shelves_size }
    ensures { AllOpened size.n size.n size.slots result shelves.new }
{
    let mut seats = [NO_SEAT; 16];
    for (at, seat) in seats[..size.n as usize].iter_mut().enumerate() {
        *seat = open_at(size, at, shelves);
    }
    seats
}

impl Walk {
    // The session of that size.
    pub fn open(size: Size, shelves: &mut [u8]) -> Walk
        requires shelves { length shelves.old ≡ shelves_size }
        ensures bounded { Bounded result }
        ensures session { (packets : List ℕ) → session_in result shelves.new packets ≡ opened size.n size.slots }
    {
        Walk {
            n: size.n,
            slots: size.slots,
            sends: 0,
            letters: 0,
            seats: open_all(size, shelves),
            edits: [Edit::default(); 256],
        }
    }
}
