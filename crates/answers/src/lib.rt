// What a call answers, and the numbers of seats and edits that answers speak of (document 01, "Answer numbers").
#![tactic(auto)]

ghost use Rattle.std.specs.Prelude.{◌≡◌, ◌-◌, ◌≤◌};
ghost use Rattle.answers.specs.Answers.{refusal_number, bare, report};

// A seat's number, 1 to n.
#[derive(Clone, Copy, Default, PartialEq, Eq, PartialOrd, Ord)]
pub struct SeatNo(pub u8);

impl SeatNo {
    // Where the seat's entry stands in a vector. The callers have found the number to be 1 or more.
    pub fn index(self) -> usize
        requires { 1 ≤ self.0 }
        ensures { result ≡ self.0 - 1 }
    {
        (self.0 - 1) as usize
    }
}

// An edit's sequence number among its sender's, from 1.
#[derive(Clone, Copy, Default, PartialEq, Eq, PartialOrd, Ord)]
pub struct EditNo(pub u16);

// An edit that a call is done with: who sent it, its number, and the length of its packet or body.
#[derive(Clone, Copy, Default)]
pub struct Edit {
    pub sender: SeatNo,
    pub number: EditNo,
    pub length: u16,
}

// Why a call refused, with document 01's number. A refusal changes nothing.
#[derive(Clone, Copy)]
pub enum Refusal {
    NotSound = 10,
    BodyTooLong = 11,
    CountFull = 12,
    OutputTooShort = 13,
    NotWellFormed = 14,
    OtherSession = 15,
    AboveOwnCount = 16,
    Repeated = 17,
    TooFarAhead = 18,
    ShelfFull = 19,
    NoSuchSeat = 20,
    BarrierAbovePast = 23,
}

// Every answer in one enum, as document 01 has one table: `report` and the theorems of Demand1 speak of all its cases,
// and a refused step hands a state back too, so that no `?` could pass an error on.
#[derive(Clone, Copy)]
pub enum Answer {
    Opened,
    Done(Edit),
    Shelved,
    NothingReady,
    Refused(Refusal),
}

// An answer in document 01's numbers, of which some are given by the step list and the C calls alone: an edit of zeros
// where it names none (`bare`), for the C calls pack those zeros.
#[derive(Clone, Copy)]
pub struct Report {
    pub answer: u8,
    pub edit: Edit,
}

impl Refusal {
    // Document 01's number.
    pub fn number(self) -> u8
        ensures { result ≡ refusal_number self }
    {
        self as u8
    }
}

impl Report {
    // The report of an answer that names no edit.
    pub fn bare(answer: u8) -> Report
        ensures { result ≡ bare answer }
    {
        Report {
            answer,
            edit: Edit::default(),
        }
    }
}

impl Answer {
    pub fn report(self) -> Report
        ensures { result ≡ report self }
    {
        match self {
            Answer::Opened => Report::bare(0),
            Answer::Done(edit) => Report { answer: 0, edit },
            Answer::Shelved => Report::bare(1),
            Answer::NothingReady => Report::bare(2),
            Answer::Refused(refusal) => Report::bare(refusal.number()),
        }
    }
}
