// A whole list, whose text comes in pieces. A line is kept only as far as a readable one can reach.
ghost use Rattle.std.specs.Prelude.{◌≡◌, ◌==◌, ℕ, ◌+◌, ◌*◌, ◌≤◌, ◌<◌, List, ◌∷◌, length};
ghost use Rattle.std.specs.List.{position};
ghost use Rattle.lines.specs.Lines.{line_feed, read_opening};
ghost use Rattle.lines.specs.AnswerLine.{answer_most, Wrote};
ghost use Rattle.lines.specs.Kept.{line_most, NoFeed};
ghost use Rattle.steps.specs.Session.{opened};
ghost use Rattle.steps.specs.Memory.{session_in, shelves_size, packets_size, Bounded};
ghost use Rattle.steps.specs.Printed.{bad_first, walked_from, walked, printed};
ghost use Rattle.steps.specs.Course.{text_of, line_in, for_course, still, number_most, is_done, is_over, number_in, Ready, FreshAt, KeptMore, CourseKept, LineTaken, PieceTaken, Finished};

use super::opening::Size;
use super::walk::{UNKNOWN, Walk};
use answers::Report;
use lines::answer::put_answer;
use lines::{Opening, read_opening, read_step};
use vectors::bytes::put_bytes;

// A readable line is shorter than this.
const LINE_MOST: usize = 20;

// The part of a line that has come so far.
// The kit's ArrayVec in place of the length is not Copy, so the public Course, which holds this, would no longer be.
#[derive(Clone, Copy)]
pub struct Line {
    pub bytes: [u8; LINE_MOST],
    pub length: usize,
}

// Before line one, after it, and after a bad one. After it there is a session, whose next step has this number.
#[derive(Clone, Copy)]
pub enum Stage {
    First,
    Walking(u64, Walk),
    Ended,
}

// How far a list has come. `Ready` and the number's bound stand in `requires`, since the theorem `WholeInput` speaks of
// any course.
#[derive(Clone, Copy)]
pub struct Course {
    pub stage: Stage,
    pub line: Line,
}

// How far the list has come after a line, and what is printed for the line: a number and a report, or nothing.
#[derive(Clone, Copy)]
struct Answered {
    pub course: Course,
    pub line: Option<(u64, Report)>,
}

// How far the list has come after a piece, and where the output ends.
#[derive(Clone, Copy)]
pub struct Taken {
    pub course: Course,
    pub end: usize,
}

impl Line {
    fn new() -> Line
        ensures { result.length ≡ 0 }
    {
        Line {
            bytes: [0; LINE_MOST],
            length: 0,
        }
    }

    // The line with more text, as far as it is kept.
    fn keep(self, text: &[u8]) -> Line
        requires { self.length ≤ line_most }
        ensures { KeptMore self text.now result }
    {
        let mut bytes = self.bytes;
        let more = (LINE_MOST - self.length).min(text.len());
        put_bytes(&mut bytes, self.length, &text[..more]);
        Line {
            bytes,
            length: self.length + more,
        }
    }
}

// Where the first line feed stands.
fn line_end(text: &[u8]) -> Option<usize>
    ensures { result ≡ position (λ byte. byte == line_feed) text.now }
{
    text.iter().position(|byte| *byte == b'\n')
}

// What is printed for a line goes to the output. A struct that lends the output with its end would owe a clause on both.
fn put_line(out: &mut [u8], at: usize, line: Option<(u64, Report)>) -> usize
    requires { at + answer_most ≤ length out.old }
    ensures wrote { Wrote out.old at (text_of line) result out.new }
    ensures short { length (text_of line) ≤ answer_most }
{
    let Some((number, report)) = line else {
        return at;
    };
    let edit = report.edit;
    put_answer(out, at, number, report.answer, edit.sender.0, edit.number.0)
}

// A bad first line ends the list.
fn refuse_list() -> Answered
    ensures { (number : ℕ) (shelves packets : List ℕ) → LineTaken number (λ lines. bad_first) result shelves packets }
{
    Answered {
        course: Course::fresh(Stage::Ended),
        line: Some((0, Report::bare(UNKNOWN))),
    }
}

// The list goes on with line two.
fn begin(size: Size, shelves: &mut [u8]) -> Answered
    requires shelves { length shelves.old ≡ shelves_size }
    ensures { (number : ℕ) (packets : List ℕ) → LineTaken number (walked 1 (opened size.n size.slots)) result shelves.new packets }
{
    let walk = Walk::open(size, shelves);
    Answered {
        course: Course::fresh(Stage::Walking(1, walk)),
        line: None,
    }
}

// Line one.
fn take_opening(line: &[u8], shelves: &mut [u8]) -> Answered
    requires shelves { length shelves.old ≡ shelves_size }
    ensures { (number : ℕ) (packets : List ℕ) → LineTaken number (walked_from (read_opening line.now)) result shelves.new packets }
{
    let Some(Opening { n, slots }) = read_opening(line) else {
        return refuse_list();
    };
    if (1 <= n) & (n <= 16) & (slots <= 8) {
        let size = Size {
            n: n as u8,
            slots: slots as usize,
        };
        return begin(size, shelves);
    }
    refuse_list()
}

// A line after the first.
fn take_step(
    walk: Walk,
    number: u64,
    line: &[u8],
    shelves: &mut [u8],
    packets: &mut [u8],
) -> Answered
    requires bounded { Bounded walk }
    requires number { number < number_most }
    requires shelves { length shelves.old ≡ shelves_size }
    requires packets { length packets.old ≡ packets_size }
    ensures { LineTaken number (λ lines. walked number (session_in walk shelves.old packets.old) (line.now ∷ lines)) result shelves.new packets.new }
{
    let walked = walk.step(read_step(line), shelves, packets);
    let next = number + 1;
    Answered {
        course: Course::fresh(Stage::Walking(next, walked.walk)),
        line: Some((number, walked.report)),
    }
}

impl Course {
    // Between two lines.
    fn fresh(stage: Stage) -> Course
        ensures { FreshAt stage result }
    {
        Course {
            stage,
            line: Line::new(),
        }
    }

    // A list of which nothing has come.
    pub fn start() -> Course
        ensures ready { Ready result }
        ensures number { number_in result ≡ 0 }
        ensures prints { (shelves packets text : List ℕ) → still result shelves packets text ≡ printed text }
    {
        Course::fresh(Stage::First)
    }

    // The line with more text, which has no line feed.
    fn keep(self, text: &[u8]) -> Course
        requires ready { Ready self }
        requires no_feed { NoFeed text.now }
        ensures { CourseKept self text.now result }
    {
        Course {
            line: self.line.keep(text),
            ..self
        }
    }

    // The line that was kept is whole.
    fn take_line(self, shelves: &mut [u8], packets: &mut [u8]) -> Answered
        requires ready { Ready self }
        requires number { number_in self < number_most }
        requires shelves { length shelves.old ≡ shelves_size }
        requires packets { length packets.old ≡ packets_size }
        ensures { LineTaken (number_in self) (λ lines. for_course self shelves.old packets.old (line_in self.line ∷ lines)) result shelves.new packets.new }
    {
        let bytes = self.line.bytes;
        let line = &bytes[..self.line.length];
        match self.stage {
            Stage::First => take_opening(line, shelves),
            Stage::Walking(number, walk) => take_step(walk, number, line, shelves, packets),
            Stage::Ended => Answered {
                course: Course::fresh(Stage::Ended),
                line: None,
            },
        }
    }

    // A piece of the input is taken. What it prints stands at the start of the output, which has room for it. The caller
    // lends the same two buffers for the whole list, of these lengths, wherever they lie, so that no piece can fail.
    pub fn take_piece(
        self,
        text: &[u8],
        shelves: &mut [u8],
        packets: &mut [u8],
        out: &mut [u8],
    ) -> Taken
        requires ready { Ready self }
        requires number { number_in self + length text.now ≤ number_most }
        requires shelves { length shelves.old ≡ shelves_size }
        requires packets { length packets.old ≡ packets_size }
        requires room { answer_most * length text.now ≤ length out.old }
        ensures { PieceTaken self text.now shelves.old packets.old result shelves.new packets.new out.new }
    {
        let mut course = self;
        let mut end = 0;
        let mut rest = text;
        while let Some(feed) = line_end(rest) {
            let answered = course.keep(&rest[..feed]).take_line(shelves, packets);
            course = answered.course;
            end = put_line(out, end, answered.line);
            rest = &rest[feed + 1..];
        }
        Taken {
            course: course.keep(rest),
            end,
        }
    }

    // The input has ended: text after the last line feed is a line too. The caller lends the same buffers.
    pub fn finish(self, shelves: &mut [u8], packets: &mut [u8], out: &mut [u8]) -> usize
        requires ready { Ready self }
        requires number { number_in self < number_most }
        requires shelves { length shelves.old ≡ shelves_size }
        requires packets { length packets.old ≡ packets_size }
        requires room { answer_most ≤ length out.old }
        ensures { Finished self shelves.old packets.old result out.new }
    {
        if self.is_done() {
            return 0;
        }
        let answered = self.take_line(shelves, packets);
        put_line(out, 0, answered.line)
    }

    // No line is left: line one has come, and nothing after the last line feed.
    fn is_done(&self) -> bool
        ensures { result ≡ is_done self.now }
    {
        match self.stage {
            Stage::First => false,
            Stage::Walking(_, _) | Stage::Ended => self.line.length == 0,
        }
    }

    // Whether nothing more is printed, whatever comes.
    pub fn is_over(&self) -> bool
        ensures { result ≡ is_over self.now.stage }
    {
        matches!(self.stage, Stage::Ended)
    }
}
