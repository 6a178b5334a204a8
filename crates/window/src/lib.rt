// Run and ahead of one sender (document 01, "Numbers of a seat"): which of its edits are handed over, and handing over
// one more.
#![tactic(auto)]

ghost use Rattle.std.specs.Prelude.{◌≡◌, true, ◌+◌, ◌≤◌, ◌<◌};
ghost use Rattle.window.specs.Window.{place, handed, none_above, sound_window, marked, advanced, handed_over};

use answers::EditNo;

// Every number up to run is handed over, and so is run + 1 + b where bit b of ahead is set, least significant first.
#[derive(Clone, Copy)]
pub struct Window {
    pub run: u16,
    pub ahead: u64,
}

impl Window {
    // The bit of ahead that stands for a number. The callers have found the number to be above run.
    fn place(self, number: EditNo) -> u64
        requires { self.run < number.0 }
        ensures { result ≡ place self number.0 }
    {
        (number.0 - (self.run + 1)) as u64
    }

    // Whether a number is handed over.
    #[tactic(auto, using(crate::proofs::Handed::beyond_the_word_is_not_handed))]
    pub fn holds(self, number: EditNo) -> bool
        ensures { result ≡ handed self number.0 }
    {
        if number.0 <= self.run {
            return true;
        }
        let place = self.place(number);
        if 64 <= place {
            return false;
        }
        (self.ahead >> place) % 2 == 1
    }

    // Whether no number above a bound is marked: by the highest bit that is set. The caller has found run to be within.
    fn none_above(self, bound: u16) -> bool
        requires { self.run ≤ bound }
        ensures { result ≡ none_above bound self }
    {
        64 - u64::leading_zeros(self.ahead) <= (bound - self.run) as u32
    }

    // Whether the window is sound beside its sender's entry of past.
    #[tactic(auto, using(crate::proofs::Computed::sound_without_marks))]
    pub fn is_sound(self, past: u16) -> bool
        ensures { result ≡ sound_window past self }
    {
        if past < self.run {
            return false;
        }
        // Most windows have nothing marked.
        if self.ahead == 0 {
            return true;
        }
        (self.ahead % 2 == 0) & self.none_above(past)
    }

    // A number is marked. The callers have found it to be in the window: above run, so that it has a bit, and at most 64
    // above it, so that the bit is in the word. Both are asked of a number beside a window, here and where a seat calls: a
    // type of the two would be made for one call and taken apart in it.
    pub fn mark(self, number: EditNo) -> Window
        requires { (self.run < number.0) × (number.0 ≤ self.run + 64) }
        ensures { result ≡ marked self number.0 }
    {
        let place = self.place(number);
        let ahead = self.ahead | (1 << place);
        Window {
            run: self.run,
            ahead,
        }
    }

    // Run moves over the unbroken run of marked numbers. No number above 65,535 is marked, so that run stays a count.
    #[tactic(auto, using(crate::proofs::Computed::advanced_by_all))]
    fn advance(self) -> Window
        requires { none_above 65535 self ≡ true }
        ensures { result ≡ advanced self }
    {
        let ones = u64::trailing_zeros(!self.ahead);
        // A full window closes. There is no shift by 64.
        if 64 <= ones {
            let run = self.run + 64;
            return Window { run, ahead: 0 };
        }
        let run = self.run + (ones as u16);
        let ahead = self.ahead >> (ones as u64);
        Window { run, ahead }
    }

    // One more number is handed over. The caller has found it to be new and in the window, and the window to be sound.
    pub fn hand_over(self, number: EditNo) -> Window
        requires { (self.run < number.0) × (number.0 ≤ self.run + 64) × (none_above 65535 self ≡ true) }
        ensures { result ≡ handed_over self number.0 }
    {
        self.mark(number).advance()
    }
}
