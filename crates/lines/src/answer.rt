// The line that answers a step (document 01, "The step-list program").
ghost use Rattle.std.specs.Prelude.{◌+◌, ◌≤◌, length};
ghost use Rattle.lines.specs.AnswerLine.{decimal, spaced, answer_line, answer_most, Wrote};

// Written by hand: `write!` says nothing of lent bytes, and a struct that holds them owes a clause more in each method.

// The number goes to place `at` and on. The place after it comes back. The callers have found room.
fn put_number(out: &mut [u8], at: usize, number: u64) -> usize
    requires { at + length (decimal number) ≤ length out.old }
    ensures { Wrote out.old at (decimal number) result out.new }
{
    let one_digit = number < 10;
    if one_digit {
        out[at] = b'0' + number as u8;
        return at + 1;
    }
    let last = put_number(out, at, number / 10);
    out[last] = b'0' + (number % 10) as u8;
    last + 1
}

// A space and the number go to place `at` and on.
fn put_spaced(out: &mut [u8], at: usize, number: u64) -> usize
    requires { at + length (spaced number) ≤ length out.old }
    ensures { Wrote out.old at (spaced number) result out.new }
{
    out[at] = b' ';
    put_number(out, at + 1, number)
}

// The answer line goes to place `at` and on. The place after it comes back. The callers keep room for the longest line.
pub fn put_answer(
    out: &mut [u8],
    at: usize,
    number: u64,
    answer: u8,
    sender: u8,
    edit: u16,
) -> usize
    requires { at + answer_most ≤ length out.old }
    ensures { Wrote out.old at (answer_line number answer sender edit) result out.new }
{
    let answer_at = put_number(out, at, number);
    let sender_at = put_spaced(out, answer_at, answer as u64);
    let edit_at = put_spaced(out, sender_at, sender as u64);
    let end = put_spaced(out, edit_at, edit as u64);
    out[end] = b'\n';
    end + 1
}
