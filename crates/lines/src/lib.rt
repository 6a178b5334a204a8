// The lines of a step list (document 01, "The step-list program"). A line is the bytes before its line feed.
#![tactic(auto)]

pub mod answer;

ghost use Rattle.std.specs.Prelude.{◌≡◌, ◌==◌, true, [], ◌∷◌, MatchOption};
ghost use Rattle.std.specs.List.{list_all, position};
ghost use Rattle.lines.specs.Lines.{space, words, is_digit, is_number, number_in, number_of, letter_of, read_send, read_arrival, read_release, read_step, read_opening};

// The kind that a send line names.
#[derive(Clone, Copy)]
pub enum Letter {
    Ordinary,
    Causal,
}

// What a line after the first says: a send its seat, and it may lack its letter; an arrival its seat, sender and
// sequence number; a release its seat.
#[derive(Clone, Copy)]
pub enum Step {
    Send(u32, Option<Letter>),
    Arrive(u32, u32, u32),
    Release(u32),
}

// What line one says: n and the slots of every shelf.
#[derive(Clone, Copy)]
pub struct Opening {
    pub n: u32,
    pub slots: u32,
}

// Where the first space stands. A step list finds its line feeds alike; a function of both would only name `position`.
fn first_space(line: &[u8]) -> Option<usize>
    ensures { result ≡ position (λ byte. byte == space) line.now }
{
    line.iter().position(|byte| *byte == b' ')
}

// The first word and what stands behind its space, where the line has a space.
fn split_word(line: &[u8]) -> Option<(&[u8], &[u8])>
    ensures { MatchOption result (words line.now ≡ line.now ∷ []) (λ parts. words line.now ≡ parts.0.now ∷ words parts.1.now) }
{
    let end = first_space(line)?;
    Some((&line[..end], &line[end + 1..]))
}

fn has_digits_alone(word: &[u8]) -> bool
    ensures { result ≡ list_all (λ byte. is_digit byte) word.now }
{
    word.iter().all(u8::is_ascii_digit)
}

// Whether a word is a number of 1 to 5 digits.
fn is_number(word: &[u8]) -> bool
    ensures { result ≡ is_number word.now }
{
    (1 <= word.len()) & (word.len() <= 5) & has_digits_alone(word)
}

// The number that a word of at most 5 digits spells. The caller has found it to be one. std parses text, and a line is
// bytes.
fn value_of(word: &[u8]) -> u32
    requires { is_number word.now ≡ true }
    ensures { result ≡ number_in word.now }
{
    let mut value = 0;
    for byte in word {
        value = value * 10 + (*byte - b'0') as u32;
    }
    value
}

fn read_number(word: &[u8]) -> Option<u32>
    ensures { result ≡ number_of word.now }
{
    if !is_number(word) {
        return None;
    }
    Some(value_of(word))
}

// The letter of a kind.
fn read_letter(word: &[u8]) -> Option<Letter>
    ensures { result ≡ letter_of word.now }
{
    match word {
        b"o" => Some(Letter::Ordinary),
        b"c" => Some(Letter::Causal),
        _ => None,
    }
}

// After the letter s: a seat, and the kind's letter, which may be missing.
fn read_send(rest: &[u8]) -> Option<Step>
    ensures { result ≡ read_send (words rest.now) }
{
    let Some((seat, kind)) = split_word(rest) else {
        return Some(Step::Send(read_number(rest)?, None));
    };
    let letter = read_letter(kind)?;
    Some(Step::Send(read_number(seat)?, Some(letter)))
}

// After the letter a: a seat, a sender and a number.
fn read_arrival(rest: &[u8]) -> Option<Step>
    ensures { result ≡ read_arrival (words rest.now) }
{
    let (seat, others) = split_word(rest)?;
    let (sender, number) = split_word(others)?;
    Some(Step::Arrive(
        read_number(seat)?,
        read_number(sender)?,
        read_number(number)?,
    ))
}

// After the letter r: a seat.
#[tactic(auto, using(crate::proofs::Grammar::release_is))]
fn read_release(rest: &[u8]) -> Option<Step>
    ensures { result ≡ read_release (words rest.now) }
{
    Some(Step::Release(read_number(rest)?))
}

// A line after the first.
pub fn read_step(line: &[u8]) -> Option<Step>
    ensures { result ≡ read_step line.now }
{
    let (letter, rest) = split_word(line)?;
    match letter {
        b"s" => read_send(rest),
        b"a" => read_arrival(rest),
        b"r" => read_release(rest),
        _ => None,
    }
}

// Line one.
pub fn read_opening(line: &[u8]) -> Option<Opening>
    ensures { result ≡ read_opening line.now }
{
    let (n, slots) = split_word(line)?;
    Some(Opening {
        n: read_number(n)?,
        slots: read_number(slots)?,
    })
}
