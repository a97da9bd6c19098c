//! The words that the program is given, and what they ask for.
ghost use Rattle.std.specs.Prelude.{◌≡◌, ◌≤◌, IfSome};
ghost use Rattle.show_words.specs.Words as asked;

use rt_values::Text;
use run_reports::{Limits, USUAL};

/// The most rows of the generated application.
const MOST_ROWS: u64 = 10_000;

/// The most units that a word allows.
const MOST_UNITS: u64 = 10_000_000;

/// The greatest height that a word allows.
const GREATEST_HEIGHT: u64 = 256;

/// The most columns, and the most rows, of a screen.
const MOST_LINES: u64 = 200;

/// How many columns and rows a screen has.
#[derive(Clone, Copy, Debug, PartialEq, Eq)]
pub struct Size {
    pub width: u32,
    pub height: u32,
}

/// What the words ask for.
#[derive(Clone, Copy, Debug, PartialEq, Eq)]
pub enum Wish {
    /// The application of the source, within these limits.
    Run(Limits),
    /// The generated application of so many rows.
    Make(u64),
    /// The rows of a screen of this size on which the application of the source shows.
    Screen(Size),
    /// The verdict on the recorded run of the source.
    Audit,
}

/// The number with one more digit, where it is at most `most`.
fn with_digit(number: u64, digit: u8, most: u64) -> Option<u64>
    ensures number { result ≡ asked.with_digit most number digit }
{
    if !digit.is_ascii_digit() {
        return None;
    }
    let more = number
        .checked_mul(10)?
        .checked_add(u64::from(digit - b'0'))?;
    if more > most { None } else { Some(more) }
}

/// The number with more digits, where it is at most `most`.
fn with_digits(digits: &[u8], most: u64) -> Option<u64>
    ensures number { result ≡ asked.with_digits most 0 digits.now }
    ensures within { IfSome result (λ number. number ≤ most) }
{
    let mut number = 0u64;
    for digit in digits {
        number = with_digit(number, *digit, most)?;
    }
    Some(number)
}

/// The number that these digits write, without a sign or a leading zero, where it is at most
/// `most`.
fn number_of(digits: &[u8], most: u64) -> Option<u64>
    ensures number { result ≡ asked.number_of most digits.now }
    ensures within { IfSome result (λ number. number ≤ most) }
{
    match digits {
        [] | [b'0', _, ..] => None,
        _ => with_digits(digits, most),
    }
}

/// How many rows are asked for, by a word that stands alone with its number.
fn rows_of(word: &Text, number: &Text) -> Option<u64>
    ensures rows { result ≡ asked.rows_of word.now number.now }
    ensures few { IfSome result (λ rows. rows ≤ 10000) }
{
    if word.as_str() != "--make" {
        return None;
    }
    match number_of(number.as_bytes(), MOST_ROWS)? {
        0 => None,
        rows => Some(rows),
    }
}

/// How many columns or rows are asked for.
fn lines_of(number: &Text) -> Option<u32>
    ensures lines { result ≡ asked.lines_of number.now }
    ensures within { IfSome result asked.IsLines }
{
    match number_of(number.as_bytes(), MOST_LINES)? {
        0 => None,
        lines => Some(lines as u32),
    }
}

/// The size of the screen that is asked for, by a word that stands alone with its two numbers.
fn size_of(word: &Text, width: &Text, height: &Text) -> Option<Size>
    ensures size { result ≡ asked.size_of word.now width.now height.now }
    ensures within { IfSome result asked.IsSize }
{
    if word.as_str() != "--screen" {
        return None;
    }
    let width = lines_of(width)?;
    let height = lines_of(height)?;
    Some(Size { width, height })
}

/// The limits, but for the one that a word with its number sets.
fn with_limit(limits: Limits, word: &Text, number: &Text) -> Option<Limits>
    ensures limits { result ≡ asked.with_limit limits word.now number.now }
{
    match word.as_str() {
        "--units" => Some(Limits {
            units: number_of(number.as_bytes(), MOST_UNITS)?,
            ..limits
        }),
        "--height" => Some(Limits {
            height: number_of(number.as_bytes(), GREATEST_HEIGHT)? as u32,
            ..limits
        }),
        _ => None,
    }
}

/// What the words ask for; None where they aren't known.
pub fn wish_of(words: &[Text]) -> Option<Wish>
    ensures wish { result ≡ asked.wish_of words.now }
    ensures few { IfSome result asked.IsFew }
{
    match words {
        [] => Some(Wish::Run(USUAL)),
        [word] => {
            if word.as_str() == "--audit" {
                Some(Wish::Audit)
            } else {
                None
            }
        }
        [word, number] => match rows_of(word, number) {
            Some(rows) => Some(Wish::Make(rows)),
            None => Some(Wish::Run(with_limit(USUAL, word, number)?)),
        },
        [word, width, height] => Some(Wish::Screen(size_of(word, width, height)?)),
        [word, number, other, second] => {
            if word.as_str() == other.as_str() {
                return None;
            }
            let limits = with_limit(USUAL, word, number)?;
            Some(Wish::Run(with_limit(limits, other, second)?))
        }
        _ => None,
    }
}
