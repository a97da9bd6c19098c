//! What is wrong with the words of the program.

use crate::saying::quoted;
use rt_values::{OutOfMemory, Text};
use std::alloc::Global;

/// A word that a number stands behind, and from which to which number.
struct Known {
    word: &'static str,
    least: u64,
    most: u64,
}

static KNOWN: [Known; 3] = [
    Known {
        word: "--units",
        least: 0,
        most: 10_000_000,
    },
    Known {
        word: "--height",
        least: 0,
        most: 256,
    },
    Known {
        word: "--make",
        least: 1,
        most: 10_000,
    },
];

fn find_known(word: &str) -> Option<&'static Known> {
    for one in &KNOWN {
        if one.word == word {
            return Some(one);
        }
    }
    None
}

/// The number that decimal digits are, of which there are at most eight, without a zero before
/// them.
fn number_in(text: &str) -> Option<u64> {
    let bytes = text.as_bytes();
    if bytes.is_empty() || bytes.len() > 8 || (bytes[0] == b'0' && bytes.len() > 1) {
        return None;
    }
    let mut number = 0u64;
    for byte in bytes {
        if !byte.is_ascii_digit() {
            return None;
        }
        number = number
            .saturating_mul(10)
            .saturating_add(byte.saturating_sub(b'0') as u64);
    }
    Some(number)
}

fn of_unknown(alloc: Global, word: &str) -> Result<String, OutOfMemory> {
    let quoted = quoted(alloc, word)?;
    if word.starts_with("-") {
        return Ok(format!(in alloc;
            "the word {quoted} isn't known; they are --units N and --height N, or one of {ALONE}"
        )?);
    }
    Ok(format!(in alloc; "the word {quoted} isn't known; the source is read from standard input")?)
}

/// What is wrong with the number behind a word.
fn of_behind(
    alloc: Global,
    one: &Known,
    behind: Option<&Text>,
) -> Result<Option<String>, OutOfMemory> {
    let (word, least, most) = (one.word, one.least, one.most);
    let found = match behind {
        None => String::from_str(alloc, "nothing")?,
        Some(text) => match number_in(text.as_str()) {
            Some(number) if least <= number && number <= most => return Ok(None),
            _ => quoted(alloc, text.as_str())?,
        },
    };
    Ok(Some(format!(in alloc;
        "behind {word} wanted a whole number from {least} to {most}, found {found}"
    )?))
}

/// Which word of the program isn't known, or what is wrong with the number behind one.
pub fn unknown_word(alloc: Global, words: &[Text]) -> Result<String, OutOfMemory> {
    for pair in words.chunks(2) {
        if let Some(word) = pair.first() {
            if word.as_str() == "--screen" {
                return Ok(String::from_str(alloc, SCREEN)?);
            }
            if word.as_str() == "--audit" {
                return Ok(String::from_str(alloc, AUDIT)?);
            }
            if word.as_str() == "--posters" {
                return Ok(String::from_str(alloc, POSTERS)?);
            }
            if word.as_str() == "--html" {
                return Ok(String::from_str(alloc, HTML)?);
            }
            if word.as_str() == "--stream" {
                return Ok(String::from_str(alloc, STREAM)?);
            }
            if word.as_str() == "--stream-json" {
                return Ok(String::from_str(alloc, STREAM_JSON)?);
            }
            let Some(one) = find_known(word.as_str()) else {
                return of_unknown(alloc, word.as_str());
            };
            if let Some(line) = of_behind(alloc, one, pair.get(1))? {
                return Ok(line);
            }
        }
    }
    Ok(format!(in alloc;
        "wanted each of --units N and --height N at most once, or one of {ALONE}"
    )?)
}

/// The words that stand alone.
const ALONE: &str =
    "--make N, --screen W H, --audit, --posters, --stream, --stream-json and --html alone";

const SCREEN: &str = "wanted --screen W H alone, W and H whole numbers from 1 to 200";

const AUDIT: &str = "wanted --audit alone";

const POSTERS: &str = "wanted --posters alone";

const STREAM: &str = "wanted --stream alone";

const STREAM_JSON: &str = "wanted --stream-json alone";

const HTML: &str = "wanted --html alone";
