//! The two words that a program is asked with: LEVEL and ROLE, each a number from 0 to 15.
ghost use Rattle.std.specs.Prelude.{◌≡◌, ◌+◌, ◌-◌, map, Some, string_bytes};
ghost use Rattle.grid.specs.Words.{digit_of, number_of, read_of, wrong_text};

use std::error::Error;
use std::fmt;

/// Which word is wrong.
#[derive(Clone, Copy, PartialEq, Eq, Debug)]
pub enum Wrong {
    NoLevel,
    BadLevel,
    NoRole,
    BadRole,
    OneTooMany,
}

impl fmt::Display for Wrong {
    ghost output = { λ wrong. Some (wrong_text wrong) };

    fn fmt<W: fmt::Write>(&self, f: &mut fmt::Formatter<W>) -> fmt::Result {
        match self {
            Wrong::NoLevel => write!(f, "LEVEL is missing"),
            Wrong::BadLevel => write!(f, "LEVEL is not a number from 0 to 15"),
            Wrong::NoRole => write!(f, "ROLE is missing"),
            Wrong::BadRole => write!(f, "ROLE is not a number from 0 to 15"),
            Wrong::OneTooMany => write!(f, "one word too many"),
        }
    }
}

impl Error for Wrong {}

/// The level and the role that the words give, or the first of them that is wrong.
pub fn read(words: &[String]) -> Result<(u8, u8), Wrong>
    ensures { result ≡ read_of (map string_bytes words.now) }
{
    let level = words.first().ok_or(Wrong::NoLevel)?;
    let level = number(level.as_str()).ok_or(Wrong::BadLevel)?;
    let role = words.get(1).ok_or(Wrong::NoRole)?;
    let role = number(role.as_str()).ok_or(Wrong::BadRole)?;
    if words.len() > 2 {
        return Err(Wrong::OneTooMany);
    }
    Ok((level, role))
}

/// The number of a word from 0 to 15: one digit, or a 1 and a digit up to 5.
pub fn number(word: &str) -> Option<u8>
    ensures { result ≡ number_of word.now }
{
    // not by `parse`, which takes "05" and "+1"
    match word.as_bytes() {
        [byte] => digit(9, *byte),
        [b'1', byte] => digit(5, *byte).map(|digit| 10 + digit),
        _ => None,
    }
}

// The number of a digit from 0 to the highest one.
fn digit(highest: u8, byte: u8) -> Option<u8>
    ensures { result ≡ digit_of highest byte }
{
    byte.checked_sub(b'0').filter(|digit| *digit <= highest)
}
