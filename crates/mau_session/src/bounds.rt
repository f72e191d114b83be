//! The bound of a command, and the number of `continue`.
ghost use Rattle.std.specs.Prelude.{◌≡◌};
ghost use Rattle.std.specs.Char.{is_ascii_digit};
ghost use Rattle.std.specs.List.{list_all};
ghost use Rattle.mau_session.specs.Bounds;

use crate::refusal::Refusal;
use mau_declare::Words;
use mau_tokens::Token;

/// Whether each byte of a text is a decimal digit.
fn are_all_digits(text: &str) -> bool
    ensures { result ≡ list_all is_ascii_digit text.now }
{
    text.as_bytes().iter().all(|byte| byte.is_ascii_digit())
}

/// Whether a text is decimal digits, one at least.
fn are_digits(text: &str) -> bool
    ensures { result ≡ Bounds.are_digits text.now }
{
    !text.is_empty() && are_all_digits(text)
}

/// The number from 1 to 1,000,000,000,000 that a text is.
pub fn bound_in(text: &str) -> Option<u64>
    ensures { result ≡ Bounds.bound_in text.now }
{
    if !are_digits(text) {
        return None;
    }
    match text.parse::<u64>() {
        Ok(number) => {
            if 1 <= number && number <= 1_000_000_000_000 {
                Some(number)
            } else {
                None
            }
        }
        Err(_) => None,
    }
}

/// How many solutions are asked for at most by this token: all, where there is none.
pub fn bound_of(words: &Words, token: Option<Token>) -> Result<Option<u64>, Refusal>
    ensures { result ≡ Bounds.bound_of words.now token }
{
    match token {
        None => Ok(None),
        Some(token) => match bound_in(words.token_text(token)) {
            Some(number) => Ok(Some(number)),
            None => Err(Refusal::BadBound),
        },
    }
}
