//! Words of forms.
ghost use Rattle.std.specs.Prelude.{◌≡◌, ◌∷◌};
ghost use Rattle.mau_modtext.specs.Forms;

/// At the start of a word, in a word, or behind a backquote that stands before a special character.
#[derive(Clone, Copy, Debug, PartialEq, Eq)]
enum Within {
    Start,
    Middle,
    Special,
}

fn is_special_byte(byte: u8) -> bool
    ensures { result ≡ Forms.is_special_byte byte }
{
    byte == b'('
        || byte == b')'
        || byte == b'['
        || byte == b']'
        || byte == b'{'
        || byte == b'}'
        || byte == b','
}

fn begins_special(bytes: &[u8]) -> bool
    ensures { result ≡ Forms.begins_special bytes.now }
{
    match bytes.split_first() {
        Some((byte, _)) => is_special_byte(*byte),
        None => false,
    }
}

/// Whether a word ends before these bytes.
fn ends_word(bytes: &[u8]) -> bool
    ensures { result ≡ Forms.ends_word bytes.now }
{
    match bytes.split_first() {
        Some((byte, rest)) => *byte == b'_' || (*byte == b'`' && begins_special(rest)),
        None => true,
    }
}

/// Whether a comment or a string would begin here.
fn begins_other(bytes: &[u8]) -> bool
    ensures { result ≡ Forms.begins_other bytes.now }
{
    bytes.starts_with(b"***") || bytes.starts_with(b"---") || bytes.starts_with(b"\"")
}

/// Where one is behind a byte.
fn behind_byte(within: Within, byte: u8, rest: &[u8]) -> Within
    ensures { result ≡ Forms.behind_byte within byte rest.now }
{
    match within {
        Within::Special => Within::Start,
        _ => {
            if byte == b'_' {
                Within::Start
            } else if byte == b'`' && begins_special(rest) {
                Within::Special
            } else {
                Within::Middle
            }
        }
    }
}

/// Whether a backquote is the last character of its word.
fn is_last_backquote(byte: u8, rest: &[u8]) -> bool
    ensures { result ≡ Forms.is_last_backquote byte rest.now }
{
    byte == b'`' && !begins_special(rest) && ends_word(rest)
}

/// Whether the first byte is no fault where it stands.
fn is_fine(within: Within, bytes: &[u8], byte: u8, rest: &[u8]) -> bool
    requires { bytes.now ≡ byte ∷ rest.now }
    ensures { result ≡ Forms.is_fine within byte rest.now }
{
    match within {
        Within::Special => true,
        Within::Middle => !is_last_backquote(byte, rest),
        Within::Start => !begins_other(bytes) && !is_last_backquote(byte, rest),
    }
}

/// Whether a token may be a word of a form: none of its words begins like a comment or a string, or ends with a backquote.
pub fn is_form_word(text: &str) -> bool
    ensures { result ≡ Forms.is_form_word text.now }
{
    let mut within = Within::Start;
    let mut bytes = text.as_bytes();
    while let Some((byte, rest)) = bytes.split_first() {
        if !is_fine(within, bytes, *byte, rest) {
            return false;
        }
        within = behind_byte(within, *byte, rest);
        bytes = rest;
    }
    true
}
