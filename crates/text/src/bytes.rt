// What the bytes of a text are for.
ghost use Rattle.std.specs.Prelude.{◌≡◌};
ghost use Rattle.std.specs.List.{list_all, prefix_len};
ghost use Rattle.text.specs.Bytes.{digit, wordly, sign_of, allowed};

use super::tokens::Mark;

pub(crate) fn is_word_byte(b: u8) -> bool
    ensures { result ≡ wordly b }
{
    matches!(b, b'a'..=b'z' | b'0'..=b'9' | b'_')
}

// The mark that a byte is. No `TryFrom`, whose error nobody would read: most bytes are no mark.
pub(crate) fn mark_of(b: u8) -> Option<Mark>
    ensures { result ≡ sign_of b }
{
    match b {
        b':' => Some(Mark::Colon),
        b',' => Some(Mark::Comma),
        b'>' => Some(Mark::Above),
        b'~' => Some(Mark::Not),
        _ => None,
    }
}

fn is_allowed(b: u8) -> bool
    ensures { result ≡ allowed b }
{
    is_word_byte(b) || b == b' ' || mark_of(b).is_some()
}

// Is every byte of the line allowed?
pub(crate) fn all_allowed(line: &[u8]) -> bool
    ensures { result ≡ list_all allowed line.now }
{
    line.iter().all(|b| is_allowed(*b))
}

// Is the word made of digits only?
pub(crate) fn all_digits(word: &[u8]) -> bool
    ensures { result ≡ list_all digit word.now }
{
    word.iter().all(|b| b.is_ascii_digit())
}

// How many bytes of a word stand at the front.
pub(crate) fn word_len(bytes: &[u8]) -> usize
    ensures { result ≡ prefix_len wordly bytes.now }
{
    bytes.iter().take_while(|b| is_word_byte(**b)).count()
}
