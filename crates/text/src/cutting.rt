// A line is cut into its tokens.
ghost use Rattle.std.specs.Prelude.{◌≡◌, ◌+◌, ◌^◌, ◌<◌, map, length, IfOk};
ghost use Rattle.text.specs.Tokens.{seen, run_spell, token, tokens_of};

use super::bytes::{all_digits, is_word_byte, mark_of, word_len};
use super::tokens::Token;
use std::alloc::{AllocError, Global};

fn word_token<'a>(word: &'a [u8], offset: usize) -> Token<'a>
    ensures { seen result ≡ token (run_spell word.now) offset }
{
    if all_digits(word) {
        Token::Number(word, offset)
    } else {
        Token::Word(word, offset)
    }
}

// The tokens of a line that starts at an offset of the text. A byte that is not allowed parts tokens like a space.
pub(crate) fn cut<'a>(
    heap: Global,
    line: &'a [u8],
    start: usize,
) -> Result<Vec<Token<'a>>, AllocError>
    requires { start + length line.now < 2 ^ 64 }
    ensures { IfOk result (λ v. map seen v.items ≡ tokens_of start line.now) }
{
    let mut tokens = Vec::new(heap);
    let mut rest = line;
    let mut offset = start;
    while let [first, ..] = rest {
        let (piece, after) = rest.split_at(word_len(rest).max(1));
        if is_word_byte(*first) {
            tokens.push(word_token(piece, offset))?;
        } else if let Some(mark) = mark_of(*first) {
            tokens.push(Token::Mark(mark, offset))?;
        }
        offset += piece.len();
        rest = after;
    }
    Ok(tokens)
}
