// Texts that are granted or refused.
ghost use Rattle.std.specs.Prelude.{◌≡◌, IfOk, vec_items};
ghost use Rattle.std.specs.Option.{option_map};
ghost use Rattle.std.specs.List.{list_all};
ghost use Rattle.vectors.specs.Hex.{bytes_of, no_capital};

use book::Book;
use hex::FromHexError;
use std::alloc::{AllocError, Global};
use text::read;

// What reading the text answers, in the words of the file.
fn answer_to(heap: Global, text: &[u8]) -> Result<String, AllocError> {
    let mut book = Book::new(heap)?;
    match read(heap, text, &mut book) {
        Ok(reading) if reading.statements == book.statements() => {
            let kind = reading.kind;
            let size = reading.size;
            let statements = reading.statements;
            let rules = book.rule_count();
            format!(in heap; "granted {kind} {size} {statements} {rules}")
        }
        Ok(_) => String::from_str(heap, "granted with other statements than the book has"),
        Err(fault) => {
            let number = fault.number();
            let line = fault.line();
            let byte = fault.byte();
            format!(in heap; "refused {number} line {line} byte {byte}")
        }
    }
}

fn has_no_capital(digits: &[u8]) -> bool
    ensures { result ≡ list_all no_capital digits.now }
{
    digits.iter().all(|digit| !digit.is_ascii_uppercase())
}

// The bytes that the digits spell; nothing where they are none, or odd. A capital letter is no digit of these files, though
// the crate's decoder takes it for one.
fn decode(heap: Global, digits: &[u8]) -> Result<Option<Vec<u8>>, AllocError>
    ensures { IfOk result (λ bytes. option_map vec_items bytes ≡ bytes_of digits.now) }
{
    if !has_no_capital(digits) {
        return Ok(None);
    }
    match hex::decode(heap, digits) {
        Ok(bytes) => Ok(Some(bytes)),
        Err(FromHexError::OutOfMemory) => Err(AllocError),
        Err(_) => Ok(None),
    }
}

pub(crate) fn agrees(heap: Global, digits: &[u8], verdict: &[u8]) -> Result<bool, AllocError> {
    let Some(text) = decode(heap, digits)? else {
        return Ok(false);
    };
    let answer = answer_to(heap, text.as_slice())?;
    Ok(answer.as_bytes() == verdict)
}
