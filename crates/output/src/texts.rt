// The text of a line, put together in a value of its own: no heap is taken.
ghost use Rattle.std.specs.Prelude.{◌≡◌, ◌+◌, ◌*◌, ◌≤◌, ◌++◌, length};
ghost use Rattle.arrayvec.specs.ArrayString.{array_string_len};
ghost use Rattle.output.specs.Spelling.{spaced};

use super::lines::LEAST_PLACE;
use arrayvec::ArrayString;
use itoa::{Buffer, Integer};

pub(crate) type Text = ArrayString<LEAST_PLACE>;

// Appends a number without leading zeros.
pub(crate) fn push_number<I: Integer>(text: &mut Text, number: I)
    requires { array_string_len text.old + I.MAX_STR_LEN ≤ 96 }
    ensures bytes { text.new.bytes ≡ text.old.bytes ++ I.text number }
    ensures len { array_string_len text.new ≤ array_string_len text.old + I.MAX_STR_LEN }
{
    text.push_str(Buffer::new().format(number));
}

// Appends each degree after a space; a byte has at most three digits.
pub(crate) fn push_degrees(text: &mut Text, degrees: &[u8])
    requires { array_string_len text.old + 4 * length degrees.now ≤ 96 }
    ensures bytes { text.new.bytes ≡ text.old.bytes ++ spaced degrees.now }
    ensures len { array_string_len text.new ≤ array_string_len text.old + 4 * length degrees.now }
{
    for degree in degrees {
        text.push_str(" ");
        push_number(text, *degree);
    }
}
