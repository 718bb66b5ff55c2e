// Numbers as they are written.
ghost use Rattle.std.specs.Prelude.{◌≡◌, ◌-◌, min};
ghost use Rattle.text.specs.Numerals.{value_of};

// The value of the digits, or 255 where it is more: every scale and book refuses that alike.
pub(crate) fn capped_value(digits: &[u8]) -> u8
    ensures { result ≡ min 255 (value_of digits.now) }
{
    digits.iter().fold(
        0u8,
        |value, b| value
            .saturating_mul(10)
            .saturating_add(b.saturating_sub(b'0')),
    )
}
