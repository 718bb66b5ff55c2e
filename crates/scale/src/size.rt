// The number that a scale of a kind is made with.
ghost use Rattle.std.specs.Prelude.{◌≤◌};
ghost use Rattle.scale.specs.Made.{Made};

use super::Refusal;

// A size from 1 to MOST.
#[derive(Clone, Copy)]
pub struct Size<const MOST: u8> {
    pub value: u8,
    ghost least: { 1 ≤ value },
    ghost most: { value ≤ MOST },
}

impl<const MOST: u8> TryFrom<u8> for Size<MOST> {
    type Error = Refusal;

    ghost try_from_gives = { Made (λ s. s.value) MOST };

    fn try_from(value: u8) -> Result<Size<MOST>, Refusal> {
        if (1..=MOST).contains(&value) {
            Ok(Size { value })
        } else {
            Err(Refusal::ScaleSize)
        }
    }
}
