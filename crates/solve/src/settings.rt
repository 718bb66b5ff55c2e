// Settings by their positions.
ghost use Rattle.std.specs.Prelude.{◌≡◌, ◌^◌, ◌<◌, ◌≤◌, length, MatchOption};
ghost use Rattle.theory.specs.Position.{position};
ghost use Rattle.solve.specs.Ready.{AllBelow};

// How many settings there are, levels to the power of the statements, where that is at most `most`.
pub fn setting_count(levels: u8, statements: u8, most: u32) -> Option<u64>
    ensures { MatchOption result (most < levels ^ statements) (λ n. (n ≡ levels ^ statements) × (n ≤ most)) }
{
    u64::from(levels)
        .checked_pow(u32::from(statements))
        .filter(|count| *count <= u64::from(most))
}

// Writes the setting of a position: its digits in base `levels`, the last statement's the lowest.
pub(crate) fn write_setting(row: &mut [u8], levels: u8, place: u64)
    requires some { 0 < levels }
    requires within { place < levels ^ length row.old }
    ensures position { position levels row.new ≡ place }
    ensures degrees { AllBelow levels row.new }
{
    let base = u64::from(levels);
    let mut rest = place;
    // By index, for a proof knows only the length of a row after `iter_mut().rev()`.
    for statement in (0..row.len()).rev() {
        row[statement] = (rest % base) as u8;
        rest /= base;
    }
}
