// Going through all settings in the order of their positions.
ghost use Rattle.std.specs.Prelude.{◌≡◌, ◌^◌, ◌≤◌, length};
ghost use Rattle.std.specs.Fn.{FnReturnsAt};
ghost use Rattle.theory.specs.Position.{position};
ghost use Rattle.solve.specs.Ready.{AllBelow};
ghost use Rattle.engine.specs.Differences.{Advanced, Answered};

// Goes on to the setting of the next position; from the last one back to the first. By index, since a proof knows nothing
// of what is written through the reversed `iter_mut`.
fn advance(row: &mut [u8], levels: u8)
    requires { (1 ≤ levels) × AllBelow levels row.old }
    ensures { Advanced levels row.old row.new }
{
    for statement in (0..row.len()).rev() {
        if row[statement] + 1 < levels {
            row[statement] += 1;
            return;
        }
        row[statement] = 0;
    }
}

// The first answer that a test gives, going through all settings from the one of position 0 on. That setting stays in the
// row. `count` is the number of all settings. The solver's search is another: it tells positions and begins at any.
pub(crate) fn first_answer<T, F: Fn(&[u8]) -> Option<T>>(
    row: &mut [u8],
    levels: u8,
    count: u64,
    test: F,
) -> Option<T>
    requires callable { (setting : _) → length setting.now ≡ length row.old → AllBelow levels setting.now → F.pre test setting }
    requires degrees { AllBelow levels row.old }
    requires start { position levels row.old ≡ 0 }
    requires whole { count ≡ levels ^ length row.old }
    ensures { Answered levels (length row.old) (FnReturnsAt F.Fn test) row.new result }
{
    for _ in 0..count {
        if let Some(answer) = test(row) {
            return Some(answer);
        }
        advance(row, levels);
    }
    None
}
