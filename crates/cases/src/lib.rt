// The worked books of specs/Books, and that all that is claimed of them is so.
#![tactic(auto)]

ghost use Rattle.std.specs.Prelude.{◌≡◌, length};
ghost use Rattle.std.specs.List.{AllByRecursion};
ghost use Rattle.cases.specs.Books.{cases};
ghost use Rattle.cases.specs.Claims.{Holds};

// The theorem alone, apart from the count.
fn all_hold()
    ensures { AllByRecursion Holds cases }
{}

// How many worked cases there are. Its contract has what they are for: every one holds.
pub fn worked_books() -> usize
    ensures count { result ≡ length cases }
    ensures hold { AllByRecursion Holds cases }
{
    all_hold();
    16
}
