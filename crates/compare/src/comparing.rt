// Two books are compared on a scale, and the answer printed.
use book::{Book, Head, MOST_STATEMENTS, Rule};
use console::{Stop, print_text};
use engine::{Comparison, compare};
use scale::Scale;
use text::OnScale;
use wording::rule_text;

// Two books on one scale. An addendum is told with the names of the first.
#[derive(Drop)]
pub(crate) struct Comparing<'a> {
    pub(crate) rt: &'a HostRuntime,
    pub(crate) first: &'a Book,
    pub(crate) second: &'a Book,
    pub(crate) names: &'a [&'a [u8]],
}

impl OnScale for Comparing<'_> {
    type Answer = Result<(), Stop>;

    fn on_scale<S: Scale>(self, scale: &S) -> Result<(), Stop> {
        // Arrays: books that are read are compared without asking for memory.
        let mut addendum = [Rule::fact(Head::Bound(0), 0); 2 * MOST_STATEMENTS];
        let mut row = [0; MOST_STATEMENTS];
        let setting = &mut row[..usize::from(self.first.statements()).min(MOST_STATEMENTS)];
        let answer = compare(scale, self.first, self.second, &mut addendum, setting)?;
        self.print_answer(answer)?;
        if let Comparison::Unequal { rules, .. } = answer {
            self.print_addendum(addendum.get(0..rules).unwrap_or(&addendum))?;
            self.print_setting(setting)?;
        }
        Ok(())
    }
}

impl Comparing<'_> {
    fn print_answer(&self, answer: Comparison) -> anyhow::Result<()> {
        println!(self.rt; "{answer}")?;
        Ok(())
    }

    // The rules to add to both books.
    fn print_addendum(&self, addendum: &[Rule]) -> anyhow::Result<()> {
        for rule in addendum {
            let text = rule_text(self.rt.alloc(), self.names, rule)?;
            print_text(self.rt, text.as_slice())?;
        }
        Ok(())
    }

    // The setting that is then a scene of the book named alone, each degree after a space.
    fn print_setting(&self, setting: &[u8]) -> anyhow::Result<()> {
        print!(self.rt; "setting")?;
        for degree in setting {
            print!(self.rt; " {degree}")?;
        }
        println!(self.rt; "")?;
        Ok(())
    }
}
