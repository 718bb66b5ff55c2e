// What each verdict prints: its line, and then what a fitter needs to act on it.
use book::{Book, Head, Rule};
use console::{Stop, print_text, shown};
use scale::Scale;
use solve::{Verdict, check, degree, yield_at};
use text::OnScale;
use wording::{name_of, rule_text};

// A setting of a book is judged, and the verdict printed.
#[derive(Drop)]
pub(crate) struct Judging<'a> {
    pub(crate) rt: &'a HostRuntime,
    pub(crate) book: &'a Book,
    pub(crate) names: &'a [&'a [u8]],
    pub(crate) setting: &'a [u8],
}

impl OnScale for Judging<'_> {
    type Answer = Result<(), Stop>;

    fn on_scale<S: Scale>(self, scale: &S) -> Result<(), Stop> {
        let verdict = check(scale, self.book, self.setting)?;
        self.print_verdict(verdict)?;
        match verdict {
            Verdict::Scene { .. } => {}
            Verdict::Broken { rule, residuum } => {
                let owed = yield_at(scale, self.book, rule, self.setting)?;
                self.print_broken(&self.book.rule(rule)?, owed, residuum)?;
            }
            Verdict::Unsupported { statement, degree } => self.print_unsupported(
                statement, degree,
            )?,
        }
        Ok(())
    }
}

impl Judging<'_> {
    fn print_verdict(&self, verdict: Verdict) -> anyhow::Result<()> {
        println!(self.rt; "{verdict}")?;
        Ok(())
    }

    // The head of a broken rule: what it is, against what the rule demands.
    fn print_head(&self, head: Head, owed: u8) -> anyhow::Result<()> {
        match head {
            Head::Statement(statement) => {
                let name = shown(name_of(self.names, statement));
                let degree = degree(self.setting, statement);
                println!(self.rt; "it yields {owed}, and {name} is {degree}")?;
            }
            Head::Bound(bound) => println!(self.rt; "it yields {owed}, and the bound is {bound}")?,
        }
        Ok(())
    }

    // The rule as text, how far it demands its head, and the greatest weight with which it would hold.
    fn print_broken(&self, rule: &Rule, owed: u8, residuum: u8) -> anyhow::Result<()> {
        let text = rule_text(self.rt.alloc(), self.names, rule)?;
        print_text(self.rt, text.as_slice())?;
        self.print_head(rule.head, owed)?;
        println!(self.rt; "it holds with a weight of {residuum}")?;
        Ok(())
    }

    // The statement by its name, and how far the rules support it. Its number is a `usize` here, and `name_of` and `degree` take
    // those of rules.
    fn print_unsupported(&self, statement: usize, supported: u8) -> anyhow::Result<()> {
        let name = shown(self.names.get(statement).copied().unwrap_or(b"?"));
        let degree = self.setting.get(statement).copied().unwrap_or(0);
        println!(self.rt; "{name} is {degree}, and the rules support {supported}")?;
        Ok(())
    }
}
