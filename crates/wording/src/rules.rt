// A rule as a line of text, as a book's text has it.
ghost use Rattle.std.specs.Prelude.{◌≡◌, map, IfOk, codes, decimal, OnOk};
ghost use Rattle.book.specs.Rows.{clause_of};
ghost use Rattle.wording.specs.Wording.{Gains, names_of, name_of, literal_text, literals_text, head_text, rule_text};

use book::{Head, Literal, Rule};
use std::alloc::{AllocError, Global};

// The name of a statement; one that has none goes by a question mark.
pub fn name_of<'a>(names: &[&'a [u8]], statement: u8) -> &'a [u8]
    ensures { result.now ≡ name_of (map (λ x. x.now) names.now) statement }
{
    names.get(usize::from(statement)).copied().unwrap_or(b"?")
}

// A line that grows, and the names of the statements that it tells of. Bytes and no `Display`, since a name is a part of a
// text of bytes.
#[derive(Drop)]
struct Line<'a> {
    names: &'a [&'a [u8]],
    text: Vec<u8>,
}

impl Line<'_> {
    fn put(&mut self, bytes: &[u8]) -> Result<(), AllocError>
        ensures { OnOk result (Gains bytes.now self.old self.new) }
    {
        self.text.extend_from_slice(bytes)
    }

    fn put_number(&mut self, number: u8) -> Result<(), AllocError>
        ensures { OnOk result (Gains (decimal number) self.old self.new) }
    {
        self.put(itoa::Buffer::new().format(number).as_bytes())
    }

    fn put_name(&mut self, statement: u8) -> Result<(), AllocError>
        ensures { OnOk result (Gains (name_of (names_of self.old) statement) self.old self.new) }
    {
        self.put(name_of(self.names, statement))
    }

    fn put_literal(&mut self, literal: Literal) -> Result<(), AllocError>
        ensures { OnOk result (Gains (literal_text (names_of self.old) literal) self.old self.new) }
    {
        match literal {
            Literal::Plain(statement) => self.put_name(statement),
            Literal::Above(statement, degree) => {
                self.put_name(statement)?;
                self.put(b" > ")?;
                self.put_number(degree)
            }
            Literal::Lacking(statement) => {
                self.put(b"~")?;
                self.put_name(statement)
            }
        }
    }

    fn put_literals(&mut self, literals: &[Literal]) -> Result<(), AllocError>
        ensures { OnOk result (Gains (literals_text (names_of self.old) (codes " : ") literals.now) self.old self.new) }
    {
        // No `join`, which would need each literal as a text of its own.
        let mut lead: &[u8] = b" : ";
        for literal in literals {
            self.put(lead)?;
            self.put_literal(*literal)?;
            lead = b", ";
        }
        Ok(())
    }

    fn put_head(&mut self, head: Head, weight: u8) -> Result<(), AllocError>
        ensures { OnOk result (Gains (head_text (names_of self.old) head weight) self.old self.new) }
    {
        match head {
            Head::Statement(statement) => {
                self.put(b"rule ")?;
                self.put_number(weight)?;
                self.put(b" ")?;
                self.put_name(statement)
            }
            Head::Bound(degree) => {
                self.put(b"bound ")?;
                self.put_number(degree)?;
                self.put(b" ")?;
                self.put_number(weight)
            }
        }
    }
}

// The rule as a line of a book's text, without the byte 10 that ends it; statement i goes by name i.
pub fn rule_text(heap: Global, names: &[&[u8]], rule: &Rule) -> Result<Vec<u8>, AllocError>
    ensures { IfOk result (λ line. line.items ≡ rule_text (map (λ x. x.now) names.now) (clause_of rule.now)) }
{
    let mut line = Line {
        names,
        text: Vec::new(heap),
    };
    line.put_head(rule.head, rule.weight)?;
    line.put_literals(rule.body.literals())?;
    Ok(line.text)
}
