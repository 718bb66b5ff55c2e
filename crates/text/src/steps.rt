// What each line does to a draft. The place of a line is a parameter and no field, since a draft outlives its lines.
ghost use Rattle.std.specs.Prelude.{◌≡◌, ◌+◌, ◌^◌, ◌<◌, map, length, Some, IfOk};
ghost use Rattle.book.specs.Ledger.{clause};
ghost use Rattle.text.specs.Drafting.{state_of};
ghost use Rattle.text.specs.Entries.{rule_of};
ghost use Rattle.text.specs.Meaning.{Did, start, scaled, may_declare, declared, entering, ruled, obeyed, row_read};
ghost use Rattle.text.specs.Parsing.{line_of};
ghost use Rattle.text.specs.Rows.{row};
ghost use Rattle.text.specs.Shapes.{seen_line, seen_lead, seen_term};

use super::checks::{check_line, is_blank};
use super::cutting::cut;
use super::drafts::{Draft, Names, ScaleSize};
use super::faults::{LineFault, Place, ReadFault};
use super::numerals::capped_value;
use super::parsing::parse_line;
use super::shapes::{Lead, Line, Term};
use super::sizes::ScaleKind;
use book::{Book, Head, Literal};
use std::alloc::{AllocError, Global};

// The longest name.
const LONGEST_NAME: usize = 12;

impl<'a> Draft<'a> {
    // Nothing has been read yet.
    pub(crate) fn new(heap: Global) -> Result<Draft<'a>, AllocError>
        ensures { IfOk result (λ d. state_of d ≡ start) }
    {
        Ok(Draft {
            heap,
            scale: None,
            names: Names::new(heap),
            book: Book::new(heap)?,
        })
    }

    fn set_scale(&mut self, kind: ScaleKind, size: u8, place: Place) -> Result<(), ReadFault>
        ensures { Did (scaled (state_of self.old) place kind size) result (state_of self.new) }
    {
        if self.scale.is_some() {
            return Err(LineFault::Shape(place).into());
        }
        let levels = kind
            .levels(size)
            .map_err(|refusal| ReadFault::Engine(refusal, place))?;
        self.book
            .make(levels, 0)
            .map_err(|refusal| ReadFault::Engine(refusal, place))?;
        self.scale = Some(ScaleSize { kind, size });
        Ok(())
    }

    // Names come after the scale and before the rules.
    fn may_declare(&self) -> bool
        ensures { result ≡ may_declare (state_of self.now) }
    {
        self.scale.is_some() && self.book.rule_count() == 0
    }

    fn declare(&mut self, name: &'a [u8], place: Place) -> Result<(), ReadFault>
        ensures { Did (declared (state_of self.old) place name.now) result (state_of self.new) }
    {
        if !self.may_declare() {
            return Err(LineFault::Shape(place).into());
        }
        if name.len() > LONGEST_NAME || self.names.number(name).is_some() {
            return Err(LineFault::Name(place).into());
        }
        self.book
            .make(self.book.levels(), self.names.count() + 1)
            .map_err(|refusal| ReadFault::Engine(refusal, place))?;
        self.names.push(name)?;
        Ok(())
    }

    // A rule over names, which have to be declared.
    fn enter(
        &mut self,
        lead: Lead<'a>,
        weight: &[u8],
        body: &[Term<'a>],
        place: Place,
    ) -> Result<(), ReadFault>
        ensures { Did (ruled (state_of self.old) place (rule_of (state_of self.old).names (seen_lead lead.entry) weight.now (map seen_term body.now))) result (state_of self.new) }
    {
        if self.scale.is_none() {
            return Err(LineFault::Shape(place).into());
        }
        let head = self.names.head(lead).ok_or(LineFault::Name(place))?;
        let literals = self
            .names
            .body(self.heap, body)?
            .ok_or(LineFault::Name(place))?;
        self.enter_rule(head, capped_value(weight), literals.as_slice(), place)
    }

    // A rule over the numbers of statements.
    fn enter_rule(
        &mut self,
        head: Head,
        weight: u8,
        body: &[Literal],
        place: Place,
    ) -> Result<(), ReadFault>
        ensures { Did (entering (state_of self.old) place (Some (clause head weight body.now))) result (state_of self.new) }
    {
        self.book
            .enter(head, weight, body)
            .map_err(|refusal| ReadFault::Engine(refusal, place))
    }

    fn obey(&mut self, said: Line<'a>, place: Place) -> Result<(), ReadFault>
        ensures { Did (obeyed (state_of self.old) place (seen_line said.entry)) result (state_of self.new) }
    {
        match said {
            Line::Scale(kind, size) => self.set_scale(kind, capped_value(size), place),
            Line::Name(name) => self.declare(name, place),
            Line::Rule(lead, weight, body) => self.enter(lead, weight, body.as_slice(), place),
        }
    }

    // Reads one line.
    pub(crate) fn read_line(&mut self, line: &'a [u8], place: Place) -> Result<(), ReadFault>
        requires { place.byte + length line.now < 2 ^ 64 }
        ensures { Did (row_read line_of (state_of self.old) (row place line.now)) result (state_of self.new) }
    {
        if is_blank(line) {
            return Ok(());
        }
        let tokens = cut(self.heap, line, place.byte)?;
        let shape = parse_line(self.heap, tokens.as_slice())?;
        let said = check_line(line, tokens.as_slice(), shape, place)?;
        self.obey(said, place)
    }
}
