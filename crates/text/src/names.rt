// What is looked up among the names that a text declares.
ghost use Rattle.std.specs.Prelude.{◌≡◌, [], ◌∷◌, ◌++◌, ◌<◌, map, length, IfOk, vec_items};
ghost use Rattle.std.specs.Option.{option_map};
ghost use Rattle.text.specs.Lists.{traversed};
ghost use Rattle.text.specs.Shapes.{seen_term, seen_lead};
ghost use Rattle.text.specs.Entries.{names_of, index_of, head_of, literal_of};

use super::drafts::Names;
use super::numerals::capped_value;
use super::shapes::{Lead, Term};
use book::{Head, Literal};
use std::alloc::{AllocError, AllocFailed, Global};

impl<'a> Names<'a> {
    pub(crate) fn new(heap: Global) -> Names<'a>
        ensures { names_of result ≡ [] }
    {
        Names {
            list: Vec::new(heap),
        }
    }

    pub(crate) fn count(&self) -> u8
        ensures { result ≡ length (names_of self.now) }
    {
        self.list.len() as u8
    }

    pub(crate) fn push(&mut self, name: &'a [u8]) -> Result<(), AllocFailed<&'a [u8]>>
        requires { length (names_of self.old) < 16 }
        ensures { IfOk result (λ _. names_of self.new ≡ names_of self.old ++ name.now ∷ []) }
    {
        self.list.push(name)
    }

    // The number of the statement that has this name.
    pub(crate) fn number(&self, name: &[u8]) -> Option<u8>
        ensures { result ≡ index_of (names_of self.now) name.now }
    {
        let number = self.list.iter().position(|known| *known == name)?;
        Some(number as u8)
    }

    pub(crate) fn head(&self, lead: Lead) -> Option<Head>
        ensures { result ≡ head_of (names_of self.now) (seen_lead lead.entry) }
    {
        match lead {
            Lead::Statement(name) => Some(Head::Statement(self.number(name)?)),
            Lead::Bound(degree) => Some(Head::Bound(capped_value(degree))),
        }
    }

    fn literal(&self, term: Term) -> Option<Literal>
        ensures { result ≡ literal_of (names_of self.now) (seen_term term.entry) }
    {
        match term {
            Term::Plain(name) => Some(Literal::Plain(self.number(name)?)),
            Term::Above(name, degree) => Some(Literal::Above(
                self.number(name)?,
                capped_value(degree),
            )),
            Term::Lacking(name) => Some(Literal::Lacking(self.number(name)?)),
        }
    }

    // The body over statement numbers, or nothing where a name is not known. A loop beside that of `parse_terms`: one function
    // for both would take an iterator and a closure, and be no shorter.
    pub(crate) fn body(
        &self,
        heap: Global,
        terms: &[Term],
    ) -> Result<Option<Vec<Literal>>, AllocError>
        ensures { IfOk result (λ l. option_map vec_items l ≡ traversed (literal_of (names_of self.now)) (map seen_term terms.now)) }
    {
        let mut body = Vec::new(heap);
        for term in terms {
            match self.literal(*term) {
                Some(literal) => body.push(literal)?,
                None => return Ok(None),
            }
        }
        Ok(Some(body))
    }
}
