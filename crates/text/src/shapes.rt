// What a line says, with its names and numbers still as they are written.
use super::sizes::ScaleKind;

// One literal of a body.
#[derive(Clone, Copy)]
pub(crate) enum Term<'a> {
    Plain(&'a [u8]),
    Above(&'a [u8], &'a [u8]),
    Lacking(&'a [u8]),
}

// What a rule leads to: a statement by its name, or a bound by its degree.
#[derive(Clone, Copy)]
pub(crate) enum Lead<'a> {
    Statement(&'a [u8]),
    Bound(&'a [u8]),
}

#[derive(Drop)]
pub(crate) enum Line<'a> {
    Scale(ScaleKind, &'a [u8]),
    Name(&'a [u8]),
    Rule(Lead<'a>, &'a [u8], Vec<Term<'a>>),
}
