// The book that a text describes, as far as its lines have been read.
ghost use Rattle.std.specs.Prelude.{◌≤◌, vec_len};

use super::sizes::ScaleKind;
use book::Book;
use std::alloc::Global;

#[derive(Clone, Copy)]
pub(crate) struct ScaleSize {
    pub(crate) kind: ScaleKind,
    pub(crate) size: u8,
}

// The names of the statements, in their order. A book has at most 16.
#[derive(Drop)]
pub(crate) struct Names<'a> {
    pub(crate) list: Vec<&'a [u8]>,
    ghost few: { vec_len list ≤ 16 },
}

#[derive(Drop)]
pub(crate) struct Draft<'a> {
    pub(crate) heap: Global,
    pub(crate) scale: Option<ScaleSize>,
    pub(crate) names: Names<'a>,
    pub(crate) book: Book,
}
