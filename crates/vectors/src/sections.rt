// A file of cases is cut into sections: a heading, which is a line that begins with a hash mark, and the lines below it.
ghost use Rattle.std.specs.Prelude.{◌<◌, length, IfOk};
ghost use Rattle.vectors.specs.Sections.{FirstLine, FirstSection, Parted, Cut};

use memchr::{memchr, memmem};
use std::alloc::{AllocError, Global};

// The last line, where a file has one that belongs to no case.
const END: &[u8] = b"#end\n";

#[derive(Clone, Copy)]
pub(crate) struct Section<'a> {
    // Without the end of its line.
    pub(crate) heading: &'a [u8],
    body: &'a [u8],
}

// How many bytes stand before the first end of a line.
fn line_len(bytes: &[u8]) -> usize
    ensures { FirstLine bytes.now result }
{
    memchr(b'\n', bytes).unwrap_or(bytes.len())
}

// How many bytes stand before the second heading.
fn section_len(bytes: &[u8]) -> usize
    requires { 0 < length bytes.now }
    ensures { FirstSection bytes.now result }
{
    // A match, since in a closure of `map_or` the bound of the sum would not be known.
    match memmem::find(bytes, b"\n#") {
        Some(end) => end + 1,
        None => bytes.len(),
    }
}

impl<'a> Section<'a> {
    fn new(bytes: &'a [u8]) -> Section<'a>
        ensures { Parted bytes.now result }
    {
        let (heading, rest) = bytes.split_at(line_len(bytes));
        Section {
            heading,
            body: rest.get(1..).unwrap_or(rest),
        }
    }

    // The body, where the heading begins with the word.
    pub(crate) fn body_under(&self, word: &[u8]) -> Option<&'a [u8]> {
        self.heading.starts_with(word).then_some(self.body)
    }

    // What follows the word in the heading, where there is no body.
    pub(crate) fn line_after(&self, word: &[u8]) -> Option<&'a [u8]> {
        self.heading
            .strip_prefix(word)
            .filter(|_| self.body.is_empty())
    }
}

pub(crate) fn without_end(bytes: &[u8]) -> &[u8] {
    bytes.strip_suffix(END).unwrap_or(bytes)
}

pub(crate) fn cut<'a>(heap: Global, bytes: &'a [u8]) -> Result<Vec<Section<'a>>, AllocError>
    ensures { IfOk result (λ sections. Cut bytes.now sections.items) }
{
    let mut sections = Vec::new(heap);
    let mut rest = bytes;
    while !rest.is_empty() {
        let (section, after) = rest.split_at(section_len(rest));
        sections.push(Section::new(section))?;
        rest = after;
    }
    Ok(sections)
}
