// The kinds of scale, and what is done on a scale whose kind is known only at run time.
ghost use Rattle.std.specs.Prelude.{◌≡◌, Some, ⊤};
ghost use Rattle.scale.specs.Causes.{Answers, answered};
ghost use Rattle.scale.specs.Meaning.{Meaning};
ghost use Rattle.text.specs.Parsing.{worded};
ghost use Rattle.text.specs.Shapes.{kind_word};
ghost use Rattle.text.specs.Sizes.{levels_of, meaning_of, size_refusal};

use scale::{Godel, Hours, Luk, Refusal, Scale};
use std::fmt;

#[derive(Clone, Copy, PartialEq, Eq, Debug)]
pub enum ScaleKind {
    Luk,
    Godel,
    Hours,
}

impl fmt::Display for ScaleKind {
    ghost output = { λ kind. Some (kind_word kind) };

    fn fmt<W: fmt::Write>(&self, f: &mut fmt::Formatter<W>) -> fmt::Result {
        f.write_str(match self {
            ScaleKind::Luk => "luk",
            ScaleKind::Godel => "godel",
            ScaleKind::Hours => "hours",
        })
    }
}

// A task for any scale. It is generic, so that each kind of scale runs it at its own speed.
pub trait OnScale {
    type Answer;

    // What the task may answer on a scale of this meaning; a task of which nothing is proved leaves it out.
    ghost answers: { Self → Meaning → Self.Answer → Type 0 } = { λ _ _ _. ⊤ };

    fn on_scale<S: Scale>(self, scale: &S) -> Self::Answer
        ensures { answers self (S.meaning scale.now) result };
}

impl ScaleKind {
    // The kind that a word names. No `TryFrom`, whose error nobody would read: a line with another word has no shape.
    pub(crate) fn of_word(word: &[u8]) -> Option<ScaleKind>
        ensures { result ≡ worded word.now }
    {
        match word {
            b"luk" => Some(ScaleKind::Luk),
            b"godel" => Some(ScaleKind::Godel),
            b"hours" => Some(ScaleKind::Hours),
            _ => None,
        }
    }

    // Runs the task on the scale of this kind and size, or refuses the size.
    pub fn run<T: OnScale + Drop>(self, size: u8, task: T) -> Result<T::Answer, Refusal>
        ensures { Answers (size_refusal self size) result (λ a. T.answers task (meaning_of self size) a) }
    {
        match self {
            ScaleKind::Luk => Ok(task.on_scale(&Luk::new(size)?)),
            ScaleKind::Godel => Ok(task.on_scale(&Godel::new(size)?)),
            ScaleKind::Hours => Ok(task.on_scale(&Hours::new(size)?)),
        }
    }

    // The levels of the scale of this kind and size, or a refusal where there is none.
    pub(crate) fn levels(self, size: u8) -> Result<u8, Refusal>
        ensures { result ≡ answered (size_refusal self size) (levels_of self size) }
    {
        self.run(size, Levels)
    }
}

// How many levels a scale has.
#[derive(Drop)]
struct Levels;

impl OnScale for Levels {
    type Answer = u8;

    ghost answers = { λ _ m n. n ≡ m.levels };

    fn on_scale<S: Scale>(self, scale: &S) -> u8 {
        scale.levels()
    }
}
