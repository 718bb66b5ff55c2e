// What a rule is made of.
ghost use Rattle.std.specs.Prelude.{◌≡◌};
ghost use Rattle.book.specs.Ledger.{literal_known, literal_fits, head_known, head_fits};

// What a rule speaks of: a statement's degree, or a bound, a degree that its yield must stay below.
#[derive(Clone, Copy, PartialEq, Eq, Debug)]
pub enum Head {
    Statement(u8),
    Bound(u8),
}

// One condition of a body: how far a statement burns, whether it burns above a degree, or how far it does not burn.
#[derive(Clone, Copy, PartialEq, Eq, Debug)]
pub enum Literal {
    Plain(u8),
    Above(u8, u8),
    Lacking(u8),
}

impl Head {
    // Does it name only statements below `statements`?
    pub(crate) fn known(self, statements: u8) -> bool
        ensures { result ≡ head_known statements self }
    {
        match self {
            Head::Statement(s) => s < statements,
            Head::Bound(_) => true,
        }
    }

    // Has it only degrees below `levels`?
    pub(crate) fn fits(self, levels: u8) -> bool
        ensures { result ≡ head_fits levels self }
    {
        match self {
            Head::Statement(_) => true,
            Head::Bound(d) => d < levels,
        }
    }
}

impl Literal {
    pub(crate) fn known(self, statements: u8) -> bool
        ensures { result ≡ literal_known statements self }
    {
        match self {
            Literal::Plain(s) | Literal::Above(s, _) | Literal::Lacking(s) => s < statements,
        }
    }

    pub(crate) fn fits(self, levels: u8) -> bool
        ensures { result ≡ literal_fits levels self }
    {
        match self {
            Literal::Above(_, d) => d < levels,
            Literal::Plain(_) | Literal::Lacking(_) => true,
        }
    }
}
