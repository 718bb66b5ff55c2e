// Scales of degrees: the interface that the engine is generic over, and the three kinds that come with it.
#![tactic(auto)]

ghost use Rattle.std.specs.Prelude.{◌≡◌, ◌<◌};
ghost use Rattle.scale.specs.Meaning.{Meaning, Laws, clipped};

mod chains;
mod masks;
mod refusal;
mod size;

pub use chains::{Godel, Luk};
pub use masks::Hours;
pub use refusal::Refusal;

// A scale answers every question from its meaning alone, for any arguments: one at or over levels is read as the top.
// A scale with no levels owes no law.
pub trait Scale {
    ghost meaning: { Self → Meaning };

    // How many degrees there are: 0 is the bottom, levels - 1 the top.
    fn levels(&self) -> u8
        ensures { result ≡ (meaning self.now).levels };

    // No rank is over the height.
    fn height(&self) -> u8
        ensures { result ≡ (meaning self.now).height };

    // Whether a is at or below b.
    fn below(&self, a: u8, b: u8) -> bool
        ensures { result ≡ (clipped (meaning self.now)).below a b };

    // The least degree that both are below.
    fn join(&self, a: u8, b: u8) -> u8
        ensures { result ≡ (clipped (meaning self.now)).join a b };

    // How far both hold together.
    fn product(&self, a: u8, b: u8) -> u8
        ensures { result ≡ (clipped (meaning self.now)).product a b };

    // The greatest degree whose product with a is below b.
    fn residuum(&self, a: u8, b: u8) -> u8
        ensures { result ≡ (clipped (meaning self.now)).residuum a b };

    // How far a does not hold.
    fn lack(&self, a: u8) -> u8
        ensures { result ≡ (clipped (meaning self.now)).lack a };

    // A number that grows with every step up the order.
    fn rank(&self, a: u8) -> u8
        ensures { result ≡ (clipped (meaning self.now)).rank a };

    ghost lawful: { (s : Self) → 0 < (meaning s).levels → Laws (meaning s) };
}
