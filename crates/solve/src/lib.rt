// Judging settings and finding scenes, on any scale.
#![tactic(auto)]

mod judging;
mod limits;
mod program;
mod raising;
mod seeking;
mod settings;
mod values;

pub use judging::{Verdict, check, yield_at};
pub use limits::most_rounds;
pub use program::Program;
pub use seeking::{MOST_SETTINGS, seek};
pub use settings::setting_count;
pub use values::{degree, rule_holds};
