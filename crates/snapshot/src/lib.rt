// The saved form of the index: writing it, and reading it back.
#![tactic(auto)]

mod loading;
mod saving;

pub use loading::reload;
pub use saving::save;

// The longest saved text.
pub const LONGEST: usize = 63135;

// The bytes of the first line that is written.
const FIRST: usize = 135;

// The bytes of a key's line.
const LINE: usize = 21;
