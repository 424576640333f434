// Gate lists of a link's slots: which mask its gates have at which instant, in pairs of a mask and a duration.
#![tactic(auto)]

pub mod cycle;
pub mod pairs;
pub mod runs;
pub mod slots;

// The longest cycle, in ns, the most pairs of a list, and the words that they take.
pub const MAX_CYCLE: u64 = 1000000000;

pub const MAX_PAIRS: usize = 1024;

pub const MAX_LIST_WORDS: usize = 2 * MAX_PAIRS;

// The masks: gate 7 open and no other, and all gates open but gate 7.
// Kept: Right (specs/Holding.antt) says which number a pair shows, and that number is what a list's words hold.
pub const HELD_MASK: u32 = 128;

pub const IDLE_MASK: u32 = 127;
