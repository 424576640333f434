//! Plans as a person writes them: a record to a line (docs/TEXTS.md). A text is read into a draft: the records of the plan, and the names of its nodes and streams,
//! which lie in the text. What is wrong with a line is said on standard error. No contract can say what a call of the operating system writes, so these promise to
//! be safe and to end.
#![tactic(auto)]

mod draft;
mod fault;
mod fields;
pub mod names;
mod reading;
mod records;
mod writing;

pub use draft::Draft;
pub use reading::{WrongLines, read};
pub use writing::{Page, write};

/// How many bytes a text may have. No plan is written without names in more than 249,645 bytes: 45 for the header, 79 for a link, 104 for a stream and 86 for a leg.
pub const MAX_BYTES: usize = 262144;

/// The room to read a text: one byte more, so that a byte left over is seen.
pub const TEXT_ROOM: usize = MAX_BYTES + 1;

/// How many bytes a name may have.
pub const MAX_NAME: usize = 64;

/// How many nodes may have a name: no plan has more nodes at its links.
pub const MAX_NAMED: usize = 2 * table::MAX_LINKS;
