// What is kept of a check: the saved cursor, and beside it the plan as it was last seen. No contract can say what a call of the operating system does,
// so these promise only to be safe and to end. Each writes the answer where it is one, and says on standard error what it could not do.
#![tactic(auto)]

use std::io::Write;
use std::rt::Files;

pub mod accepted;
pub mod ours;
pub mod refused;
pub mod saved;

/// A check with its files: the path of its saved cursor, beside which the rest is kept, and where answers and sentences are written.
#[derive(Drop)]
pub struct Check<'a, R: Files, O: Write, E: Write> {
    pub rt: &'a R,
    pub out: &'a mut O,
    pub err: &'a mut E,
    pub cursor: &'a [u8],
}
