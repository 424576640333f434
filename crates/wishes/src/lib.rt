//! A temporal network as a person writes it: a constraint to a line. It is read here, and nothing is printed. Events are numbered in the order in which their
//! names first appear.
#![tactic(auto)]

pub mod forms;
pub mod number;
pub mod reading;

/// How many bytes a text may have.
pub const MAX_BYTES: usize = 262144;

/// What is kept of a network: one event and one constraint more than it may have, so that the solver sees that there are too many.
pub const KEPT_EVENTS: usize = network::MAX_EVENTS + 1;

pub const KEPT_CONSTRAINTS: usize = network::MAX_CONSTRAINTS + 1;

/// The words of as many constraints, of which each has three.
pub const KEPT_WORDS: usize = 3 * KEPT_CONSTRAINTS;
