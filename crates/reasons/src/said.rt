// How often a long call says how far it is.

// So many seconds after it said something it says so again.
const QUIET: i64 = 2;

/// When something was last said, in whole seconds.
#[derive(Clone, Copy, Debug, PartialEq, Eq)]
pub struct Said {
    seconds: i64,
}

impl Said {
    /// Something that is said at a time.
    pub fn at(seconds: i64) -> Said {
        Said { seconds }
    }

    /// Whether it is time to say something again, also where the clock was set back.
    pub fn is_due(self, now: i64) -> bool {
        now < self.seconds || QUIET <= now.saturating_sub(self.seconds)
    }
}
