// The least first offset that fits.
ghost use Rattle.std.specs.Prelude.{◌≤◌};
ghost use Rattle.numbers.specs.Number.{max_word};
ghost use Rattle.offsets.specs.Search.{Searches};
ghost use Rattle.admission.specs.Admits.{Fits};
ghost use Rattle.admission.specs.Steps.{AllAsked, EndOf};

use crate::Candidate;
use shape::streams::MAX_PERIODS_DUE;

// What this crate's own words hold at first: any word, since none is read before it is written (docs/DECISIONS.md, 51).
pub(crate) const ANY_WORD: u32 = 1;

// The first offsets below this leave every leg a period word; no more than the limit. The last leg starts so long after the first.
fn end_of(period: u32, last: u64, limit: u32) -> u64
    ensures { EndOf period last limit result }
{
    let all = MAX_PERIODS_DUE * period as u64;
    all.saturating_sub(last).min(limit as u64)
}

impl<'p> Candidate<'p> {
    // The least number from `from` on and below a limit at which all legs of the enlarged table have what they ask.
    // Kept: the library allocates nothing, so the conditions and their order lie in arrays of fixed size.
    fn least_asked(&self, limit: u64, from: u64) -> Option<u64>
        requires { limit ≤ max_word }
        ensures { Searches (AllAsked self.now.table self.now.wanted self.now.route) limit from result }
    {
        let count = self.asked.table[table::LEGS_AT] as usize + self.asked.route.len();
        let mut all = [offsets::ANY_CONDITION; table::MAX_LEGS];
        self.keep_all(&mut all);
        let conditions = &all[..count];
        let mut order = [ANY_WORD; table::MAX_LEGS];
        let hints = offsets::hints::order(conditions, &mut order);
        offsets::search::searched(conditions, &order[..hints], limit, from)
    }

    // The least first offset from `from` on and below a limit that fits. The deadline does not depend on it.
    pub(crate) fn least_offset(&self, limit: u32, from: u32) -> Option<u64>
        ensures { Searches (Fits self.now.table self.now.wanted self.now.route) limit from result }
    {
        let links = self.asked.route.len();
        let arrived = self.after_of(links);
        if (self.asked.wanted.deadline as u64) < arrived {
            return None;
        }
        let last = self.after_of(links - 1);
        let end = end_of(self.asked.wanted.period, last, limit);
        self.least_asked(end, from as u64)
    }
}
