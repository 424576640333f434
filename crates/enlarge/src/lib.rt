// The table with one stream more.
#![tactic(auto)]

ghost use Rattle.std.specs.Prelude.{◌≡◌, [], ◌∷◌, ◌+◌, ◌≤◌, length};
ghost use Rattle.numbers.specs.Series.{overlaid};
ghost use Rattle.table.specs.Layout.{stream_words, leg_words};
ghost use Rattle.enlarge.specs.Enlarged.{grown, legs_at_zero, legs_from, without_times, enlarged};
ghost use Rattle.enlarge.specs.Steps.{LaidTo, Addable, Sendable, Sent, Sends, LegsRoom};

use shape::plan::Plan;

/// What is wanted of a new stream: its period and its deadline in ns, and the octets of its frames.
#[derive(Clone, Copy, Debug, PartialEq, Eq)]
pub struct Wanted {
    pub period: u32,
    pub deadline: u32,
    pub octets: u32,
}

/// Internal: a table, what is wanted of one stream more, and its route: the numbers of its links, in order.
#[derive(Drop)]
pub struct Request<'p> {
    pub table: &'p [u32],
    pub wanted: Wanted,
    pub route: &'p [u32],
}

// Kept: LaidTo and `overlaid` (numbers) say what lies from a position on; a lent rest of the buffer would have to be put together again in each clause.
impl<'p> Request<'p> {
    /// Internal: lays the table with the new stream over the first words of a buffer, the new legs all at offset 0 and none late.
    pub fn lay_at_zero(&self, out: &mut [u32])
        requires { Addable self.now.table.now (length self.now.route.now) (length out.old) }
        ensures { out.new ≡ overlaid out.old 0 (without_times self.now.table.now self.now.wanted self.now.route.now) }
    {
        let at = self.lay_front(out);
        self.lay_legs_at_zero(out, at);
    }

    /// Internal: lays the enlarged table over the first words of a buffer, the new stream's first offset being x.
    pub fn lay_from(&self, x: u32, out: &mut [u32])
        requires addable { Addable self.now.table.now (length self.now.route.now) (length out.old) }
        requires sends { Sends self.now.table.now self.now.wanted self.now.route.now x }
        ensures { out.new ≡ overlaid out.old 0 (enlarged self.now.table.now self.now.wanted self.now.route.now x) }
    {
        let at = self.lay_front(out);
        self.lay_legs_from(x, out, at);
    }

    /// Internal: when the frame that is sent over link l at an instant is at the next node by every clock.
    pub fn sent_on(&self, start: u64, l: u32) -> u64
        requires { Sendable self.now.table.now self.now.wanted start l }
        ensures { Sent self.now.table.now self.now.wanted start l result }
    {
        let plan = Plan::of(self.table);
        let link = plan.link(l as usize);
        let wire = rules::times::wire_time(self.wanted.octets, link.rate);
        start + wire + link.propagation as u64 + plan.precision() as u64
    }

    // Lays all that comes before the new legs, and returns the position after it.
    fn lay_front(&self, out: &mut [u32]) -> usize
        requires { Addable self.now.table.now (length self.now.route.now) (length out.old) }
        ensures { LaidTo out.old 0 (grown self.now.table.now self.now.wanted (length self.now.route.now) []) result out.new }
    {
        let t = self.table;
        let count = self.route.len() as u32;
        let head = [
            t[table::REVISION_AT] + 1,
            t[table::LINKS_AT],
            t[table::STREAMS_AT] + 1,
            t[table::LEGS_AT] + count,
            t[table::PRECISION_AT],
        ];
        let Wanted {
            period,
            deadline,
            octets,
        } = self.wanted;
        let stream = [period, deadline, octets, t[table::LEGS_AT], count];
        let at_links = copied(&head, out, 0);
        let at_streams = copied(table::parts::link_part(t), out, at_links);
        let at_new = copied(table::parts::stream_part(t), out, at_streams);
        let at_legs = copied(&stream, out, at_new);
        copied(table::parts::leg_part(t), out, at_legs)
    }

    // Lays the new legs, all at offset 0 and none late, from a position on.
    // Kept: no twin of lay_legs_from, which divides by the period: here nothing of what is wanted is judged yet, and the period may be 0.
    fn lay_legs_at_zero(&self, out: &mut [u32], at: usize)
        requires { LegsRoom self.now.table.now self.now.route.now at (length out.old) }
        ensures { out.new ≡ overlaid out.old at (legs_at_zero self.now.table.now self.now.route.now) }
    {
        let stream = self.table[table::STREAMS_AT];
        let mut next = at;
        for link in self.route {
            next = copied(&[stream, *link, 0, 0], out, next);
        }
    }

    // Lays the new legs without waiting, the first of which starts at x, from a position on.
    fn lay_legs_from(&self, x: u32, out: &mut [u32], at: usize)
        requires legs_room { LegsRoom self.now.table.now self.now.route.now at (length out.old) }
        requires sends { Sends self.now.table.now self.now.wanted self.now.route.now x }
        ensures { out.new ≡ overlaid out.old at (legs_from self.now.table.now self.now.wanted x self.now.route.now) }
    {
        let stream = self.table[table::STREAMS_AT];
        let period = self.wanted.period as u64;
        let mut start = x as u64;
        let mut next = at;
        for link in self.route {
            let offset = (start % period) as u32;
            let periods = (start / period) as u32;
            next = copied(&[stream, *link, offset, periods], out, next);
            start = self.sent_on(start, *link);
        }
    }
}

// Lays words over a buffer from a position on, and returns the position after them.
// Kept: copy_from_slice becomes memcpy, and the archive for C may need memset alone. LaidTo tells the position, so it goes in and out beside the buffer.
// Kept: a zip over out[at..] would owe LaidTo of the words before and after that part as well.
fn copied(from: &[u32], out: &mut [u32], at: usize) -> usize
    requires { at + length from.now ≤ length out.old }
    ensures { LaidTo out.old at from.now result out.new }
{
    for (i, word) in from.iter().enumerate() {
        out[at + i] = *word;
    }
    at + from.len()
}
