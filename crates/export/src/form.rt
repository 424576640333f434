// The form in which lists are printed and written.
use std::io;
use std::io::Write;

// Longer lists than this are cut off by tc, which says so and goes on: its message has 1,024 bytes (iproute2 6.1.0 to 7.3.0).
pub(crate) const MOST_OF_TC: usize = 30;

/// More bytes than a list has in either form.
pub(crate) const ROOM: usize = 65536;

/// Where the base time is empty, lists are list files; else they are as tc takes them, as a whole command where there is a device.
// Kept: both are as the arguments give them, where an empty one stands for none; an enum would forget a device beside an empty base, which refuses long lists.
// Kept: nobody compares or prints it, and each derive more is a function more to prove.
#[derive(Clone, Copy)]
pub(crate) struct Form<'a> {
    pub(crate) base: &'a [u8],
    pub(crate) device: &'a [u8],
}

/// How long a list lasts, in ns.
pub(crate) fn cycle(words: &[u32]) -> u64 {
    words.chunks_exact(2).fold(0, |sum: u64, pair| match pair {
        [_, lasting] => sum.wrapping_add(u64::from(*lasting)),
        _ => sum,
    })
}

// The list file of a list.
fn list_file<'r>(words: &[u32], room: &'r mut [u8]) -> Option<&'r [u8]> {
    let n = gate_files::write_list(words, room).ok()?;
    room.get(..n)
}

impl Form<'_> {
    /// Whether lists are as tc takes them.
    pub(crate) fn is_for_tc(self) -> bool {
        !self.base.is_empty()
    }

    /// Whether tc would cut a list off.
    pub(crate) fn is_cut(self, words: &[u32]) -> bool {
        self.is_for_tc() && MOST_OF_TC < words.len() / 2
    }

    /// Whether a command for the device would set only the beginning of a list. Without a device there is no command.
    pub(crate) fn sets_a_part(self, words: &[u32]) -> bool {
        !self.device.is_empty() && MOST_OF_TC < words.len() / 2
    }

    // What ends a line: a command goes on.
    fn line_end(self) -> &'static str {
        if self.device.is_empty() {
            "\n"
        } else {
            " \\\n"
        }
    }

    // Writes a list as tc takes it.
    fn write_for_tc<W: Write>(self, text: &mut W, words: &[u32]) -> io::Result<()> {
        if words.is_empty() {
            return Ok(());
        }
        let end = self.line_end();
        if !self.device.is_empty() {
            write!(text, "tc qdisc replace dev ")?;
            text.write_all(self.device)?;
            writeln!(text, " parent root handle 100 taprio num_tc 8 \\")?;
            writeln!(text, "map 0 1 2 3 4 5 6 7 0 0 0 0 0 0 0 0 \\")?;
            writeln!(text, "queues 1@0 1@1 1@2 1@3 1@4 1@5 1@6 1@7 \\")?;
        }
        let cycle = cycle(words);
        write!(text, "base-time ")?;
        text.write_all(self.base)?;
        write!(text, "{end}cycle-time {cycle}{end}")?;
        for pair in words.chunks_exact(2) {
            if let [mask, lasting] = pair {
                write!(text, "sched-entry S {mask:02x} {lasting}{end}")?;
            }
        }
        if !self.device.is_empty() {
            writeln!(text, "flags 0x2")?;
        }
        Ok(())
    }

    /// A list as tc takes it: the words of its qdisc taprio, from the base time on; with a device, as a whole command. Masks are hexadecimal. The list of a link without legs is no
    /// text at all. The command has eight classes, one for each gate, with a queue each. Priorities from 8 on are those of class 0. Nothing where the room is too small, as for no list.
    pub(crate) fn for_tc<'r>(self, words: &[u32], room: &'r mut [u8]) -> Option<&'r [u8]> {
        let all = room.len();
        let mut rest: &mut [u8] = &mut *room;
        self.write_for_tc(&mut rest, words).ok()?;
        let left = rest.len();
        room.get(..all.saturating_sub(left))
    }

    /// The bytes of a list's file, or nothing where it has none, as no list of a link.
    pub(crate) fn file<'r>(self, words: &[u32], room: &'r mut [u8]) -> Option<&'r [u8]> {
        if self.is_for_tc() {
            return self.for_tc(words, room);
        }
        list_file(words, room)
    }
}
