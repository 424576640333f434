// The gate lists of all links, a file each, in a folder that is there. The plan is judged once.
use crate::form::{Form, ROOM};
use crate::{judge, one, out, why};
use gate_lists::AskedLink;
use reasons::said::Said;
use std::io;
use std::io::Write;
use std::rt::{Clock, Files};

// The most bytes that a path has.
const PATH_ROOM: usize = 4096;

// How many lists are written, how many of them are empty, how many tc would cut off, and how many links have none.
// Kept: nobody compares or prints it, and each derive more is a function more to prove.
#[derive(Clone, Copy, Default)]
struct Tally {
    lists: u32,
    empty: u32,
    cut: u32,
    refused: u32,
}

fn count(n: &mut u32) {
    *n = n.saturating_add(1);
}

// The folder that lists are written to, a file each, in a form: with what that is done, and what is counted.
#[derive(Drop)]
struct Folder<'a, R: Clock + Files, O: Write, E: Write> {
    rt: &'a R,
    out: &'a mut O,
    err: &'a mut E,
    path: &'a [u8],
    form: Form<'a>,
    tally: Tally,
}

impl<'a, R: Clock + Files, O: Write, E: Write> Folder<'a, R, O, E> {
    // The path of a link's file. Such names stand in the order of the links.
    fn write_path<W: Write>(&self, path: &mut W, link: u32) -> io::Result<()> {
        let ending = if self.form.is_for_tc() {
            "taprio"
        } else {
            "gates"
        };
        path.write_all(self.path)?;
        write!(path, "/link-{link:03}.{ending}")
    }

    // The same, or nothing where it is too long.
    fn path_of<'r>(&self, link: u32, room: &'r mut [u8]) -> Option<&'r [u8]> {
        let all = room.len();
        let mut rest: &mut [u8] = &mut *room;
        self.write_path(&mut rest, link).ok()?;
        let left = rest.len();
        room.get(..all.saturating_sub(left))
    }

    // Makes the file of a link, and returns how many bytes it has, or nothing where that failed.
    // Kept: bytes and path lie in arrays of the largest size; nothing is allocated.
    fn make_file(&mut self, link: u32, words: &[u32]) -> Option<usize> {
        let mut room = [0u8; ROOM];
        let bytes = self.form.file(words, &mut room)?;
        let mut path_room = [0u8; PATH_ROOM];
        let Some(path) = self.path_of(link, &mut path_room) else {
            reasons::fail(self.err, self.path, &io::Error::from_raw_os_error(0));
            return None;
        };
        if !durable::made(self.rt, self.err, path, bytes) {
            return None;
        }
        Some(bytes.len())
    }

    // Writes the list of a link, or says why it has none, and counts it. Returns whether it is not so that a file could not be written.
    // Kept: the list is written into lent words, and comes back as a slice of them.
    fn write_link(&mut self, asked: &AskedLink<'_>) -> io::Result<bool> {
        let t = asked.t;
        let link = asked.link;
        let mut words = [0u32; gates::MAX_LIST_WORDS];
        let list = match one::list_of_accepted(asked, &mut words) {
            Ok(list) => list,
            Err(refusal) => {
                why::link_refused(self.err, t, link, refusal);
                out::refused_line(self.out, t, link, refusal)?;
                count(&mut self.tally.refused);
                return Ok(true);
            }
        };
        let Some(bytes) = self.make_file(link, list) else {
            return Ok(false);
        };
        out::line(self.out, t, link, list, bytes)?;
        count(&mut self.tally.lists);
        if list.is_empty() {
            count(&mut self.tally.empty);
        }
        if self.form.is_cut(list) {
            count(&mut self.tally.cut);
        }
        Ok(true)
    }

    // Writes the lists of all links of the table of a first one. Returns whether it is not so that one could not be written.
    fn write_links(&mut self, first: &AskedLink<'_>) -> io::Result<bool> {
        let mut said = Said::at(input::seconds(self.rt));
        let t = first.t;
        let links = t[table::LINKS_AT];
        for link in 0..links {
            let asked = AskedLink { t, link };
            if !self.write_link(&asked)? {
                return Ok(false);
            }
            let now = input::seconds(self.rt);
            if said.is_due(now) {
                why::so_far(self.err, link + 1, links);
                said = Said::at(now);
            }
        }
        Ok(true)
    }
}

/// Writes the lists of all links. A plan without links has none, and is refused as one that has not the first.
pub(crate) fn written<'a, R: Clock + Files, O: Write, E: Write>(
    rt: &'a R,
    out: &'a mut O,
    err: &'a mut E,
    t: &[u32],
    path: &'a [u8],
    form: Form<'a>,
) -> io::Result<()> {
    let first = match AskedLink::judge(t, 0) {
        Ok(first) => first,
        Err(refusal) => return judge::refused(out, err, t, 0, refusal),
    };
    let mut folder = Folder {
        rt,
        out,
        err,
        path,
        form,
        tally: Tally::default(),
    };
    if folder.write_links(&first)? {
        let tally = folder.tally;
        why::some_empty(folder.err, tally.empty);
        why::some_cut(folder.err, tally.cut);
        out::all_written(folder.out, t, tally.lists, tally.refused)?;
    }
    Ok(())
}
