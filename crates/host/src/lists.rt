// The calls for C that write the gate list of a link as a list file, and that read a list file.
ghost use Rattle.std.specs.Prelude.{◌≡◌};
ghost use Rattle.host.specs.GateLists.{in_word, ListsGates, HostListsGates, HostReadsGates};

use crate::{Answer, answers, plans};

// The largest word.
const MAX_WORD: usize = u32::MAX as usize;

// A number as C gets it: as it is, or the largest word where it is larger. A list file may have more bytes than a word can count, and no call asks anything of what it is given.
fn in_word(n: usize) -> u32
    ensures { result ≡ in_word n }
{
    n.min(MAX_WORD) as u32
}

// Writes the gate list of a link of a table.
fn list_table(t: &[u32], link: u32, list: &mut [u8]) -> Answer
    ensures { ListsGates t.now link list.old result list.new }
{
    match gate_lists::write_gate_list(t, link, list) {
        Err(refusal) => answers::refused(refusal),
        Ok(n) => Answer {
            result: 0,
            beside: n as u32,
        },
    }
}

// Writes the gate list of a link of an accepted plan as a list file. Its name ends in the edition of the rules; in the header it is conepalhui_gates.
pub fn conepalhui_gates_3(plan: &[u8], link: u32, list: &mut [u8]) -> Answer
    ensures { HostListsGates plan.now link list.old result list.new }
{
    plans::after_plan(plan, list, |t, b| list_table(t, link, b))
}

// Reads a list file into lent words: a mask and a duration in turn.
pub fn conepalhui_read_gates(list: &[u8], words: &mut [u32]) -> Answer
    ensures { HostReadsGates list.now words.old result words.new }
{
    match gate_files::read_list(list, words) {
        Err(r) => Answer {
            result: answers::refused_result(r.cause),
            beside: in_word(r.at),
        },
        Ok(n) => Answer {
            result: 0,
            beside: in_word(n),
        },
    }
}
