// Why a cursor or a move is refused, 8 to 11: one sentence on standard error.
use files::Cursor;
use reasons::records::header_word;
use reasons::report;
use std::io::Write;
use table::Move;

// The last place of a leg. No leg is without one.
fn last_place(leg: u32) -> usize {
    let a = leg as usize;
    if a < table::MAX_LEGS {
        return places::places_of(a) - 1;
    }
    0
}

/// Says why a cursor is refused.
pub fn why<E: Write>(err: &mut E, t: &[u32], c: Cursor) {
    let revision = header_word(t, table::REVISION_AT);
    let legs = header_word(t, table::LEGS_AT);
    let Cursor { leg, place, .. } = c;
    if c.revision != revision {
        report(
            err,
            format_args!(
                "the cursor belongs to revision {}, but the plan has revision {revision}",
                c.revision,
            ),
        );
    } else if leg < legs {
        let last = last_place(leg);
        report(
            err,
            format_args!(
                "the cursor is at leg {leg}, place {place}, but leg {leg} has the places 0 to {last}"
            ),
        );
    } else {
        report(
            err,
            format_args!(
                "the cursor is at leg {leg}, place {place}, but the plan ends at leg {legs}, place 0"
            ),
        );
    }
}

/// Says why a move is refused with 10 or 11.
pub fn why_move<E: Write>(err: &mut E, t: &[u32], mv: Move) {
    let revision = header_word(t, table::REVISION_AT);
    let legs = header_word(t, table::LEGS_AT);
    let leg = mv.leg;
    if leg < legs {
        report(
            err,
            format_args!("the plan has revision {revision}, the last one: no move is possible"),
        );
    } else if legs == 0 {
        report(
            err,
            format_args!("there is no leg {leg}: the plan has no legs"),
        );
    } else {
        report(
            err,
            format_args!("there is no leg {leg}: legs are 0 to {}", legs - 1),
        );
    }
}
