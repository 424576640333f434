// What was last seen of a plan, kept beside its cursor under an edition of the rules: one whole plan file, or two, those before and after a move.
#![tactic(auto)]

ghost use Rattle.std.specs.Prelude.{◌≡◌, ◌↔◌, IsTrue};
ghost use Rattle.seen.specs.Seen.{Known, PlanFile, Copy, Splits};
ghost use Rattle.seen.specs.Editions.{WritesFront, KnownUnder, CopyUnder, FrontTold, RestTold, EditionTold, OnlyTold};

use basics::{Cause, Refusal};
use table::Edition;

// The number before the edition, and the edition of what was kept before editions were named.
const MARK: u32 = 2718281828;

const FIRST_EDITION: u32 = 1;

/// The most bytes of the three numbers in front: the mark, the edition and the length of the first plan.
pub const MAX_FRONT_BYTES: usize = 5 + 5 + 5;

/// The most bytes of all that is kept.
pub const MAX_SEEN_BYTES: usize = MAX_FRONT_BYTES + 2 * files::MAX_FILE_BYTES;

/// Internal: whether two byte strings are equal.
// Kept: the cases ask it by itself, and the edit greater_byte_passed, which must be refused, changes its line.
pub fn same(a: &[u8], b: &[u8]) -> bool
    ensures { IsTrue result ↔ (a.now ≡ b.now) }
{
    a == b
}

// The two plans in what was seen, of which the second may be nothing; or none where the bytes do not have that form.
fn split(seen: &[u8]) -> Option<(&[u8], &[u8])>
    ensures { Splits seen.now result }
{
    let size = numbers::read_number(seen, 0).ok()?;
    seen.get(size.next..)?.split_at_checked(size.value as usize)
}

// Whether a plan is one of those that were seen.
fn known_in(seen: &[u8], plan: &[u8]) -> bool
    ensures { IsTrue result ↔ Known seen.now plan.now }
{
    let Some((first, other)) = split(seen) else {
        return false;
    };
    same(first, plan) || same(other, plan)
}

// Whether bytes are a plan file of a layout.
fn is_plan(layout: Edition, bytes: &[u8]) -> bool
    ensures { IsTrue result ↔ PlanFile layout bytes.now }
{
    files::look::plan_size(layout, bytes).is_ok()
}

// Whether bytes are a copy of one plan or of two, of a layout.
fn is_copy_in(layout: Edition, seen: &[u8]) -> bool
    ensures { IsTrue result ↔ Copy layout seen.now }
{
    let Some((first, other)) = split(seen) else {
        return false;
    };
    is_plan(layout, first) && (other.is_empty() || is_plan(layout, other))
}

// The edition that is named in front, and what comes after it.
fn front_of(seen: &[u8]) -> Option<(u32, &[u8])>
    ensures { FrontTold seen.now result }
{
    let mark = numbers::read_number(seen, 0).ok()?;
    if mark.value != MARK {
        return None;
    }
    let edition = numbers::read_number(seen, mark.next).ok()?;
    Some((edition.value, &seen[edition.next..]))
}

// What was seen under an edition.
// Kept: RestTold takes bytes and edition apart, and a caller has them apart; a struct of both would be built for one call.
fn rest_under(seen: &[u8], edition: u32) -> Option<&[u8]>
    ensures { RestTold seen.now edition result }
{
    let (named, rest) = front_of(seen)?;
    if named != edition {
        return None;
    }
    Some(rest)
}

/// Internal: writes what is in front of a copy under an edition of the rules, whose first plan has so many bytes, and returns how many bytes that are. Refused 15.
// Kept: the theorem WrittenIsKnown speaks of this answer, a number of lent bytes.
pub fn write_front(edition: u32, size: u32, out: &mut [u8]) -> Result<usize, Refusal>
    ensures { WritesFront edition size out.old result out.new }
{
    let words = [MARK, edition, size];
    let n = numbers::series::file_size(&words);
    if out.len() < n {
        return Err(Cause::NoRoom.at(0));
    }
    numbers::series::put_file(&words, out);
    Ok(n)
}

/// Internal: whether a plan is one of those that were seen under an edition of the rules.
// Kept: KnownUnder takes bytes and edition apart; a struct of both would be built by each caller for one call.
pub fn known(seen: &[u8], edition: u32, plan: &[u8]) -> bool
    ensures { IsTrue result ↔ KnownUnder seen.now edition plan.now }
{
    let Some(rest) = rest_under(seen, edition) else {
        return false;
    };
    known_in(rest, plan)
}

/// Internal: whether bytes are such as are kept beside a cursor under an edition of the rules, and not those of some other file or edition.
// Kept: CopyUnder takes bytes and edition apart; a struct of both would be built by each caller for one call.
pub fn is_copy(seen: &[u8], edition: u32) -> bool
    ensures { IsTrue result ↔ CopyUnder seen.now edition }
{
    let Some(rest) = rest_under(seen, edition) else {
        return false;
    };
    is_copy_in(table::CURRENT, rest)
}

/// Internal: the plan that was kept alone under an edition of the rules: it is all that follows what stands in front.
// Kept: OnlyTold takes bytes and edition apart; a struct of both would be built by the one caller for one call.
pub fn only_plan(seen: &[u8], edition: u32) -> Option<&[u8]>
    ensures { OnlyTold seen.now edition result }
{
    let (plan, other) = split(rest_under(seen, edition)?)?;
    if !other.is_empty() {
        return None;
    }
    Some(plan)
}

/// Internal: of which edition bytes that were kept are: of the one that they name, or of the first where they are a copy and name none.
pub fn edition_of(seen: &[u8]) -> Option<u32>
    ensures { EditionTold seen.now result }
{
    let Some((edition, rest)) = front_of(seen) else {
        return is_copy_in(table::FIRST_LAYOUT, seen).then_some(FIRST_EDITION);
    };
    split(rest)?;
    Some(edition)
}
