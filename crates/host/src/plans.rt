// A plan file, read into words of the call's own that have room for any table, and what is asked of its table or written after it.
ghost use Rattle.std.specs.Prelude.{ℕ, List};
ghost use Rattle.std.specs.Fn.{FnOnceReturnsAt};
ghost use Rattle.host.specs.Refusals.{AfterPlan};
ghost use Rattle.host.specs.Steps.{AskedOf, Leaves};

use crate::{ANY_WORD, Answer, answers};
use basics::Refusal;

// What is asked of the table. A fault of the file comes before.
pub(crate) fn of_plan<T: Drop, F: FnOnce(&[u32]) -> Result<T, Refusal>>(
    plan: &[u8],
    ask: F,
) -> Result<T, Refusal>
    requires { F.IsAlwaysCallable ask }
    ensures { AskedOf plan.now (λ t g. FnOnceReturnsAt F.FnOnce ask t g) result }
{
    // Kept: the library allocates nothing, so the table lies in an array of fixed size.
    let mut words = [ANY_WORD; table::MAX_TABLE_WORDS];
    let n = files::one_pass::take_plan(plan, &mut words)?;
    ask(&words[..n])
}

// What comes after the plan reader in a call that writes: it gets the table and the lent bytes, which a fault of the file leaves as they are.
pub(crate) fn after_plan<F: FnOnce(&[u32], &mut [u8]) -> Answer>(
    plan: &[u8],
    out: &mut [u8],
    then: F,
) -> Answer
    requires { F.IsAlwaysCallable then }
    ensures { AfterPlan (List ℕ) plan.now out.old (λ t a b. Leaves F.FnOnce then t out.old a b) result out.new }
{
    // Kept: the library allocates nothing, so the table lies in an array of fixed size.
    let mut words = [ANY_WORD; table::MAX_TABLE_WORDS];
    match files::one_pass::take_plan(plan, &mut words) {
        Err(refusal) => answers::refused(refusal),
        Ok(n) => then(&words[..n], out),
    }
}
