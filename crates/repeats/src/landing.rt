// Steps of one length round a circle: when one first lands in a stretch of the circle.
ghost use Rattle.std.specs.Prelude.{◌≤◌, ◌<◌};
ghost use Rattle.repeats.specs.Landings.{LandsFirst, Nearest, Stretch, longest_period};

// So many steps, and the whole turns round the circle that they make.
#[derive(Clone, Copy, Debug, PartialEq, Eq)]
pub struct Landing {
    pub steps: u64,
    pub turns: u64,
}

// The fewest steps that reach a place past 0.
fn nearest(step: u64, from: u64) -> u64
    requires step_nonzero { 0 < step }
    requires le_from { 1 ≤ from }
    requires from_le_longest_period { from ≤ longest_period }
    ensures { Nearest step from result }
{
    (from - 1) / step + 1
}

// The fewest steps from 0 that land from `from` to `to`; None if no step ever does. Where the first step that reaches `from` passes `to`, the fewest turns are asked for after which a step
// lands there. In each turn the steps lie further back by the remainder of the circle by one step, so that is the same question of a circle as long as one step; and as in a divisor's search
// the numbers fall fast.
pub(crate) fn first_landing(step: u64, around: u64, from: u64, to: u64) -> Option<Landing>
    requires { Stretch step around from to }
    ensures { LandsFirst step around from to result }
{
    if step == 0 {
        return None;
    }
    let near = nearest(step, from);
    let reach = step * near;
    if reach <= to {
        return Some(Landing {
            steps: near,
            turns: 0,
        });
    }
    let inner = first_landing(around % step, step, reach - to, reach - from)?;
    Some(Landing {
        steps: around / step * inner.steps + near + inner.turns,
        turns: inner.steps,
    })
}
