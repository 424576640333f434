// By how much a rule is kept or missed.
ghost use Rattle.std.specs.Prelude.{◌<◌};
ghost use Rattle.margins.specs.declared.Margin.TheVariants as margin;
ghost use Rattle.margins.specs.Spares.{IsSpare, LessThanATurn};

use crate::{Margin, Sides, Spare, Turns};

fn of_sides(s: Sides) -> Spare
    ensures { IsSpare (margin.Sides s) result }
{
    if s.needs <= s.has {
        return Spare::Left(s.has - s.needs);
    }
    Spare::Lacks(s.needs - s.has)
}

fn of_turns(s: Turns) -> Spare
    requires { s.after < s.divisor }
    ensures { IsSpare (margin.Turns s) result }
{
    let room = s.divisor - s.after;
    let lacks = s
        .hold
        .saturating_sub(s.after)
        .max(s.other.saturating_sub(room));
    if 0 < lacks {
        return Spare::Lacks(lacks);
    }
    Spare::Left((s.after - s.hold).min(room - s.other))
}

/// Internal: by how much a rule with these numbers is kept or missed.
pub fn spare(m: Margin) -> Spare
    requires { LessThanATurn m }
    ensures { IsSpare m result }
{
    match m {
        Margin::Free => Spare::Free,
        Margin::Sides(s) => of_sides(s),
        Margin::Turns(s) => of_turns(s),
    }
}
