//! The calls for C of temporal networks. What a call writes to overlaps nothing else that is lent to it (include/conepalhui-network.h).
#![tactic(auto)]

ghost use Rattle.network_host.specs.Calls.{HostSolves, HostTestsTimes, HostTestsChain};
ghost use Rattle.std.specs.Prelude.{◌≡◌};
ghost use Rattle.basics.specs.Cause.{number_of};
ghost use Rattle.network_host.specs.Calls.{verdict, found_verdict, chain_verdict, refused_result};
ghost use Rattle.network_host.specs.Steps.{Small, NumberSmall, ChainSmall};

use basics::Refusal;

// The results: times, a chain, times that break a constraint, and no chain; and what is added to a refusal's number.
// Kept: C's number of this result.
const TIMES: u32 = 0;

// Kept: C's number of this result.
const CHAIN: u32 = 1;

// Kept: C's number of this result.
const BROKEN: u32 = 2;

// Kept: C's number of this result.
const NO_CHAIN: u32 = 3;

const REFUSED: u32 = 100;

/// What C gets of solving, laid out as the struct in the header: a result, a number beside it, and the times.
// Kept: C gets this struct as it is laid out, with an array of this size; nobody compares or prints it.
#[repr(C)]
#[derive(Clone, Copy)]
pub struct NetworkAnswer {
    pub result: u32,
    pub number: u32,
    pub times: [i64; network::MAX_EVENTS],
}

/// What C gets of a test: a result, and a number beside it.
// Kept: host's Answer has the same two words for the other archive; each header has its own struct, and neither crate is below the other.
#[repr(C)]
#[derive(Clone, Copy, Debug, PartialEq, Eq)]
pub struct Verdict {
    pub result: u32,
    pub number: u32,
}

// Kept: no `From`, which could not require that 32 bits hold the position of the refusal.
fn refused(refusal: Refusal) -> Verdict
    requires { Small (number_of refusal.cause) refusal.at }
    ensures { result ≡ verdict (refused_result (number_of refusal.cause)) refusal.at }
{
    Verdict {
        result: REFUSED + u32::from(refusal.cause),
        number: refusal.at as u32,
    }
}

// Times, or what was found in their place, which is a result of its own, with its number.
fn of_found(found: Result<Option<usize>, Refusal>, other: u32) -> Verdict
    requires { NumberSmall found }
    ensures { result ≡ found_verdict other found }
{
    match found {
        Ok(None) => Verdict {
            result: TIMES,
            number: 0,
        },
        Ok(Some(number)) => Verdict {
            result: other,
            number: number as u32,
        },
        Err(refusal) => refused(refusal),
    }
}

fn of_chain(test: Result<bool, Refusal>) -> Verdict
    requires { ChainSmall test }
    ensures { result ≡ chain_verdict test }
{
    match test {
        Ok(true) => Verdict {
            result: CHAIN,
            number: 0,
        },
        Ok(false) => Verdict {
            result: NO_CHAIN,
            number: 0,
        },
        Err(refusal) => refused(refusal),
    }
}

/// Solves a network: the latest times, or a chain in the first of the lent words.
// Kept: C's call (include/conepalhui-network.h), which takes plain numbers.
pub fn conepalhui_network(events: usize, constraints: &[i64], chain: &mut [u32]) -> NetworkAnswer
    ensures { HostSolves events constraints.now chain.old result chain.new }
{
    let solved = solver::solve(events, constraints, chain);
    let verdict = of_found(solved.outcome, CHAIN);
    let times = solved.times;
    NetworkAnswer {
        result: verdict.result,
        number: verdict.number,
        times,
    }
}

/// Tests times, whoever made them.
// Kept: C's call (include/conepalhui-network.h), which takes plain numbers.
pub fn conepalhui_network_times(events: usize, constraints: &[i64], times: &[i64]) -> Verdict
    ensures { HostTestsTimes events constraints.now times.now result }
{
    of_found(claims::test_times(events, constraints, times), BROKEN)
}

/// Tests a chain, whoever made it.
// Kept: C's call (include/conepalhui-network.h), which takes plain numbers.
pub fn conepalhui_network_chain(events: usize, constraints: &[i64], numbers: &[u32]) -> Verdict
    ensures { HostTestsChain events constraints.now numbers.now result }
{
    of_chain(claims::test_chain(events, constraints, numbers))
}
