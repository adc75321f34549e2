// A list of calls on a state by value, and from the two texts: judged, started, and played.
#![tactic(auto)]

ghost use Rattle.machine.specs.State.{machine_of};
ghost use Rattle.playback.specs.Playback.{Does, Replays};
ghost use Rattle.playback.specs.Running.{PlayedAll};

use machine::{Started, State};
use population::Counts;
use rules::Verdict;

// What a list of calls leaves of a state, and how many calls were played. The state comes first, as in machine::Answered.
#[derive(Clone, Copy)]
pub struct Ran {
    pub state: State,
    pub count: usize,
}

// The calls in order on the state, whose arrays are lent; the answers are written to the row.
pub fn play(mut state: State, calls: &[u32], answers: &mut [u8]) -> Ran
    ensures { PlayedAll machine_of (Does machine_of) calls.now state answers.old result.count result.state answers.new }
{
    let row = encoding::row_of(state.plan);
    let mut counts = Counts {
        next: state.next,
        live: state.live,
    };
    let count = running::run_calls(
        &row,
        &mut counts,
        &mut state.serials,
        &mut state.templates,
        &mut state.labels,
        &mut state.tags,
        calls,
        answers,
    );
    state.next = counts.next;
    state.live = counts.live;
    Ran { state, count }
}

// What replay hands back: the judge's verdict, how many calls were played, and the state after them. A struct and no Result:
// where the verdict is not accepted the documents promise the blank state.
#[derive(Clone, Copy)]
pub struct Replayed {
    pub verdict: Verdict,
    pub count: usize,
    pub state: State,
}

// Both texts judged, the box started, and the calls run through it, the answers written to the row.
pub fn replay(plan: &[u8], policy: &[u8], calls: &[u32], answers: &mut [u8]) -> Replayed
    ensures { Replays plan.now policy.now calls.now answers.old result.verdict result.count result.state answers.new }
{
    let Started { verdict, state } = starting::start(plan, policy);
    if !rules::is_accepted(verdict) {
        return Replayed {
            verdict,
            count: 0,
            state,
        };
    }
    let Ran { state, count } = play(state, calls, answers);
    Replayed {
        verdict,
        count,
        state,
    }
}
