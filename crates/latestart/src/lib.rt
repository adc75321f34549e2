// What replay prints from a state that no texts start: the started one with another next serial. So stored cases come to
// refusal 24.
#![tactic(auto)]

use machine::Started;
use replaying::{Ran, Replayed};
use std::io;
use std::io::Write;

// The calls played from that next serial on.
fn replay_from(
    plan: &[u8],
    policy: &[u8],
    next: u32,
    calls: &[u32],
    answers: &mut [u8],
) -> Replayed {
    let Started { verdict, mut state } = starting::start(plan, policy);
    state.next = next;
    let Ran { state, count } = replaying::play(state, calls, answers);
    Replayed {
        verdict,
        count,
        state,
    }
}

// What replay prints, from that next serial on.
pub fn print_replay_from<W: Write>(
    out: &mut W,
    plan: &[u8],
    policy: &[u8],
    calls: &[u8],
    next: u32,
) -> io::Result<()> {
    if next == 1 {
        transcript::print_replay(out, plan, policy, calls)
    } else {
        transcript::print_run(out, calls, |words, answers| {
            replay_from(plan, policy, next, words, answers)
        })
    }
}
