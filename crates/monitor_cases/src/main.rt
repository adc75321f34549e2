// Runs stored lists of calls on stored pairs of texts: for each what replay prints. A case names the next serial that
// the box starts with: 1, as every started box has it, or one so late that serials run out.
#![tactic(auto)]

use std::io;

fn main(rt: HostRuntime) -> io::Result<()> {
    let mut out = io::writer(&rt);
    corpus::for_each_run(&rt, |run| {
        latestart::print_replay_from(&mut out, run.plan, run.policy, run.calls, run.next)
    })
}
