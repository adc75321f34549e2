// replay: reads plan.txt, policy.txt and calls.txt and prints the run of the calls. A buffer has more room than a text may
// have bytes, so a file that is too long is seen to be.
#![tactic(auto)]

use std::io;

fn main(rt: HostRuntime) -> io::Result<()> {
    console::with_pair(&rt, b"plan.txt", b"policy.txt", |plan, policy| {
        let mut room = [0; script::CALLS_ROOM];
        let text = console::read_file(&rt, b"calls.txt", &mut room)?;
        transcript::print_replay(&mut io::writer(&rt), plan, policy, text)
    })
}
