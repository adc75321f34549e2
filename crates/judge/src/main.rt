// judge: prints the verdict on plan.txt and policy.txt.
#![tactic(auto)]

use std::io;

fn main(rt: HostRuntime) -> io::Result<()> {
    judging::judge_files(&rt, b"plan.txt", b"policy.txt")
}
