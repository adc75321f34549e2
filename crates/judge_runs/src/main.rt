// Does what judge does on five pairs of files: accepted, an unread plan, an unread policy, no files at all, and document 01's
// case c.
#![tactic(auto)]

use std::io;

fn main(rt: HostRuntime) -> io::Result<()> {
    judging::judge_files(&rt, b"base.plan.txt", b"base.policy.txt")?;
    judging::judge_files(&rt, b"unread.plan.txt", b"base.policy.txt")?;
    judging::judge_files(&rt, b"base.plan.txt", b"unread.policy.txt")?;
    judging::judge_files(&rt, b"none.plan.txt", b"none.policy.txt")?;
    judging::judge_files(&rt, b"c.plan.txt", b"base.policy.txt")
}
