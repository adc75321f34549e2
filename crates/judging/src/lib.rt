// What the program judge does: two files read, judged, and the verdict written.
#![tactic(auto)]

ghost use Rattle.std.specs.Prelude.{◌≡◌, ◌++◌, ◌≤◌, length, drop, OnOk};
ghost use Rattle.std.specs.Io.KnownBytes.{Appends};
ghost use Rattle.rules.specs.Judge.{judge, printed};

use report::ROOM;
use std::io;
use std::io::Write;
use std::rt::Files;

// How many bytes judge prints of two texts; they stand at the buffer's start.
pub fn judge_texts(plan: &[u8], policy: &[u8], out: &mut [u8; ROOM]) -> usize
    ensures value { (result ≡ length (printed (judge plan.now policy.now))) × (out.new ≡ printed (judge plan.now policy.now) ++ drop result out.old) }
    ensures room { result ≤ length out.new }
{
    report::write_verdict(verdict::judge(plan, policy), out)
}

// Prints the verdict on two texts.
pub fn print_judged<W: Write>(out: &mut W, plan: &[u8], policy: &[u8]) -> io::Result<()>
    ensures { OnOk result (Appends (W.contents out.old) (W.contents out.new) (printed (judge plan.now policy.now))) }
{
    let mut text = [0; ROOM];
    let n = judge_texts(plan, policy, &mut text);
    console::print(out, &text[..n])
}

// Prints the verdict on two files.
pub fn judge_files(
    rt: &(impl Files + Print),
    plan_name: &[u8],
    policy_name: &[u8],
) -> io::Result<()> {
    console::with_pair(rt, plan_name, policy_name, |plan, policy| {
        print_judged(&mut io::writer(rt), plan, policy)
    })
}
