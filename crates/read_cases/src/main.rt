// Reads stored pairs of texts: for each a line with what was read, or which text is refused, with number and line.
#![tactic(auto)]

use plan::{Plan, Policy};
use std::io;
use std::io::Write;
use text::Refused;

// The counts, and one number for all that was read.
fn print_read<W: Write>(out: &mut W, plan: Plan, policy: Policy) -> io::Result<()> {
    let sum = checksum::mix_policy(checksum::mix_plan(0, plan), policy);
    writeln!(
        out,
        "read {} {} {} {sum}",
        plan.count, plan.identifiers, policy.count
    )
}

// Which text is refused, with number and line.
fn print_refused<W: Write>(out: &mut W, text: &str, refused: Refused) -> io::Result<()> {
    writeln!(out, "{text} {} {}", refused.number(), refused.line)
}

fn print_policy<W: Write>(out: &mut W, plan: Plan, policy_text: &[u8]) -> io::Result<()> {
    let n = plan.count;
    if 64 < n {
        return Ok(());
    }
    match policies::read_policy(n as u8, policy_text) {
        Ok(policy) => print_read(out, plan, policy),
        Err(refused) => print_refused(out, "policy", refused),
    }
}

fn print_case<W: Write>(out: &mut W, plan_text: &[u8], policy_text: &[u8]) -> io::Result<()> {
    match reader::read_plan(plan_text) {
        Ok(plan) => print_policy(out, plan, policy_text),
        Err(refused) => print_refused(out, "plan", refused),
    }
}

fn main(rt: HostRuntime) -> io::Result<()> {
    let mut out = io::writer(&rt);
    corpus::for_each_pair(&rt, |plan, policy| print_case(&mut out, plan, policy))
}
