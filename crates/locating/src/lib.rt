// Where the part lies that a verdict on two lent texts shows, as numbers: a line is found again by how many stand before it.
#![tactic(auto)]

ghost use Rattle.std.specs.Prelude.{◌≡◌, ◌≤◌, length};
ghost use Rattle.rules.specs.declared.Verdict.TheVariants.{Unread};
ghost use Rattle.rules.specs.Show.{from, line_start, line_end, faulty_line, name_of, kind_line, located};

use rules::{Fault, Part, Text, Verdict};

// The length of the key `name=`.
const NAME_KEY: usize = 5;

// Where the line after so many lines begins, in one pass; the text's end where it is missing.
fn line_start(text: &[u8], skipped: usize) -> usize
    ensures place { result ≡ line_start skipped 0 text.now }
    ensures room { result ≤ length text.now }
{
    let mut start = 0;
    for _ in 0..skipped {
        let Some(length) = scan::find(&text[start..], b'\n') else {
            return text.len();
        };
        start += length + 1;
    }
    start
}

// Where the line that begins there ends, without byte 10.
fn line_end(text: &[u8], start: usize) -> usize
    requires { start ≤ length text.now }
    ensures { result ≡ line_end start text.now }
{
    let rest = &text[start..];
    start + scan::find(rest, b'\n').unwrap_or(rest.len())
}

// Where the faulty line begins; line 0 is at the text's end.
fn faulty_line(text: &[u8], line: u32) -> usize
    ensures place { result ≡ faulty_line line text.now }
    ensures room { result ≤ length text.now }
{
    if line == 0 {
        text.len()
    } else {
        line_start(text, (line - 1) as usize)
    }
}

// The line that begins there.
fn line_part(text: Text, bytes: &[u8], start: usize) -> Part
    requires { start ≤ length bytes.now }
    ensures { result ≡ from text start (line_end start bytes.now) }
{
    Part {
        text,
        start,
        end: line_end(bytes, start),
    }
}

// The name of template x: its line without the key.
#[tactic(auto, unfolding(rules::specs::Show::name_of))]
fn name_part(plan: &[u8], x: u8) -> Part
    ensures { result ≡ name_of x plan.now }
{
    let skipped = text::PLAN_HEADER + text::TEMPLATE_LINES * x as usize;
    let line = line_part(Text::Plan, plan, line_start(plan, skipped));
    Part {
        start: line.start + NAME_KEY,
        ..line
    }
}

// The `kind=` line of the assertion at place i.
#[tactic(auto, unfolding(rules::specs::Show::kind_line))]
fn kind_part(policy: &[u8], i: u8) -> Part
    ensures { result ≡ kind_line i policy.now }
{
    let skipped = text::POLICY_HEADER + text::ASSERTION_LINES * i as usize;
    line_part(Text::Policy, policy, line_start(policy, skipped))
}

// The faulty line.
#[tactic(auto, unfolding(rules::specs::Show::located))]
fn fault_part(plan: &[u8], policy: &[u8], fault: Fault) -> Part
    ensures { result ≡ located (Unread fault) plan.now policy.now }
{
    match fault.text {
        Text::Plan => line_part(Text::Plan, plan, faulty_line(plan, fault.line)),
        Text::Policy => line_part(Text::Policy, policy, faulty_line(policy, fault.line)),
    }
}

// Where the part lies that a verdict on the texts shows.
#[tactic(auto, unfolding(rules::specs::Show::located))]
pub fn locate_verdict(plan: &[u8], policy: &[u8], verdict: Verdict) -> Part
    ensures { result ≡ located verdict plan.now policy.now }
{
    match verdict {
        Verdict::Accepted => Part {
            text: Text::Plan,
            start: 0,
            end: 0,
        },
        Verdict::Broken(b) => {
            if b.rule == 11 || rules::is_edge_rule(b.rule) {
                name_part(plan, b.first)
            } else {
                kind_part(policy, b.first)
            }
        }
        Verdict::Unread(fault) => fault_part(plan, policy, fault),
    }
}
