// The judge over the two texts.
#![tactic(auto)]

ghost use Rattle.std.specs.Prelude.{◌≡◌};
ghost use Rattle.plan.specs.Range.{InRange};
ghost use Rattle.rules.specs.Judge.{judge_read, judge};
ghost use Rattle.rules.specs.Broken.{answered};
ghost use Rattle.text.specs.Answers.{refusal_of};
ghost use Rattle.verdict.specs.Over.{unread, judge_over};

use plan::{Plan, Policy};
use rules::{Breach, Fault, Text, Verdict};
use text::Refused;

// 11, then the edges, then the assertions.
fn judge_read(plan: &Plan, policy: &Policy) -> Result<(), Breach>
    ensures { answered result ≡ judge_read plan.now policy.now }
{
    creation::check_11(plan)?;
    edges::check_edges(plan)?;
    assertions::check_assertions(plan, policy)
}

// A text that was refused.
#[tactic(auto, unfolding(crate::specs::Over::unread))]
fn unread(text: Text, r: Refused) -> Verdict
    ensures { result ≡ unread text (refusal_of r) }
{
    Verdict::Unread(Fault {
        text,
        number: r.number(),
        line: r.line,
    })
}

// The policy text over a plan that was read.
#[tactic(auto, unfolding(crate::specs::Over::judge_over, crate::specs::Over::unread, rules::specs::Judge::after_reading))]
fn judge_over(plan: &Plan, policy: &[u8]) -> Verdict
    requires { InRange plan.now }
    ensures { result ≡ judge_over plan.now policy.now }
{
    match policies::read_policy(plan.count as u8, policy) {
        Ok(assertions) => judge_read(plan, &assertions).into(),
        Err(r) => unread(Text::Policy, r),
    }
}

// Unread (the text, number and line), broken or accepted: the plan is read first, the policy only if the plan reads. The two texts
// stay two parameters, here and in all that is built on it: the operations of the documents and of the C interface take two, nothing
// relates them, each is read on its own by one reader, and a struct of both would only put `texts.` into each clause.
#[tactic(auto, unfolding(crate::specs::Over::judge_over, crate::specs::Over::unread, rules::specs::Judge::after_reading, rules::specs::Judge::judge))]
pub fn judge(plan: &[u8], policy: &[u8]) -> Verdict
    ensures { result ≡ judge plan.now policy.now }
{
    match reader::read_plan(plan) {
        Ok(templates) => judge_over(&templates, policy),
        Err(r) => unread(Text::Plan, r),
    }
}
