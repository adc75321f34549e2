// Start: two texts judged, and the one state that they give, the root's where they are accepted and else the blank one.
#![tactic(auto)]

ghost use Rattle.std.specs.Prelude.{◌≡◌};
ghost use Rattle.text.specs.Reading.{no_plan};
ghost use Rattle.rules.specs.Judge.{judge};
ghost use Rattle.machine.specs.State.{machine_of, blank_state, root_state, started, started_state};

use machine::{Started, State};
use plan::{Plan, Template};

// The plan that a refused text hands back. No Default: its definition stands in crate text, above the type.
fn no_plan() -> Plan
    ensures { result ≡ no_plan }
{
    Plan {
        count: 0,
        identifiers: 0,
        templates: [Template::default(); 64],
    }
}

// What stands beside a verdict that is not accepted: the documents promise the blank state, so start hands back a struct and no
// Result.
fn blank_state() -> State
    ensures { result ≡ blank_state }
{
    State {
        plan: no_plan(),
        next: 0,
        live: 0,
        serials: [0; 128],
        templates: [0; 128],
        labels: [0; 128],
        tags: [0; 4096],
    }
}

// "Serial 0 lives at the root, label lab 0, all tags 0, next serial 1."
fn root_state(plan: Plan) -> State
    ensures { result ≡ root_state plan }
{
    let root = plan.template(0);
    State {
        plan,
        next: 1,
        live: 1,
        serials: [0; 128],
        templates: [0; 128],
        labels: [root.lab; 128],
        tags: [0; 4096],
    }
}

// Document 01, Start: it "judges both texts and gives the judge's answer if not accepted".
pub fn start(plan: &[u8], policy: &[u8]) -> Started
    ensures { (result.verdict ≡ judge plan.now policy.now) × (machine_of result.state ≡ started plan.now policy.now) × (result.state ≡ started_state plan.now policy.now) }
{
    let verdict = verdict::judge(plan, policy);
    if !rules::is_accepted(verdict) {
        let state = blank_state();
        return Started { verdict, state };
    }
    let read = reader::read_plan(plan).unwrap_or(no_plan());
    let state = root_state(read);
    Started { verdict, state }
}
