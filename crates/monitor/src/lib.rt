// The operations by value: each takes any state at all and hands back the machine's answer and the machine's state, the very
// state that it got unless it is done. See docs/ARCHITECTURE.md on why no state goes further down by value. Four operations and not one,
// as document 01 names them.
#![tactic(auto)]

ghost use Rattle.std.specs.Prelude.{◌≡◌};
ghost use Rattle.machine.specs.Machine.{box_limits, step, send, raise, lower, run};
ghost use Rattle.machine.specs.State.{machine_of, outcome_of, unless_done};
ghost use Rattle.dispatch.specs.Calls.{meant};

use dispatch::Call;
use machine::{Answered, State};
use population::Counts;

// One call on a state by value: its arrays are lent.
fn call(mut state: State, call: Call) -> Answered
    ensures { (outcome_of result ≡ run box_limits (machine_of state) (meant call)) × unless_done result.answer (result.state ≡ state) }
{
    let row = encoding::row_of(state.plan);
    let mut counts = Counts {
        next: state.next,
        live: state.live,
    };
    let answer = dispatch::run_call(
        &row,
        &mut counts,
        &mut state.serials,
        &mut state.templates,
        &mut state.labels,
        &mut state.tags,
        call,
    );
    state.next = counts.next;
    state.live = counts.live;
    Answered { state, answer }
}

// Document 01, Step.
pub fn step(state: State, serial: u32, branch: u32) -> Answered
    ensures { (outcome_of result ≡ run box_limits (machine_of state) (step serial branch)) × unless_done result.answer (result.state ≡ state) }
{
    call(state, Call::Step { serial, branch })
}

// Document 01, Send. "The state stays."
pub fn send(state: State, from: u32, to: u32) -> Answered
    ensures { (outcome_of result ≡ run box_limits (machine_of state) (send from to)) × (result.state ≡ state) }
{
    call(state, Call::Send { from, to })
}

// Document 01, Raise.
pub fn raise(state: State, serial: u32, identifier: u32) -> Answered
    ensures { (outcome_of result ≡ run box_limits (machine_of state) (raise serial identifier)) × unless_done result.answer (result.state ≡ state) }
{
    call(state, Call::Raise { serial, identifier })
}

// Document 01, Lower.
pub fn lower(state: State, serial: u32, identifier: u32) -> Answered
    ensures { (outcome_of result ≡ run box_limits (machine_of state) (lower serial identifier)) × unless_done result.answer (result.state ≡ state) }
{
    call(state, Call::Lower { serial, identifier })
}
