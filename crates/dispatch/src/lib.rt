// A call on the plan's row and on lent arrays: refusal 20 is tested here, once for every call; what comes after it is done by
// the crates below.
// The lent arrays are parameters of their own: crate population says why.
#![tactic(auto)]

ghost use Rattle.std.specs.Prelude.{◌≡◌, get_or};
ghost use Rattle.machine.specs.State.{call_of};
ghost use Rattle.planrow.specs.Lookup.{plan_for};
ghost use Rattle.population.specs.Arrays.{cells};
ghost use Rattle.population.specs.Lent.{Tried, Did};
ghost use Rattle.population.specs.Refusals.{answer_or};
ghost use Rattle.dispatch.specs.Calls.{meant, words_of};

use machine::Answer;
use planrow::WORDS;
use population::{Counts, Refusal};

#[derive(Clone, Copy)]
pub enum Call {
    Step { serial: u32, branch: u32 },
    Send { from: u32, to: u32 },
    Raise { serial: u32, identifier: u32 },
    Lower { serial: u32, identifier: u32 },
}

// A call as three words: its kind (0 step, 1 send, 2 raise, any other number lower) and its two numbers.
impl From<[u32; 3]> for Call {
    ghost from_gives = { λ words call. meant call ≡ call_of (get_or words 0 0) (get_or words 1 0) (get_or words 2 0) };

    #[tactic(auto, unfolding(machine::specs::State::call_of))]
    fn from(words: [u32; 3]) -> Call {
        let [kind, x, y] = words;
        match kind {
            0 => Call::Step {
                serial: x,
                branch: y,
            },
            1 => Call::Send { from: x, to: y },
            2 => Call::Raise {
                serial: x,
                identifier: y,
            },
            _ => Call::Lower {
                serial: x,
                identifier: y,
            },
        }
    }
}

// Its three words.
impl From<Call> for [u32; 3] {
    ghost from_gives = { λ call words. words ≡ words_of call };

    fn from(call: Call) -> [u32; 3] {
        match call {
            Call::Step { serial, branch } => [0, serial, branch],
            Call::Send { from, to } => [1, from, to],
            Call::Raise { serial, identifier } => [2, serial, identifier],
            Call::Lower { serial, identifier } => [3, serial, identifier],
        }
    }
}

// One call, of a state that is not bad.
#[tactic(auto, unfolding(labelling::specs::Labelling::moves))]
fn attempt(
    row: &[u32; WORDS],
    counts: &mut Counts,
    serials: &mut [u32; 128],
    templates: &mut [u32; 128],
    labels: &mut [u32; 128],
    tags: &mut [u32; 4096],
    call: Call,
) -> Result<Answer, Refusal>
    ensures { let plan = plan_for row.now in
        let c = cells serials.old templates.old labels.old tags.old in
        let d = cells serials.new templates.new labels.new tags.new in
        Tried plan counts.old c (meant call) (answer_or result) counts.new d }
{
    let live = counts.live;
    match call {
        Call::Step { serial, branch } => {
            stepping::attempt(
                row, counts, serials, templates, labels, tags, serial, branch,
            )?;
        }
        Call::Send { from, to } => {
            return delivery::attempt(row, live, serials, labels, tags, from, to);
        }
        Call::Raise { serial, identifier } => {
            labelling::attempt(
                row, live, serials, templates, labels, serial, identifier, true,
            )?;
        }
        Call::Lower { serial, identifier } => {
            labelling::attempt(
                row, live, serials, templates, labels, serial, identifier, false,
            )?;
        }
    }
    Ok(Answer::Done)
}

// One call: 20 stands before every other refusal.
pub fn run_call(
    row: &[u32; WORDS],
    counts: &mut Counts,
    serials: &mut [u32; 128],
    templates: &mut [u32; 128],
    labels: &mut [u32; 128],
    tags: &mut [u32; 4096],
    call: Call,
) -> Answer
    ensures { let plan = plan_for row.now in
        let c = cells serials.old templates.old labels.old tags.old in
        let d = cells serials.new templates.new labels.new tags.new in
        Did plan counts.old c (meant call) result counts.new d }
{
    if !population::is_well_formed(row, *counts, serials, templates, labels, tags) {
        return Answer::from(Refusal::BadState);
    }
    attempt(row, counts, serials, templates, labels, tags, call).unwrap_or_else(Answer::from)
}
