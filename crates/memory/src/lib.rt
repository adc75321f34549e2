// Calls on the memory that a program in another language lends: a plan's row, whatever it means, and a box's place and
// arrays. Apart from crate embed, which hands on to them, so that embed is checked in less time.
// The lent arrays are parameters of their own: crate population says why.
#![tactic(auto)]

ghost use Rattle.machine.specs.State.{call_of};
ghost use Rattle.planrow.specs.Row.{plan_of_row};
ghost use Rattle.memory.specs.Memory.{held, Answers, Runs};

use dispatch::Call;
use planrow::WORDS;
use population::Counts;

// One call on a plan's row and the lent state. The call is three numbers, as a program in another language gives it.
pub fn call(
    row: &[u32; WORDS],
    place: &mut [u32; 2],
    serials: &mut [u32; 128],
    templates: &mut [u32; 128],
    labels: &mut [u32; 128],
    tags: &mut [u32; 4096],
    kind: u32,
    x: u32,
    y: u32,
) -> u32
    ensures { let h = held place.old serials.old templates.old labels.old tags.old in
        let k = held place.new serials.new templates.new labels.new tags.new in
        Answers (plan_of_row row.now) (call_of kind x y) h result k }
{
    let mut counts = Counts::from(*place);
    let call = Call::from([kind, x, y]);
    let answer = dispatch::run_call(row, &mut counts, serials, templates, labels, tags, call);
    *place = counts.into();
    u8::from(answer) as u32
}

// A list of calls, three words each; as many as there are words and places for.
pub fn run(
    row: &[u32; WORDS],
    place: &mut [u32; 2],
    serials: &mut [u32; 128],
    templates: &mut [u32; 128],
    labels: &mut [u32; 128],
    tags: &mut [u32; 4096],
    calls: &[u32],
    answers: &mut [u8],
) -> usize
    ensures { let h = held place.old serials.old templates.old labels.old tags.old in
        let k = held place.new serials.new templates.new labels.new tags.new in
        Runs (plan_of_row row.now) calls.now h answers.old result k answers.new }
{
    let mut counts = Counts::from(*place);
    let count = running::run_calls(
        row,
        &mut counts,
        serials,
        templates,
        labels,
        tags,
        calls,
        answers,
    );
    *place = counts.into();
    count
}
