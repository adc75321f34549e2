// A list of calls, three words each, on a lent row and lent arrays.
// The lent arrays are parameters of their own: crate population says why.
#![tactic(auto)]

ghost use Rattle.planrow.specs.Lookup.{plan_for};
ghost use Rattle.playback.specs.Running.{memory, machine_in, Leaves, PlayedAll};

use dispatch::Call;
use planrow::WORDS;
use population::Counts;

// The calls in order, as many as there are words and places for: how many. A count, here and in the crates above, and no slice of the
// answers: the clause tells of the whole row.
pub fn run_calls(
    row: &[u32; WORDS],
    counts: &mut Counts,
    serials: &mut [u32; 128],
    templates: &mut [u32; 128],
    labels: &mut [u32; 128],
    tags: &mut [u32; 4096],
    calls: &[u32],
    answers: &mut [u8],
) -> usize
    ensures { let met = memory counts.old.next counts.old.live serials.old templates.old labels.old tags.old in
        let left = memory counts.new.next counts.new.live serials.new templates.new labels.new tags.new in
        let plan = plan_for row.now in
        PlayedAll (machine_in plan) (Leaves plan) calls.now met answers.old result left answers.new }
{
    let (threes, _) = calls.as_chunks::<3>();
    let n = threes.len().min(answers.len());
    // The answers by an index: of what is written through a zip no proof knows anything afterwards.
    for (i, &words) in threes[..n].iter().enumerate() {
        let call = Call::from(words);
        let answer = dispatch::run_call(row, counts, serials, templates, labels, tags, call);
        answers[i] = u8::from(answer);
    }
    n
}
