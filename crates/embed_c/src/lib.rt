// The functions of crate embed, exported from libembed.a to a program in another language. What each promises to a C program
// stands in include/monitor.h. No crate can depend on a static library, so what they do stands in crate embed.
#![tactic(auto)]

ghost use Rattle.std.specs.Prelude.{◌≡◌};
ghost use Rattle.machine.specs.State.{call_of};
ghost use Rattle.planrow.specs.Row.{plan_of_row};
ghost use Rattle.rules.specs.Judge.{judge, numbers_of};
ghost use Rattle.rules.specs.Show.{locate};
ghost use Rattle.rules.specs.Words.{part_words};
ghost use Rattle.memory.specs.Memory.{held, Answers, Runs};
ghost use Rattle.embed.specs.Embed.{Starts, ReplayedAll};

use planrow::WORDS;

// Unread, broken or accepted.
#[unsafe(no_mangle)]
pub extern "C" fn monitor_judge(plan: &[u8], policy: &[u8], words: &mut [u32; 5])
    ensures { words.new ≡ numbers_of (judge plan.now policy.now) }
{
    embed::monitor_judge(plan, policy, words);
}

// Where the part lies that the verdict shows.
#[unsafe(no_mangle)]
pub extern "C" fn monitor_locate(plan: &[u8], policy: &[u8], words: &mut [usize; 3])
    ensures { words.new ≡ part_words (locate plan.now policy.now) }
{
    embed::monitor_locate(plan, policy, words);
}

// Judges both texts; writes the verdict, and the started state, blank where it is not accepted.
#[unsafe(no_mangle)]
pub extern "C" fn monitor_start(
    plan: &[u8],
    policy: &[u8],
    words: &mut [u32; 5],
    row: &mut [u32; WORDS],
    place: &mut [u32; 2],
    serials: &mut [u32; 128],
    templates: &mut [u32; 128],
    labels: &mut [u32; 128],
    tags: &mut [u32; 4096],
)
    ensures { let k = held place.new serials.new templates.new labels.new tags.new in
        Starts plan.now policy.now words.new row.new k }
{
    embed::monitor_start(
        plan, policy, words, row, place, serials, templates, labels, tags,
    );
}

// One call: its kind (0 step, 1 send, 2 raise, any other number lower) and its two numbers.
#[unsafe(no_mangle)]
pub extern "C" fn monitor_call(
    row: &[u32; WORDS],
    place: &mut [u32; 2],
    serials: &mut [u32; 128],
    templates: &mut [u32; 128],
    labels: &mut [u32; 128],
    tags: &mut [u32; 4096],
    kind: u32,
    x: u32,
    y: u32,
) -> u32
    ensures { let h = held place.old serials.old templates.old labels.old tags.old in
        let k = held place.new serials.new templates.new labels.new tags.new in
        Answers (plan_of_row row.now) (call_of kind x y) h result k }
{
    embed::monitor_call(row, place, serials, templates, labels, tags, kind, x, y)
}

// A list of calls, three words each, run through the lent state; as many as there are words and places for.
#[unsafe(no_mangle)]
pub extern "C" fn monitor_run(
    row: &[u32; WORDS],
    place: &mut [u32; 2],
    serials: &mut [u32; 128],
    templates: &mut [u32; 128],
    labels: &mut [u32; 128],
    tags: &mut [u32; 4096],
    calls: &[u32],
    answers: &mut [u8],
) -> usize
    ensures { let h = held place.old serials.old templates.old labels.old tags.old in
        let k = held place.new serials.new templates.new labels.new tags.new in
        Runs (plan_of_row row.now) calls.now h answers.old result k answers.new }
{
    embed::monitor_run(row, place, serials, templates, labels, tags, calls, answers)
}

// Both texts judged, the box started, and the calls run through it.
#[unsafe(no_mangle)]
pub extern "C" fn monitor_replay(
    plan: &[u8],
    policy: &[u8],
    calls: &[u32],
    answers: &mut [u8],
    words: &mut [u32; 5],
) -> usize
    ensures { ReplayedAll plan.now policy.now calls.now answers.old words.new result answers.new }
{
    embed::monitor_replay(plan, policy, calls, answers, words)
}
