// What the program replay prints of two texts and a text of calls. A pair that is not accepted is answered as judge
// answers it. Else each call is answered on a line, and the state that the calls leave follows; a line that is no call
// ends the run.
#![tactic(auto)]

ghost use Rattle.std.specs.Prelude.{◌≤◌, length, take, OnOk};
ghost use Rattle.std.specs.Io.KnownBytes.{Appends};
ghost use Rattle.runreport.specs.Run.{verdict_or_run};

use replaying::Replayed;
use script::WORD_ROOM;
use std::io;
use std::io::Write;

// Room for as many answers as the longest text of calls can have.
pub const ANSWER_ROOM: usize = 8192;

// A run whose answers stand at the row's start.
fn print_replayed<W: Write>(
    out: &mut W,
    run: Replayed,
    answers: &[u8],
    fault: Option<u64>,
) -> io::Result<()>
    ensures { run.count ≤ length answers.now
        → OnOk result (Appends (W.contents out.old) (W.contents out.new) (verdict_or_run run.verdict (take run.count answers.now) run.state fault)) }
{
    let count = run.count.min(answers.len());
    let verdict = run.verdict;
    let state = run.state;
    runreport::print_verdict_or_run(out, verdict, &answers[..count], state, fault)
}

// Prints what the closure makes of the calls of a text; it writes their answers to the row.
pub fn print_run<W: Write, F: FnOnce(&[u32], &mut [u8]) -> Replayed>(
    out: &mut W,
    text: &[u8],
    run: F,
) -> io::Result<()>
    requires { F.IsAlwaysCallable run }
{
    let mut words = [0; WORD_ROOM];
    let script = script::read_calls(text, &mut words);
    let mut answers = [0; ANSWER_ROOM];
    let replayed = run(script.words, &mut answers);
    print_replayed(out, replayed, &answers, script.fault)
}

pub fn print_replay<W: Write>(
    out: &mut W,
    plan: &[u8],
    policy: &[u8],
    text: &[u8],
) -> io::Result<()> {
    print_run(out, text, |calls, answers| {
        replaying::replay(plan, policy, calls, answers)
    })
}
