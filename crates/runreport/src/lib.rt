// What a run of calls is printed as: the run of an accepted pair, or the verdict on another.
#![tactic(auto)]

ghost use Rattle.std.specs.Prelude.{OnOk};
ghost use Rattle.std.specs.Io.KnownBytes.{Appends};
ghost use Rattle.runreport.specs.Run.{fault_line, run_lines, verdict_or_run};

use machine::State;
use rules::Verdict;
use std::io;
use std::io::Write;

// The line that is no call.
fn print_fault<W: Write>(out: &mut W, line: u64) -> io::Result<()>
    ensures { OnOk result (Appends (W.contents out.old) (W.contents out.new) (fault_line line)) }
{
    console::print_figure(out, b"unread line=", line)
}

// The answers, and then the state, or the line that is no call.
fn print_run<W: Write>(
    out: &mut W,
    answers: &[u8],
    state: State,
    fault: Option<u64>,
) -> io::Result<()>
    ensures { OnOk result (Appends (W.contents out.old) (W.contents out.new) (run_lines answers.now state fault)) }
{
    printout::print_answers(out, answers)?;
    if let Some(line) = fault {
        return print_fault(out, line);
    }
    printout::print_state(out, state)
}

// The run of an accepted pair, else the verdict.
pub fn print_verdict_or_run<W: Write>(
    out: &mut W,
    verdict: Verdict,
    answers: &[u8],
    state: State,
    fault: Option<u64>,
) -> io::Result<()>
    ensures { OnOk result (Appends (W.contents out.old) (W.contents out.new) (verdict_or_run verdict answers.now state fault)) }
{
    if let Verdict::Accepted = verdict {
        print_run(out, answers, state, fault)
    } else {
        report::print_verdict(out, verdict)
    }
}
