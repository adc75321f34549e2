// Answers and a state as lines, as the program replay prints them.
#![tactic(auto)]

ghost use Rattle.std.specs.Prelude.{◌+◌, ◌*◌, ◌<◌, ◌≤◌, ◌∷◌, length, slice_range, OnOk};
ghost use Rattle.std.specs.List.{flat_map};
ghost use Rattle.std.specs.Fmt.{decimal};
ghost use Rattle.std.specs.Io.KnownBytes.{Appends};
ghost use Rattle.printout.specs.Lines.{answer_line, answer_lines, tag_list, names_of, process_line, process_line_at, process_lines, counts_line, state_lines};

use machine::State;
use std::io;
use std::io::Write;

// Functions and no Display: a newtype for a code and one that lends a State would be two more types, which these functions alone name.

// The line of an answer's code, which the calls on lent memory answer too: 0 done, 1 delivered, 2 held, any other a refusal.
fn print_answer<W: Write>(out: &mut W, code: u8) -> io::Result<()>
    ensures { OnOk result (Appends (W.contents out.old) (W.contents out.new) (answer_line code)) }
{
    match code {
        0 => writeln!(out, "done"),
        1 => writeln!(out, "delivered"),
        2 => writeln!(out, "held"),
        _ => writeln!(out, "refused {code}"),
    }
}

// Answers, each on its line.
pub fn print_answers<W: Write>(out: &mut W, answers: &[u8]) -> io::Result<()>
    ensures { OnOk result (Appends (W.contents out.old) (W.contents out.new) (answer_lines answers.now)) }
{
    for answer in answers {
        print_answer(out, *answer)?;
    }
    Ok(())
}

// Tags with commas between them.
fn print_tag_list<W: Write>(out: &mut W, tags: &[u32]) -> io::Result<()>
    ensures { OnOk result (Appends (W.contents out.old) (W.contents out.new) (tag_list tags.now)) }
{
    let Some((first, others)) = tags.split_first() else {
        return Ok(());
    };
    write!(out, "{first}")?;
    print_more_tags(out, others)
}

// Each tag after a comma.
fn print_more_tags<W: Write>(out: &mut W, tags: &[u32]) -> io::Result<()>
    ensures { OnOk result (Appends (W.contents out.old) (W.contents out.new) (flat_map (λ t. 44 ∷ decimal t) tags.now)) }
{
    for tag in tags {
        write!(out, ",{tag}")?;
    }
    Ok(())
}

// What a process's line has before its tags.
#[tactic(auto, unfolding(crate::specs::Lines::names_of))]
fn print_names<W: Write>(out: &mut W, serial: u32, template: u32, label: u32) -> io::Result<()>
    ensures { OnOk result (Appends (W.contents out.old) (W.contents out.new) (names_of serial template label)) }
{
    write!(out, "serial={serial} template={template} label=")?;
    console::print_hex_word(out, label)?;
    write!(out, " tags=")
}

// The tags of a place, of m identifiers. That both are within the arrays this one and print_line ask; print_process tests it.
fn print_row<W: Write>(out: &mut W, tags: &[u32; 4096], place: u32, m: u32) -> io::Result<()>
    requires place { place < 128 }
    requires width { m ≤ 32 }
    ensures { OnOk result (Appends (W.contents out.old) (W.contents out.new)
        (tag_list (slice_range tags.now (place * m) ((place + 1) * m)))) }
{
    let start = tagrows::row_start(place, m);
    let end = tagrows::row_start(place + 1, m);
    print_tag_list(out, &tags[start..end])
}

// The line of a process at a place that the state has.
fn print_line<W: Write>(out: &mut W, state: &State, place: u32) -> io::Result<()>
    requires place { place < 128 }
    requires width { state.now.plan.identifiers ≤ 32 }
    ensures { OnOk result (Appends (W.contents out.old) (W.contents out.new) (process_line state.now place)) }
{
    let k = place as usize;
    print_names(out, state.serials[k], state.templates[k], state.labels[k])?;
    print_row(out, &state.tags, place, state.plan.identifiers)?;
    writeln!(out)?;
    Ok(())
}

fn print_process<W: Write>(out: &mut W, state: &State, place: u32) -> io::Result<()>
    ensures { OnOk result (Appends (W.contents out.old) (W.contents out.new) (process_line_at state.now place)) }
{
    if 32 < state.plan.identifiers || 128 <= place {
        return Ok(());
    }
    print_line(out, state, place)
}

// The next serial and how many live.
fn print_counts<W: Write>(out: &mut W, state: &State) -> io::Result<()>
    ensures { OnOk result (Appends (W.contents out.old) (W.contents out.new) (counts_line state.now)) }
{
    writeln!(out, "next={} live={}", state.next, state.live)
}

// Each live process on its line.
fn print_processes<W: Write>(out: &mut W, state: &State) -> io::Result<()>
    ensures { OnOk result (Appends (W.contents out.old) (W.contents out.new) (process_lines state.now state.now.live)) }
{
    for place in 0..state.live {
        print_process(out, state, place)?;
    }
    Ok(())
}

// The next serial and how many live, then each process on its line.
pub fn print_state<W: Write>(out: &mut W, state: State) -> io::Result<()>
    ensures { OnOk result (Appends (W.contents out.old) (W.contents out.new) (state_lines state)) }
{
    print_counts(out, &state)?;
    print_processes(out, &state)
}
