// Stored cases, one after the other in one file: for each a header of hexadecimal digits (the lengths of its texts and, where
// it has calls, the next serial), then the texts.
#![tactic(auto)]

ghost use Rattle.std.specs.Prelude.{◌≤◌, length, IfOk, IfSome};

use console::TEXT_ROOM;
use std::fs::File;
use std::io;
use std::io::Read;
use std::rt::Files;

// The value of a hexadecimal digit; any other byte counts as 0, a capital too, which std's `to_digit` takes.
fn digit(b: u8) -> u32 {
    match b {
        b'0'..=b'9' => u32::from(b - b'0'),
        b'a'..=b'f' => u32::from(b - b'a' + 10),
        _ => 0,
    }
}

// The number of at most eight hexadecimal digits.
fn number(digits: &[u8]) -> u32 {
    digits.iter().fold(0, |n, b| n << 4 | digit(*b))
}

// The next text, of that length, or what the file has left of it; nothing where the buffer is too small.
fn read_text<'a>(file: &mut impl Read, buffer: &'a mut [u8], size: u32) -> io::Result<&'a [u8]>
    ensures { IfOk result (λ text. length text.now ≤ length buffer.old) }
{
    let size = size as usize;
    if buffer.len() < size {
        return Ok(&[]);
    }
    console::read_full(file, &mut buffer[..size])
}

// A case's two texts.
#[derive(Clone, Copy)]
pub struct Pair<'a> {
    pub plan: &'a [u8],
    pub policy: &'a [u8],
}

// The next case of two texts, if one is left.
pub fn read_pair<'a>(
    file: &mut impl Read,
    plan: &'a mut [u8],
    policy: &'a mut [u8],
) -> io::Result<Option<Pair<'a>>>
    ensures { IfOk result (λ found. IfSome found (λ pair. (length pair.plan.now ≤ length plan.old) × (length pair.policy.now ≤ length policy.old))) }
{
    let mut room = [0; 8];
    let header = console::read_full(file, &mut room)?;
    if header.len() < 8 {
        return Ok(None);
    }
    let plan = read_text(file, plan, number(&header[..4]))?;
    let policy = read_text(file, policy, number(&header[4..8]))?;
    Ok(Some(Pair { plan, policy }))
}

// A case's two texts and its calls, and the next serial that its box starts with.
#[derive(Clone, Copy)]
pub struct Run<'a> {
    pub plan: &'a [u8],
    pub policy: &'a [u8],
    pub calls: &'a [u8],
    pub next: u32,
}

// The next case of two texts and a list of calls, if one is left. The calls' length has six digits, of which the first two are 0, the
// next serial eight.
pub fn read_run<'a>(
    file: &mut impl Read,
    plan: &'a mut [u8],
    policy: &'a mut [u8],
    calls: &'a mut [u8],
) -> io::Result<Option<Run<'a>>>
    ensures { IfOk result (λ found. IfSome found (λ run. (length run.plan.now ≤ length plan.old) × (length run.policy.now ≤ length policy.old) × (length run.calls.now ≤ length calls.old))) }
{
    let mut room = [0; 22];
    let header = console::read_full(file, &mut room)?;
    if header.len() < 22 {
        return Ok(None);
    }
    let plan = read_text(file, plan, number(&header[..4]))?;
    let policy = read_text(file, policy, number(&header[4..8]))?;
    let calls = read_text(file, calls, number(&header[10..14]))?;
    let next = number(&header[14..22]);
    Ok(Some(Run {
        plan,
        policy,
        calls,
        next,
    }))
}

// Reads the file `cases` with the closure, case by case, until it finds none left; no file is no case.
fn for_each_case<R: Files, F: FnMut(&mut R::File) -> io::Result<Option<()>>>(
    rt: &R,
    mut one_case: F,
) -> io::Result<()>
    requires { F.IsAlwaysCallable one_case }
{
    let Ok(mut file) = File::open(rt, "cases") else {
        return Ok(());
    };
    // A bound, since no file is known to end.
    for _ in 0..100000u32 {
        if one_case(&mut file)?.is_none() {
            break;
        }
    }
    Ok(())
}

// Hands the two texts of each stored case to the closure.
pub fn for_each_pair<F: FnMut(&[u8], &[u8]) -> io::Result<()>>(
    rt: &impl Files,
    mut use_pair: F,
) -> io::Result<()>
    requires { (f : F) (plan policy : _) → F.pre f plan policy }
{
    for_each_case(
        rt,
        |file|
            requires { (state : F) (plan policy : _) → F.pre state plan policy }
        {
            let mut plan = [0; TEXT_ROOM];
            let mut policy = [0; TEXT_ROOM];
            let Some(pair) = read_pair(file, &mut plan, &mut policy)? else {
                return Ok(None);
            };
            use_pair(pair.plan, pair.policy)?;
            Ok(Some(()))
        },
    )
}

// Hands each stored case with calls to the closure. Beside for_each_pair and not one function with it, as read_run is beside read_pair: a
// trait of both cases would have to say for each what it reads, lends and asks of the closure, which is all that there is.
pub fn for_each_run<F: FnMut(Run) -> io::Result<()>>(
    rt: &impl Files,
    mut use_run: F,
) -> io::Result<()>
    requires { (f : F) (run : _) → F.pre f run }
{
    for_each_case(
        rt,
        |file|
            requires { (state : F) (run : _) → F.pre state run }
        {
            let mut plan = [0; TEXT_ROOM];
            let mut policy = [0; TEXT_ROOM];
            let mut calls = [0; TEXT_ROOM];
            let Some(run) = read_run(file, &mut plan, &mut policy, &mut calls)? else {
                return Ok(None);
            };
            use_run(run)?;
            Ok(Some(()))
        },
    )
}
