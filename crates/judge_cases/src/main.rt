// Judges stored pairs of texts: for each a line with the verdict, where the shown part lies and its first bytes.
#![tactic(auto)]

use brief::{Brief, Name};
use std::io;
use std::io::Write;

// The first 32 bytes at most, each as two digits.
fn print_bytes<W: Write>(out: &mut W, part: &[u8]) -> io::Result<()> {
    for b in part.iter().take(32) {
        console::print_hex_byte(out, *b)?;
    }
    Ok(())
}

fn print_case<W: Write>(out: &mut W, plan: &[u8], policy: &[u8]) -> io::Result<()> {
    let part = showing::locate(plan, policy);
    write!(out, "{} ", Brief(verdict::judge(plan, policy)))?;
    write!(out, "{} {} {} ", Name(part.text), part.start, part.end)?;
    print_bytes(out, showing::show(plan, policy))?;
    writeln!(out)
}

fn main(rt: HostRuntime) -> io::Result<()> {
    let mut out = io::writer(&rt);
    corpus::for_each_pair(&rt, |plan, policy| print_case(&mut out, plan, policy))
}
