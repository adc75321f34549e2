// A verdict as the program judge prints it, written into a lent buffer or to a writer. Not a Display: the buffer's function promises
// that it cannot fail and where the bytes stand, which what `write!` promises does not say.
#![tactic(auto)]

ghost use Rattle.std.specs.Prelude.{◌≡◌, ◌++◌, ◌≤◌, ◌+◌, length, drop, OnOk};
ghost use Rattle.std.specs.Io.KnownBytes.{Appends};
ghost use Rattle.numerals.specs.Numerals.{decimal_width};
ghost use Rattle.rules.specs.declared.Verdict.TheVariants.{Broken, Unread};
ghost use Rattle.rules.specs.Judge.{printed};
ghost use Rattle.report.specs.Lines.{PutAt, figure_line, text_line};

use rules::{Breach, Fault, Text, Verdict};
use std::io;
use std::io::Write;

// Room for the bytes of any verdict: the longest has 60.
pub const ROOM: usize = 64;

// Copies bytes into the list from a place on and answers the place after them. The place is handed on, here and in crate numerals: a
// struct of it and the buffer would owe in each clause that it still holds the same buffer.
fn append(out: &mut [u8], at: usize, bytes: &[u8]) -> usize
    requires { at + length bytes.now ≤ length out.old }
    ensures { PutAt out.old at bytes.now out.new result }
{
    let end = at + bytes.len();
    out[at..end].copy_from_slice(bytes);
    end
}

// A line of a key, with its equals sign, and a number.
fn append_figure(out: &mut [u8], at: usize, key: &[u8], figure: u32) -> usize
    requires { at + length key.now + decimal_width figure + 1 ≤ length out.old }
    ensures appends { PutAt out.old at (figure_line key.now figure) out.new result }
    ensures end { result ≡ at + length key.now + decimal_width figure + 1 }
{
    let a = append(out, at, key);
    let b = numerals::write_decimal(out, a, figure);
    append(out, b, b"\n")
}

// The line that names the text.
fn append_text(out: &mut [u8], at: usize, text: Text) -> usize
    requires { at + 12 ≤ length out.old }
    ensures appends { PutAt out.old at (text_line text) out.new result }
    ensures room { result ≤ at + 12 }
{
    match text {
        Text::Plan => append(out, at, b"text=plan\n"),
        Text::Policy => append(out, at, b"text=policy\n"),
    }
}

#[tactic(auto, using(crate::proofs::Printed::small_width))]
fn write_broken(breach: Breach, out: &mut [u8]) -> usize
    requires { length out.old ≡ 64 }
    ensures value { (result ≡ length (printed (Broken breach))) × (out.new ≡ printed (Broken breach) ++ drop result out.old) }
    ensures room { result ≤ length out.new }
{
    let a = append(out, 0, b"verdict=broken\n");
    let b = append_figure(out, a, b"rule=", breach.rule.into());
    let c = append_figure(out, b, b"first=", breach.first.into());
    let d = append_figure(out, c, b"second=", breach.second.into());
    append_figure(out, d, b"identifier=", breach.identifier.into())
}

#[tactic(auto, using(crate::proofs::Printed::small_width, numerals::proofs::Digits::width_le))]
fn write_unread(fault: Fault, out: &mut [u8]) -> usize
    requires { length out.old ≡ 64 }
    ensures value { (result ≡ length (printed (Unread fault))) × (out.new ≡ printed (Unread fault) ++ drop result out.old) }
    ensures room { result ≤ length out.new }
{
    let text = fault.text;
    let a = append(out, 0, b"verdict=unread\n");
    let b = append_text(out, a, text);
    let c = append_figure(out, b, b"number=", fault.number.into());
    append_figure(out, c, b"line=", fault.line)
}

// How many bytes the verdict has; they stand at the buffer's start, and after them what stood there. A count and no slice: the clause
// tells of the whole buffer.
pub fn write_verdict(verdict: Verdict, out: &mut [u8; ROOM]) -> usize
    ensures value { (result ≡ length (printed verdict)) × (out.new ≡ printed verdict ++ drop result out.old) }
    ensures room { result ≤ length out.new }
{
    match verdict {
        Verdict::Accepted => append(out, 0, b"verdict=accepted\n"),
        Verdict::Broken(breach) => write_broken(breach, out),
        Verdict::Unread(fault) => write_unread(fault, out),
    }
}

// Prints the verdict.
pub fn print_verdict<W: Write>(out: &mut W, verdict: Verdict) -> io::Result<()>
    ensures { OnOk result (Appends (W.contents out.old) (W.contents out.new) (printed verdict)) }
{
    let mut text = [0; ROOM];
    let n = write_verdict(verdict, &mut text);
    console::print(out, &text[..n])
}
