// show: reads plan.txt and policy.txt and prints the part of them that the verdict points at, and byte 10.
#![tactic(auto)]

ghost use Rattle.std.specs.Prelude.{[], ◌∷◌, ◌++◌, OnOk};
ghost use Rattle.std.specs.Io.KnownBytes.{Appends};
ghost use Rattle.rules.specs.Show.{shown};

use std::io;
use std::io::Write;

// The part that the verdict on two texts points at, and byte 10.
fn print_shown<W: Write>(out: &mut W, plan: &[u8], policy: &[u8]) -> io::Result<()>
    ensures { OnOk result (Appends (W.contents out.old) (W.contents out.new) (shown plan.now policy.now ++ 10 ∷ [])) }
{
    console::print(out, showing::show(plan, policy))?;
    console::print(out, b"\n")
}

fn main(rt: HostRuntime) -> io::Result<()> {
    console::with_pair(&rt, b"plan.txt", b"policy.txt", |plan, policy| {
        print_shown(&mut io::writer(&rt), plan, policy)
    })
}
