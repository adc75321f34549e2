// Shows the part that the verdict points at, for stored pairs of texts, each on its own line.
#![tactic(auto)]

ghost use Rattle.std.specs.Prelude.{[], ◌∷◌, ◌++◌, OnOk};
ghost use Rattle.std.specs.Io.KnownBytes.{Appends};
ghost use Rattle.rules.specs.Show.{shown};

use std::io;
use std::io::Write;

// As the program show does. No crate below both has what they print with: showing stands in the static library, which writes
// nothing; and a crate for these two lines would be no plainer.
fn print_case<W: Write>(out: &mut W, plan: &[u8], policy: &[u8]) -> io::Result<()>
    ensures { OnOk result (Appends (W.contents out.old) (W.contents out.new) (shown plan.now policy.now ++ 10 ∷ [])) }
{
    console::print(out, showing::show(plan, policy))?;
    console::print(out, b"\n")
}

fn main(rt: HostRuntime) -> io::Result<()> {
    let mut out = io::writer(&rt);
    corpus::for_each_pair(&rt, |plan, policy| print_case(&mut out, plan, policy))
}
