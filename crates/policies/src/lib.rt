// Reading the policy, line by line, with no copy of the text (document 01, "The two texts" and "Reading").
#![tactic(auto)]

ghost use Rattle.std.specs.Prelude.{◌≡◌, ◌≤◌};
ghost use Rattle.text.specs.Reading.{assertion, read_policy};
ghost use Rattle.text.specs.Answers.{policy_read};
ghost use Rattle.text.specs.Cursors.{standing, Gives};
ghost use Rattle.policies.specs.Rows.{assertion_row};

use field::Refusal;
use plan::{Assertion, Policy};
use text::{Lines, Refused};

// The five lines of an assertion over n templates.
fn read_assertion(lines: &mut Lines, n: u8) -> Result<Assertion, Refused>
    ensures { Gives (λ a. a) (assertion n (standing lines.old)) (standing lines.new) result }
{
    let kind = lines.field(b"kind=", keywords::read_kind)?;
    let source = lines.field(b"source=", |s| field::read_number(s, Refusal::Range, 0, n))?;
    let sink = lines.field(b"sink=", |s| field::read_number(s, Refusal::Range, 0, n))?;
    let anc = lines.field(b"anc=", |s| field::read_number(s, Refusal::Range, 0, n))?;
    let declass = lines.field(
        b"declass=",
        |s| field::read_declass(s, n, kind, source, sink),
    )?;
    Ok(Assertion {
        kind,
        source,
        sink,
        anc,
        declass,
    })
}

// The lines of all k assertions over n templates. Not one function with the lines of all templates: a closure would borrow the
// lines and the names, and be no plainer than a loop.
fn read_assertions(lines: &mut Lines, n: u8, k: u8) -> Result<[Assertion; 32], Refused>
    requires { k ≤ 32 }
    ensures { Gives (λ row. row) (assertion_row n k (standing lines.old)) (standing lines.new) result }
{
    let mut assertions = [Assertion::default(); 32];
    for a in assertions[..k as usize].iter_mut() {
        *a = read_assertion(lines, n)?;
    }
    Ok(assertions)
}

// The policy text over the n templates of the plan: its count, then its assertions; or why it is refused, and on which line.
pub fn read_policy(n: u8, text: &[u8]) -> Result<Policy, Refused>
    ensures { policy_read result ≡ read_policy n text.now }
{
    let mut lines = Lines::new(text)?;
    let k = lines.field(
        b"assertions=",
        |s| field::read_number(s, Refusal::Range, 0, 33),
    )?;
    let assertions = read_assertions(&mut lines, n, k)?;
    lines.finish()?;
    Ok(Policy {
        count: k as usize,
        assertions,
    })
}
