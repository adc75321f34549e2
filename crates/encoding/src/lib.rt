// The row of a plan: a plan written as its words, which stand where crate planrow says (HEADER, WIDTH, WORDS).
#![tactic(auto)]

ghost use Rattle.std.specs.Prelude.{◌≡◌};
ghost use Rattle.planrow.specs.Row.{words_of, row_of_plan};

use plan::{Plan, Template};
use planrow::{FormWords, HEADER, WIDTH, WORDS};

// A template's words. A function, as row_of is: From may not be written here for two types of other crates.
#[tactic(auto, using(crate::proofs::Writing::words_whole))]
fn words_of(t: Template) -> [u32; WIDTH]
    ensures { result ≡ words_of t }
{
    let FormWords(number, first, second) = FormWords::from(t.form);
    [
        number,
        first as u32,
        second as u32,
        t.lab,
        t.pos,
        t.neg,
        t.creates,
        t.risk as u32,
    ]
}

// The row of a plan. The first word is N, and 65 where there are more than 64 templates. By index: of what is written through a zip of
// chunks no proof knows anything afterwards.
pub fn row_of(plan: Plan) -> [u32; WORDS]
    ensures { result ≡ row_of_plan plan }
{
    let mut out = [0; WORDS];
    out[0] = plan.count.min(65) as u32;
    out[1] = plan.identifiers;
    let n = plan.count.min(64);
    for (i, t) in plan.templates[..n].iter().enumerate() {
        let at = HEADER + WIDTH * i;
        out[at..at + WIDTH].copy_from_slice(&words_of(*t));
    }
    out
}
