// The plan's part of refusal 20, tested on the words of a row.
#![tactic(auto)]

ghost use Rattle.std.specs.Prelude.{◌≡◌, ◌&&◌, ◌^◌, ltb};
ghost use Rattle.plan.specs.Plan.{template_fits};
ghost use Rattle.machine.specs.Machine.{plan_fits};
ghost use Rattle.planrow.specs.Row.{template_of, is_template};
ghost use Rattle.planrow.specs.Lookup.{word, plan_for};

use planrow::{WIDTH, WORDS};

// Whether a mask is one over m identifiers.
#[tactic(auto, using(crate::proofs::Fitting::mask_fits))]
fn is_mask(mask: u32, m: u32) -> bool
    ensures { result ≡ ltb mask (2 ^ m) }
{
    mask <= mask::full_mask(m)
}

// Whether a template's words stand for one that fits n templates and m identifiers. A successor that the form lacks need only be
// a byte. Joined, the masks are compared once.
#[tactic(auto, using(planrow::proofs::Reading::tested, crate::proofs::Fitting::template_gathered))]
fn template_fits(words: &[u32; WIDTH], n: u32, m: u32) -> bool
    ensures { result ≡ (is_template (word words.now) && template_fits n m (template_of (word words.now))) }
{
    let [form, first, second, lab, pos, neg, creates, _] = *words;
    planrow::is_template(words)
        & ((form < 1) | (first < n))
        & ((form < 2) | (second < n))
        & is_mask(lab | pos | neg | creates, m)
}

// Document 01, 20: "a count [..] passed", and the plan's part of the rest. A row that means no plan has none that fits.
// The loop does not leave early: every call runs it, and nearly every row fits.
#[tactic(auto, using(lists::proofs::Every::every_start, crate::proofs::Fitting::row_uncounted, crate::proofs::Fitting::row_more, crate::proofs::Fitting::row_gathered))]
pub fn is_fitting(row: &[u32; WORDS]) -> bool
    ensures { result ≡ plan_fits (plan_for row.now) }
{
    let n = planrow::template_count(row);
    let m = planrow::identifier_count(row);
    if (n < 1) | (64 < n) | (32 < m) {
        return false;
    }
    let mut fits = true;
    for words in &planrow::templates(row)[..n as usize] {
        fits &= template_fits(words, n, m);
    }
    fits
}
