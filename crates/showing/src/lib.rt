// What showing shows of two lent texts: they are judged, and the part that the verdict shows is handed back, as numbers or as
// the caller's own bytes, with no copy. Crate locating finds where it lies.
#![tactic(auto)]

ghost use Rattle.std.specs.Prelude.{◌≡◌};
ghost use Rattle.rules.specs.Show.{located, between, lying, locate, shown};
ghost use Rattle.showing.specs.Places.{lying_in};

use rules::{Part, Text, Verdict};

// The part that a verdict on the texts shows: the caller's own bytes, of the text that the verdict chooses.
pub fn show_verdict<'a>(plan: &'a [u8], policy: &'a [u8], verdict: Verdict) -> &'a [u8]
    ensures result_value { result.now ≡ between (located verdict plan.now policy.now) plan.now policy.now }
    ensures place { result.ref_ptr ≡ lying_in (located verdict plan.now policy.now) plan.now policy.now plan.entry.ref_ptr policy.entry.ref_ptr }
{
    let place = locating::locate_verdict(plan, policy, verdict);
    match place.text {
        Text::Plan => scan::part(plan, place.start, place.end),
        Text::Policy => scan::part(policy, place.start, place.end),
    }
}

// Showing judges the texts: where the part lies,
pub fn locate(plan: &[u8], policy: &[u8]) -> Part
    ensures { result ≡ locate plan.now policy.now }
{
    locating::locate_verdict(plan, policy, verdict::judge(plan, policy))
}

// and the part itself, which lies there in the text.
pub fn show<'a>(plan: &'a [u8], policy: &'a [u8]) -> &'a [u8]
    ensures result_value { result.now ≡ shown plan.now policy.now }
    ensures place { result.ref_ptr ≡ lying (locate plan.now policy.now) plan.entry.ref_ptr policy.entry.ref_ptr }
{
    show_verdict(plan, policy, verdict::judge(plan, policy))
}
