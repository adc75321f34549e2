// Rule 17 over the lent layout of a plan: the identifiers that a secrecy may rest on, and whether one of them serves.
// Joined is asked only where the labels leave the question open.
#![tactic(auto)]

ghost use Rattle.std.specs.Prelude.{◌≡◌, cond, ◌&&◌, ℕ};
ghost use Rattle.lists.specs.Numbers.{every, any};
ghost use Rattle.mask.specs.Mask.{has, without};
ghost use Rattle.secrecy.specs.Lent.{keeps, wearables, joined, serves_by};

use mask::Mask;
use plan::{Assertion, Plan, Template};
use route::Layout;

// lab x, with pos x added if x is at risk.
#[tactic(auto, unfolding(crate::specs::Lent::wearables))]
pub fn wearables(x: Template) -> u32
    ensures { result ≡ wearables x }
{
    if x.risk { x.lab | x.pos } else { x.lab }
}

// What template x leaves of what is kept: all if it is in declass, else what is not in its neg.
fn keep(kept: u32, neg: u32, declass: u64, x: u8) -> u32
    ensures { result ≡ cond (has x declass) kept (without kept neg) }
{
    if declass.contains(x as u32) {
        kept
    } else {
        mask::difference(kept, neg)
    }
}

// The identifiers of worn that are in no neg of a template outside declass. Not a fold: that the row has its length is known once
// a template was read, and what a closure read is not told outside; the proof did not close.
pub fn find_kept(plan: &Plan, worn: u32, declass: u64) -> u32
    ensures { (t : ℕ) → has t result ≡ (has t worn && every plan.now.count (keeps plan.now declass t)) }
{
    let mut kept = worn;
    for x in 0..plan::capped(plan.count, 64) {
        kept = keep(kept, plan.templates[x as usize].neg, declass, x);
    }
    kept
}

// Rule 17's identifier t: one of those kept, and not risked or not joined.
#[tactic(auto, unfolding(crate::specs::Lent::serves_by, crate::specs::Lent::joined))]
fn identifier_serves(layout: &Layout, kept: u32, risked: u32, a: Assertion, t: u32) -> bool
    ensures { result ≡ serves_by kept risked (joined layout.now a) t }
{
    kept.contains(t)
        && (!risked.contains(t) || !relations::shares_tag(layout, layout::creators(layout, t), a))
}

// Whether some identifier below the limit serves, rising.
pub fn some_serves(layout: &Layout, kept: u32, risked: u32, limit: u32, a: Assertion) -> bool
    ensures { result ≡ any limit (serves_by kept risked (joined layout.now a)) }
{
    (0..limit.min(32)).any(|t| identifier_serves(layout, kept, risked, a, t))
}
