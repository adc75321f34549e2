// Rules 18 and 19 over the lent layout of a plan. Parted is asked only where the labels leave the question open.
#![tactic(auto)]

ghost use Rattle.std.specs.Prelude.{◌≡◌, cond, ◌&&◌};
ghost use Rattle.mask.specs.Mask.{has};
ghost use Rattle.mask.specs.Sets.{plus_below};
ghost use Rattle.rules.specs.Judge.{first_below};
ghost use Rattle.rules.specs.Broken.{answered};
ghost use Rattle.prot.specs.Lent.{parted, prot_by, Picked};

use mask::Mask;
use plan::Assertion;
use route::Layout;
use rules::Breach;

// What a prot asks of labels: how many identifiers there are, lab Source and lab Sink.
#[derive(Clone, Copy)]
pub struct Labels {
    pub limit: u32,
    pub source: u32,
    pub sink: u32,
}

// found, with t where it is asked and parted.
#[tactic(auto, unfolding(crate::specs::Lent::parted))]
fn include_parted(layout: &Layout, asked: u32, a: Assertion, found: u32, t: u32) -> u32
    ensures { result ≡ cond (has t asked && parted layout.now a t) (plus_below 32 found t) found }
{
    if asked.contains(t) && relations::splits_tag(layout, layout::creators(layout, t), a) {
        found.insert(t)
    } else {
        found
    }
}

// The identifiers below the limit, of those asked, that are parted.
fn find_parted(layout: &Layout, asked: u32, a: Assertion, limit: u32) -> u32
    ensures { Picked asked (parted layout.now a) limit result }
{
    (0..limit).fold(0, |found, t| include_parted(layout, asked, a, found, t))
}

// The rule that identifier t, which offends, breaks: 18 if it is not in lab Sink, else 19.
fn rule_at(sink: u32, t: u32) -> u8
    ensures { result ≡ cond (has t sink) 19 18 }
{
    if sink.contains(t) { 19 } else { 18 }
}

// 18 and 19 of a prot: of both rules' offenders together the lowest, which is 18's if it is not in lab Sink. From 18's
// lowest on nothing is asked of routes.
pub fn check_prot(layout: &Layout, labels: Labels, place: u8, a: Assertion) -> Result<(), Breach>
    ensures { answered result ≡ first_below labels.limit (prot_by labels place a (parted layout.now a)) }
{
    let bare = mask::difference(labels.source, labels.sink);
    let end = labels.limit.min(mask::lowest_item(bare));
    let asked = labels.source & labels.sink;
    let split = find_parted(layout, asked, a, end);
    let Some(t) = offenders::lowest_below(labels.limit, bare | split) else {
        return Ok(());
    };
    let rule = rule_at(labels.sink, t);
    Err(Breach {
        rule,
        first: place,
        second: a.sink,
        identifier: t as u8,
    })
}
