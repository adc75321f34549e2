// The identifiers that break a rule on the edge from template x to template y: one mask for each row of edge_rules, all with one
// signature, whose three parts a struct would only have to be taken apart in each line. lab is lab x where the judge asks, and the
// process's label where a step does.
#![tactic(auto)]

ghost use Rattle.std.specs.Prelude.{◌≡◌, ◌<◌, IfSome};
ghost use Rattle.mask.specs.Mask.{has};
ghost use Rattle.mask.specs.Sets.{Marks};
ghost use Rattle.rules.specs.Judge.{offends12, offends13, offends14, offends15, offends16};
ghost use Rattle.offenders.specs.Lowest.{lowest_of};

use plan::Template;

// 12: lab y within lab plus pos y.
#[tactic(auto, using(crate::proofs::Masks::neither))]
pub fn offenders_12(lab: u32, x: Template, y: Template) -> u32
    ensures { Marks result (offends12 lab x y) }
{
    mask::difference(y.lab, lab | y.pos)
}

// 13: lab minus neg y within lab y.
#[tactic(auto, using(crate::proofs::Masks::less_less))]
pub fn offenders_13(lab: u32, x: Template, y: Template) -> u32
    ensures { Marks result (offends13 lab x y) }
{
    mask::difference(mask::difference(lab, y.neg), y.lab)
}

// 14: pos y within pos x plus creates y.
#[tactic(auto, using(crate::proofs::Masks::neither))]
pub fn offenders_14(lab: u32, x: Template, y: Template) -> u32
    ensures { Marks result (offends14 lab x y) }
{
    mask::difference(y.pos, x.pos | y.creates)
}

// 15: neg y within neg x plus creates y.
#[tactic(auto, using(crate::proofs::Masks::neither))]
pub fn offenders_15(lab: u32, x: Template, y: Template) -> u32
    ensures { Marks result (offends15 lab x y) }
{
    mask::difference(y.neg, x.neg | y.creates)
}

// 16: creates y and lab share nothing.
#[tactic(auto, using(crate::proofs::Masks::in_both))]
pub fn offenders_16(lab: u32, x: Template, y: Template) -> u32
    ensures { Marks result (offends16 lab x y) }
{
    y.creates & lab
}

// The lowest item of m below the limit, where there is one.
pub fn lowest_below(limit: u32, m: u32) -> Option<u32>
    ensures lowest { result ≡ lowest_of limit (λ i. has i m) }
    ensures item { IfSome result (λ i. i < 32) }
{
    let i = mask::lowest_item(m);
    if i < limit.min(32) { Some(i) } else { None }
}
