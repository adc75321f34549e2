// Rule 11 over a plan: no identifier is created twice. A count past the 64 places or an identifier past the 32 items of a mask is
// met as the definitions meet it: a blank template and an empty mask create nothing.
#![tactic(auto)]

ghost use Rattle.std.specs.Prelude.{◌≡◌, ◌<◌, ltb, length};
ghost use Rattle.mask.specs.Sets.{Marks};
ghost use Rattle.rules.specs.Judge.{next_creator, check11};
ghost use Rattle.rules.specs.Broken.{answered};
ghost use Rattle.creation.specs.Creator.{creator_from};

use mask::Mask;
use plan::Plan;
use rules::Breach;

// The identifiers that two templates create: each is in what an earlier template created. A loop by number, no slice of the first
// N and no fold: that the row has its length is known once a template was read, and a fold's closure tells nothing outside of that.
fn created_twice(plan: &Plan) -> u32
    ensures marks { Marks result (λ t. ltb (next_creator plan.now t) plan.now.count) }
    ensures row { 0 < plan.now.count → length plan.now.templates ≡ 64 }
{
    let mut once: u32 = 0;
    let mut twice: u32 = 0;
    for x in 0..plan::capped(plan.count, 64) {
        let creates = plan.templates[x as usize].creates;
        twice |= once & creates;
        once |= creates;
    }
    twice
}

// The lowest template from the given one on that creates t.
fn creator_from(plan: &Plan, t: u32, from: u8) -> Option<u8>
    ensures { result ≡ creator_from plan.now from t }
{
    (from..plan::capped(plan.count, 64)).find(|x| plan.templates[*x as usize].creates.contains(t))
}

// 11, document 01's number: the lowest identifier that is created twice, and its two lowest creators.
pub fn check_11(plan: &Plan) -> Result<(), Breach>
    ensures { answered result ≡ check11 plan.now }
{
    let Some(t) = offenders::lowest_below(plan.identifiers, created_twice(plan)) else {
        return Ok(());
    };
    let x = creator_from(plan, t, 0).unwrap();
    let y = creator_from(plan, t, x + 1).unwrap();
    Err(Breach {
        rule: 11,
        first: x,
        second: y,
        identifier: t as u8,
    })
}
