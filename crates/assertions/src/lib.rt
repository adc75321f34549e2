// Rules 17 to 19 over a plan and a policy. The layout for the routes is made once and lent to both kinds of assertion; each
// makes its own searches over it.
#![tactic(auto)]

ghost use Rattle.std.specs.Prelude.{◌≡◌, cond};
ghost use Rattle.layout.specs.Layout.{layout_of};
ghost use Rattle.rules.specs.declared.Verdict.TheVariants.{Accepted};
ghost use Rattle.rules.specs.Judge.{broken, check_assertion, check_assertions};
ghost use Rattle.rules.specs.Broken.{answered};

use plan::{Assertion, Kind, Plan, Policy};
use prot::Labels;
use route::Layout;
use rules::Breach;

// 17 of a secrecy, by whether some identifier serves; 255 is document 01's number for no identifier.
fn check_17(served: bool, place: u8, sink: u8) -> Result<(), Breach>
    ensures { answered result ≡ cond served Accepted (broken 17 place sink 255) }
{
    if served {
        Ok(())
    } else {
        Err(Breach {
            rule: 17,
            first: place,
            second: sink,
            identifier: 255,
        })
    }
}

// The assertion at a place, by its kind.
fn check_assertion(layout: &Layout, plan: &Plan, place: u8, a: Assertion) -> Result<(), Breach>
    requires { layout.now ≡ layout_of plan.now }
    ensures { answered result ≡ check_assertion plan.now place a a.kind }
{
    let source = plan.template(a.source);
    let sink = plan.template(a.sink);
    match a.kind {
        Kind::Secrecy => {
            let kept = secrecy::find_kept(plan, source.lab, a.declass);
            let risked = secrecy::wearables(sink);
            let served = secrecy::some_serves(layout, kept, risked, plan.identifiers, a);
            check_17(served, place, a.sink)
        }
        Kind::Prot => {
            let labels = Labels {
                limit: plan.identifiers,
                source: source.lab,
                sink: sink.lab,
            };
            prot::check_prot(layout, labels, place, a)
        }
    }
}

// All assertions in order, over one layout. Past the 32 places all are blank, and alike: the first of them is enough. A loop:
// `try_for_each` would say the same in a closure.
pub fn check_assertions(plan: &Plan, policy: &Policy) -> Result<(), Breach>
    ensures { answered result ≡ check_assertions plan.now policy.now }
{
    let layout = layout::lay_out(plan);
    for i in 0..plan::capped(policy.count, 33) {
        check_assertion(&layout, plan, i, policy.assertion(i as usize))?;
    }
    Ok(())
}
