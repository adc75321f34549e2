// Rules 12 to 16 over the edges of a plan. A count past the 64 places or an identifier past the 32 items of a mask is met as the
// definitions meet it: blank templates and empty masks break nothing.
#![tactic(auto)]

ghost use Rattle.std.specs.Prelude.{◌≡◌};
ghost use Rattle.mask.specs.Mask.{has};
ghost use Rattle.plan.specs.Plan.{successors};
ghost use Rattle.rules.specs.Judge.{first_in, lowest_offender, check_edge, check_edges};
ghost use Rattle.rules.specs.Broken.{answered};

use plan::{Form, Plan, UpToTwo};
use rules::Breach;

// A rule, by document 01's number, broken at the lowest item of m below the limit, where there is one.
fn check_rule(limit: u32, m: u32, rule: u8, x: u8, y: u8) -> Result<(), Breach>
    ensures { answered result ≡ lowest_offender limit rule x y (λ i. has i m) }
{
    match offenders::lowest_below(limit, m) {
        None => Ok(()),
        Some(i) => Err(Breach {
            rule,
            first: x,
            second: y,
            identifier: i as u8,
        }),
    }
}

// The rows of edge_rules in order, on the edge from template x to template y.
fn check_edge(plan: &Plan, x: u8, y: u8) -> Result<(), Breach>
    ensures { answered result ≡ check_edge plan.now x y }
{
    let limit = plan.identifiers;
    let a = plan.template(x);
    let b = plan.template(y);
    check_rule(limit, offenders::offenders_12(a.lab, a, b), 12, x, y)?;
    check_rule(limit, offenders::offenders_13(a.lab, a, b), 13, x, y)?;
    check_rule(limit, offenders::offenders_14(a.lab, a, b), 14, x, y)?;
    check_rule(limit, offenders::offenders_15(a.lab, a, b), 15, x, y)?;
    check_rule(limit, offenders::offenders_16(a.lab, a, b), 16, x, y)
}

// The edges from template x by its form, in form order.
fn check_edges_from(plan: &Plan, x: u8, form: Form) -> Result<(), Breach>
    ensures { answered result ≡ first_in (successors form) (check_edge plan.now x) }
{
    match form.successors() {
        UpToTwo::None => Ok(()),
        UpToTwo::One(y) => check_edge(plan, x, y),
        UpToTwo::Two(y, z) => {
            check_edge(plan, x, y)?;
            check_edge(plan, x, z)
        }
    }
}

// X rising. A loop: `try_for_each` would say the same in a closure, and it is by number that an edge is named.
pub fn check_edges(plan: &Plan) -> Result<(), Breach>
    ensures { answered result ≡ check_edges plan.now }
{
    for x in 0..plan::capped(plan.count, 64) {
        check_edges_from(plan, x, plan.templates[x as usize].form)?;
    }
    Ok(())
}
