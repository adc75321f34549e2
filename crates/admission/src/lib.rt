// Document 01, Step, 22 to 25: whether a process may take its step, and which children it then has.
#![tactic(auto)]

ghost use Rattle.std.specs.Prelude.{◌≡◌, not};
ghost use Rattle.mask.specs.Sets.{Marks};
ghost use Rattle.plan.specs.Listed.{listed};
ghost use Rattle.machine.specs.Machine.{branch_fits, children};
ghost use Rattle.population.specs.Refusals.{done_or};
ghost use Rattle.admission.specs.Admission.{innocent, fitting, all_fitting, refusal_of};

use plan::{Form, Template, UpToTwo};
use population::{Child, Counts, Refusal};

// Document 01, 22: "branch is not 0, or for `either` not 0 or 1".
#[tactic(auto, unfolding(machine::specs::Machine::branch_fits))]
fn is_branch(form: Form, branch: u32) -> bool
    ensures { result ≡ branch_fits form branch }
{
    match form {
        Form::Either(..) => branch <= 1,
        Form::End | Form::Go(_) | Form::Both(..) => branch == 0,
    }
}

// "`go` and `either` make one child, `both` two (Y takes the lower serial), `end` none": their templates.
#[tactic(auto, unfolding(plan::specs::Plan::successors, machine::specs::Machine::children))]
pub fn children_of(form: Form, branch: u32) -> UpToTwo<u8>
    ensures { listed result ≡ children form branch }
{
    match form {
        Form::Either(y, z) => UpToTwo::One(if branch == 0 { y } else { z }),
        Form::End | Form::Go(_) | Form::Both(..) => form.successors(),
    }
}

// The identifiers that offend against a rule of step_rules where a process at x, of that label, becomes one at y.
fn offences(label: u32, x: Template, y: Template) -> u32
    ensures { Marks result (λ i. not (innocent label x y i)) }
{
    let m12 = offenders::offenders_12(label, x, y);
    let m13 = offenders::offenders_13(label, x, y);
    let m16 = offenders::offenders_16(label, x, y);
    m12 | (m13 | m16)
}

// Document 01, 25, for one child: no identifier of the plan's offends.
fn is_fitting(m: u32, label: u32, x: Template, y: Template) -> bool
    ensures { result ≡ fitting m label x y }
{
    offenders::lowest_below(m, offences(label, x, y)).is_none()
}

// The same for each of them.
fn are_fitting(m: u32, label: u32, x: Template, children: &[Child]) -> bool
    ensures { result ≡ all_fitting m label x children.now }
{
    children
        .iter()
        .all(|child| is_fitting(m, label, x, child.template))
}

// The first refusal from 22 to 25 of a process at x, of that label, which is to have those children: any number of them.
#[tactic(auto, using(crate::proofs::Refusals::refused_22, crate::proofs::Refusals::refused_23, crate::proofs::Refusals::refused_24, crate::proofs::Refusals::refused_25, crate::proofs::Refusals::refused_none))]
pub fn admit(
    m: u32,
    counts: Counts,
    label: u32,
    x: Template,
    branch: u32,
    children: &[Child],
) -> Result<(), Refusal>
    ensures { done_or result ≡ refusal_of m counts.next counts.live label x branch children.now }
{
    if !is_branch(x.form, branch) {
        return Err(Refusal::NoBranch);
    }
    let born = children.len();
    if born == 2 && 128 <= counts.live {
        return Err(Refusal::NoRoom);
    }
    if ((u32::MAX - counts.next) as usize) < born {
        return Err(Refusal::NoSerial);
    }
    if !are_fitting(m, label, x, children) {
        return Err(Refusal::BadLabel);
    }
    Ok(())
}
