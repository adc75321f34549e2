// Document 01, Step, on a lent row and lent arrays, below refusal 20: the process is found, and refused or moved on.
// The lent arrays are parameters of their own: crate population says why.
#![tactic(auto)]

ghost use Rattle.std.specs.Prelude.{◌≡◌, ◌<◌, ◌≤◌};
ghost use Rattle.plan.specs.Listed.{listed};
ghost use Rattle.planrow.specs.Lookup.{plan_for};
ghost use Rattle.machine.specs.Machine.{step};
ghost use Rattle.population.specs.Arrays.{cells};
ghost use Rattle.population.specs.Lent.{Tried};
ghost use Rattle.population.specs.Refusals.{done_or};
ghost use Rattle.admission.specs.Admission.{refusal_of};
ghost use Rattle.stepping.specs.Stepping.{SteppedAt};

use plan::{Template, UpToTwo};
use planrow::WORDS;
use population::{Child, Counts, Refusal};

// 22 to 25, asked of the children as a slice.
fn admit(
    m: u32,
    counts: Counts,
    label: u32,
    x: Template,
    branch: u32,
    children: UpToTwo<Child>,
) -> Result<(), Refusal>
    ensures { done_or result ≡ refusal_of m counts.next counts.live label x branch (listed children) }
{
    match children {
        UpToTwo::None => admission::admit(m, counts, label, x, branch, &[]),
        UpToTwo::One(y) => admission::admit(m, counts, label, x, branch, &[y]),
        UpToTwo::Two(y, z) => admission::admit(m, counts, label, x, branch, &[y, z]),
    }
}

// The step of the process at place k.
fn step_at(
    row: &[u32; WORDS],
    counts: &mut Counts,
    k: usize,
    branch: u32,
    serials: &mut [u32; 128],
    templates: &mut [u32; 128],
    labels: &mut [u32; 128],
    tags: &mut [u32; 4096],
) -> Result<(), Refusal>
    requires { (k < counts.now.live) × (counts.now.live ≤ 128) }
    ensures { let plan = plan_for row.now in
        let c = cells serials.old templates.old labels.old tags.old in
        let d = cells serials.new templates.new labels.new tags.new in
        SteppedAt plan counts.old c k branch (done_or result) counts.new d }
{
    let m = planrow::identifier_count(row);
    let t = planrow::template_at(row, templates[k]);
    let heirs = admission::children_of(t.form, branch);
    let children = heirs.map(|y| Child {
        number: y as u32,
        template: planrow::template_at(row, y as u32),
    });
    admit(m, *counts, labels[k], t, branch, children)?;
    let last = counts.live - 1;
    spawning::advance(
        m,
        counts.next,
        k as u32,
        last,
        children,
        serials,
        templates,
        labels,
        tags,
    );
    let born = children.count();
    counts.next += born;
    counts.live = last + born;
    Ok(())
}

// Document 01, Step: 21, then 22 to 25 for the process found.
pub fn attempt(
    row: &[u32; WORDS],
    counts: &mut Counts,
    serials: &mut [u32; 128],
    templates: &mut [u32; 128],
    labels: &mut [u32; 128],
    tags: &mut [u32; 4096],
    serial: u32,
    branch: u32,
) -> Result<(), Refusal>
    ensures { let plan = plan_for row.now in
        let c = cells serials.old templates.old labels.old tags.old in
        let d = cells serials.new templates.new labels.new tags.new in
        Tried plan counts.old c (step serial branch) (done_or result) counts.new d }
{
    let k = population::find(serials, counts.live, serial)?;
    // A row of more than 32 identifiers means a bad state, whose tags have no places.
    if 32 < planrow::identifier_count(row) {
        return Err(Refusal::BadState);
    }
    step_at(row, counts, k, branch, serials, templates, labels, tags)
}
