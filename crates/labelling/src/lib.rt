// Document 01, Raise and lower, on a lent row and lent arrays, below refusal 20. They are one move; only the labels change.
// The lent arrays are parameters of their own: crate population says why.
#![tactic(auto)]

ghost use Rattle.std.specs.Prelude.{◌≡◌, List, ℕ, ◌<◌};
ghost use Rattle.planrow.specs.Lookup.{plan_for};
ghost use Rattle.machine.specs.Machine.{movable, label_with};
ghost use Rattle.population.specs.Arrays.{cells};
ghost use Rattle.population.specs.declared.Counts.{Counts};
ghost use Rattle.population.specs.Lent.{Tried};
ghost use Rattle.population.specs.Refusals.{done_or};
ghost use Rattle.labelling.specs.Labelling.{moves, refusal_of};

use mask::Mask;
use plan::Template;
use planrow::WORDS;
use population::Refusal;

// "Pos (raise) or neg (lower)."
#[tactic(auto, unfolding(machine::specs::Machine::movable))]
fn movable_of(present: bool, t: Template) -> u32
    ensures { result ≡ movable present t }
{
    if present { t.pos } else { t.neg }
}

// The first refusal from 27 to 29.
#[tactic(auto, unfolding(crate::specs::Labelling::refusal_of, machine::specs::Machine::refuse_if))]
fn permit(m: u32, risk: bool, allowed: u32, i: u32) -> Result<(), Refusal>
    ensures { done_or result ≡ refusal_of m risk allowed i }
{
    if m <= i {
        return Err(Refusal::NoIdentifier);
    }
    if !risk {
        return Err(Refusal::NotAtRisk);
    }
    if !allowed.contains(i) {
        return Err(Refusal::NotAllowed);
    }
    Ok(())
}

// "The label has, or lacks, that identifier", where a mask has it.
#[tactic(auto, using(crate::proofs::Labels::label_raised, crate::proofs::Labels::label_lowered))]
fn label_with(present: bool, label: u32, i: u32) -> u32
    ensures { (i < 32 → result ≡ label_with present label i) }
{
    if present {
        label.insert(i)
    } else {
        mask::difference(label, 0u32.insert(i))
    }
}

// Document 01, Raise and lower: 21; 27 if the identifier is not below M; 28 if the template is not at risk; 29 if not in
// pos, of a raise, or neg.
pub fn attempt(
    row: &[u32; WORDS],
    live: u32,
    serials: &[u32; 128],
    templates: &[u32; 128],
    labels: &mut [u32; 128],
    serial: u32,
    identifier: u32,
    present: bool,
) -> Result<(), Refusal>
    ensures { let plan = plan_for row.now in
        ((tags : List ℕ) (n : Counts) → n.live ≡ live →
        let c = cells serials.now templates.now labels.old tags in
        let d = cells serials.now templates.now labels.new tags in
        Tried plan n c (moves present serial identifier) (done_or result) n d) }
{
    let k = population::find(serials, live, serial)?;
    let m = planrow::identifier_count(row);
    // A row of more than 32 identifiers means a bad state, and no mask has them.
    if 32 < m {
        return Err(Refusal::BadState);
    }
    let t = planrow::template_at(row, templates[k]);
    permit(m, t.risk, movable_of(present, t), identifier)?;
    labels[k] = label_with(present, labels[k], identifier);
    Ok(())
}
