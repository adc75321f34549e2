// Document 01, Send, on a lent row and lent arrays, below refusal 20.
// The lent arrays are parameters of their own: crate population says why.
#![tactic(auto)]

ghost use Rattle.std.specs.Prelude.{◌≡◌, not, ◌&&◌, ◌||◌, List, ℕ, length, eqb};
ghost use Rattle.mask.specs.Mask.{has};
ghost use Rattle.planrow.specs.Lookup.{plan_for};
ghost use Rattle.machine.specs.Machine.{send, agree};
ghost use Rattle.population.specs.Arrays.{cells};
ghost use Rattle.population.specs.declared.Counts.{Counts};
ghost use Rattle.population.specs.Lent.{Tried};
ghost use Rattle.population.specs.Refusals.{answer_or};

use machine::Answer;
use mask::Mask;
use planrow::WORDS;
use population::Refusal;

// Whether identifier i holds nothing back: it is not in the sender's label, or it is in both and the tags are equal.
fn is_agreed(label: u32, receiver: u32, sent: u32, held: u32, i: u32) -> bool
    ensures { result ≡ (not (has i label) || (has i receiver && eqb sent held)) }
{
    !label.contains(i) | (receiver.contains(i) & (sent == held))
}

// Whether what a sender wears, a label and tags, passes to a receiver that wears the others; not where the one has fewer tags than
// the other. An identifier is one of 32. By index: over a zip a send with 32 identifiers takes up to 1.7 times as long.
pub fn is_passed(label: u32, sent: &[u32], receiver: u32, held: &[u32]) -> bool
    ensures { let n = length sent.now in
        result ≡ (eqb n (length held.now) && agree n label sent.now receiver held.now) }
{
    let n = sent.len();
    if held.len() != n {
        return false;
    }
    let mut agreed = true;
    for i in 0..n.min(32) {
        agreed &= is_agreed(label, receiver, sent[i], held[i], i as u32);
    }
    agreed
}

// Document 01, Send: 21 if either is not live; 26 if equal; else delivered exactly when the labels and tags allow.
pub fn attempt(
    row: &[u32; WORDS],
    live: u32,
    serials: &[u32; 128],
    labels: &[u32; 128],
    tags: &[u32; 4096],
    from: u32,
    to: u32,
) -> Result<Answer, Refusal>
    ensures { let plan = plan_for row.now in
        ((templates : List ℕ) (n : Counts) → n.live ≡ live →
        let c = cells serials.now templates labels.now tags.now in
        Tried plan n c (send from to) (answer_or result) n c) }
{
    let a = population::find(serials, live, from)?;
    let b = population::find(serials, live, to)?;
    if from == to {
        return Err(Refusal::ToItself);
    }
    let m = planrow::identifier_count(row);
    let (Some(sent), Some(held)) = (
        tagrows::row(tags, a as u32, m),
        tagrows::row(tags, b as u32, m),
    ) else {
        return Ok(Answer::Held);
    };
    if is_passed(labels[a], sent, labels[b], held) {
        Ok(Answer::Delivered)
    } else {
        Ok(Answer::Held)
    }
}
