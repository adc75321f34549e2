// Rows of tags: where one begins, one lent, one copied, and one written for a child. Each takes any numbers: none reads or stores
// past an end.
#![tactic(auto)]

ghost use Rattle.std.specs.Prelude.{◌≡◌, ℕ, ◌+◌, ◌*◌, min, get_or};
ghost use Rattle.std.specs.Slice.{IsGetRangeResult};
ghost use Rattle.lists.specs.Numbers.{tabulate};
ghost use Rattle.lists.specs.Writes.{written};
ghost use Rattle.tagrows.specs.Rows.{child_tag};

use mask::Mask;

// Where the tags of a place begin, of m identifiers.
#[tactic(auto, using(crate::proofs::Rows::product_fits))]
pub fn row_start(place: u32, m: u32) -> usize
    ensures { result ≡ place * m }
{
    (place as usize) * (m as usize)
}

// The m tags of a place, if they all stand there.
pub fn row(tags: &[u32], place: u32, m: u32) -> Option<&[u32]>
    ensures { IsGetRangeResult tags.now (place * m) (place * m + m) result }
{
    let from = row_start(place, m);
    tags.get(from..from + m as usize)
}

// The 32 tags from a place on, the last 32 where fewer stand there.
pub fn copy_row(tags: &[u32; 4096], from: usize) -> [u32; 32]
    ensures { result ≡ tabulate 32 (λ i. get_or tags.now (min from 4064 + i) 0) }
{
    let at = from.min(4064);
    let mut row = [0u32; 32];
    row.copy_from_slice(&tags[at..at + 32]);
    row
}

// Document 01: "its parent's tags, and its own serial as tag of each identifier Y creates".
#[tactic(auto, unfolding(crate::specs::Rows::child_tag))]
fn child_tag(serial: u32, creates: u32, parent: u32, i: u32) -> u32
    ensures { result ≡ child_tag serial creates parent i }
{
    if creates.contains(i) { serial } else { parent }
}

// Writes the 32 tags of a child from a place on, the last 32 where fewer are there. By index: of what is written through a
// zip no proof knows anything afterwards.
pub fn write_row(tags: &mut [u32; 4096], from: usize, parent: [u32; 32], creates: u32, serial: u32)
    ensures { (j : ℕ) → get_or tags.new j 0 ≡ written tags.old (min from 4064) 32 (λ i. child_tag serial creates (get_or parent i 0) i) j }
{
    let first = from.min(4064);
    for (i, tag) in parent.iter().enumerate() {
        tags[first + i] = child_tag(serial, creates, *tag, i as u32);
    }
}
