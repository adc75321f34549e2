// Blocks of words in lent arrays: copied, and moved down. What is public takes any numbers: none reads or stores past an end.
#![tactic(auto)]

ghost use Rattle.std.specs.Prelude.{◌≡◌, ℕ, ◌≤◌, ◌+◌, ◌-◌, min, get_or, length};
ghost use Rattle.lists.specs.Writes.{written};
ghost use Rattle.blocks.specs.Blocks.{copied, shifted};

// Copies n words from a place in one list to a place in another; nothing where either range passes an end. Document 02, U12, asks
// for it.
pub fn copy_words(words: &[u32], from: usize, into: &mut [u32], at: usize, n: usize)
    ensures { (j : ℕ) → get_or into.new j 0 ≡ written into.old at (copied words.now from into.old at n) (λ i. get_or words.now (from + i) 0) j }
{
    if ranges::is_within(words.len(), from, n) & ranges::is_within(into.len(), at, n) {
        into[at..at + n].copy_from_slice(&words[from..from + n]);
    }
}

// Brings what stands `by` places further on down to from..to; nothing from past the end.
pub fn shift(xs: &mut [u32], from: usize, to: usize, by: usize)
    ensures { (j : ℕ) → get_or xs.new j 0 ≡ shifted xs.old from (min to (length xs.old - by)) by j }
{
    let end = to.min(xs.len().saturating_sub(by));
    if from < end {
        xs.copy_within(from + by..end + by, from);
    }
}
