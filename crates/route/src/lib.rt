// The search over a plan that is laid out and lent. Crate layout lays a plan out; crate relations asks both tag relations by
// these searches.
#![tactic(auto)]

ghost use Rattle.std.specs.Prelude.{◌≡◌};
ghost use Rattle.route.specs.Search.{in_mask, including, is_open, enter, reach};
ghost use Rattle.route.specs.Lent.{laid};

use mask::Mask;

// A plan laid out: the successors of each template, the masks of what each creates, and the forks. Rows of their own and no row
// of structs: a search, nearly all of the judge's time, reads the successors alone, which then lie in two lines of memory.
#[derive(Clone, Copy)]
pub struct Layout {
    pub first: [u8; 64],
    pub second: [u8; 64],
    pub creates: [u32; 64],
    pub forks: u64,
}

// What crate relations hands on between its searches, here because the tests of Search.antt name it: a template to be
// reached, and the mask of the ways that lead to it.
#[derive(Clone, Copy)]
pub struct Target {
    pub place: u8,
    pub ways: u64,
}

// The template of the source and that of the sink.
#[derive(Clone, Copy)]
pub struct Targets {
    pub source: Target,
    pub sink: Target,
}

// Masks over forks: those reached from the root, those whose branches need no way, and those where a way will do.
#[derive(Clone, Copy)]
pub struct Forks {
    pub reached: u64,
    pub direct: u64,
    pub passing: u64,
}

// m with the template x, where x is wanted and a place of a plan: its definition's own parameters.
#[tactic(auto, using(crate::proofs::Steps::included, crate::proofs::Steps::not_included))]
pub fn include(m: u64, x: u8, wanted: bool) -> u64
    ensures { result ≡ including m x wanted }
{
    if wanted { m.insert(x as u32) } else { m }
}

// Whether template x is to be entered: a place of a plan, not seen yet and not barred. All three are asked: a branch on each
// cannot be foretold, and cost a tenth and more of a search.
#[tactic(auto, unfolding(crate::specs::Search::is_open, lists::specs::Joins::both))]
fn is_open(x: u8, barred: u64, seen: u64) -> bool
    ensures { result ≡ is_open (in_mask barred) seen x }
{
    (x < 64) & (!seen.contains(x as u32) & !barred.contains(x as u32))
}

impl Layout {
    // Depth first: what was seen, with template x, if it is open, and what is entered from its successors.
    fn enter(&self, x: u8, barred: u64, seen: u64) -> u64
        ensures { result ≡ enter (laid self.now) (in_mask barred) 64 seen x }
    {
        if !is_open(x, barred, seen) {
            return seen;
        }
        let here = seen.insert(x as u32);
        let i = x as usize;
        let after = self.enter(self.first[i], barred, here);
        self.enter(self.second[i], barred, after)
    }

    // The templates that routes from start reach without a barred one.
    pub fn search_from(&self, start: u8, barred: u64) -> u64
        ensures { result ≡ reach (laid self.now) (in_mask barred) start }
    {
        self.enter(start, barred, 0)
    }
}
