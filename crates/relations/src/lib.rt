// Both tag relations by searches over the lent layout of a plan (crate layout). Each search that a relation names is made,
// whatever the others found (document 02, U13, counts them). A layout and an assertion are handed on
// beside one another here and above: a struct of both would be made for each assertion and hold no fact of its own.
#![tactic(auto)]

ghost use Rattle.std.specs.Prelude.{◌≡◌, ◌<◌};
ghost use Rattle.lists.specs.Numbers.{any};
ghost use Rattle.plan.specs.Plan.{at, successors};
ghost use Rattle.route.specs.Search.{only, meet, widened, extended, targets, crosses, fork_crosses, leads, any_in, shares_over, splits_over};
ghost use Rattle.route.specs.Lent.{laid};

use mask::Mask;
use plan::Assertion;
use route::{Forks, Layout, Target, Targets};

// The template x alone.
#[tactic(auto, unfolding(route::specs::Search::only))]
fn only(x: u8) -> u64
    ensures { result ≡ only x }
{
    route::include(0, x, true)
}

// Whether some template is in both masks.
#[tactic(auto, using(crate::proofs::Steps::meet_is))]
fn meet(m: u64, n: u64) -> bool
    ensures { result ≡ meet m n }
{
    m & n != 0
}

// The target with template x as one more way, where it is wanted.
#[tactic(auto, unfolding(route::specs::Search::widened))]
fn widen(to: Target, x: u8, wanted: bool) -> Target
    ensures { result ≡ widened to x wanted }
{
    Target {
        ways: route::include(to.ways, x, wanted),
        ..to
    }
}

// Whether one branch, which reaches m, leads to the source and the other, which reaches n, to the sink: by any routes
// if direct, and by routes of which one passes a way if passing.
#[tactic(auto, unfolding(route::specs::Search::crosses, route::specs::Search::arrives, route::specs::Search::detours, lists::specs::Joins::both, lists::specs::Joins::either))]
fn crosses(to: Targets, direct: bool, passing: bool, m: u64, n: u64) -> bool
    ensures { result ≡ crosses to direct passing m n }
{
    let at_source = m.contains(to.source.place as u32);
    let at_sink = n.contains(to.sink.place as u32);
    let by_source = meet(m, to.source.ways);
    let by_sink = meet(n, to.sink.ways);
    direct && at_source && at_sink || passing && (by_source && at_sink || at_source && by_sink)
}

// A layout without the templates that are barred, and what is sought in it.
#[derive(Clone, Copy)]
struct Search<'a> {
    layout: &'a Layout,
    barred: u64,
    to: Targets,
}

impl<'a> Search<'a> {
    // Both targets with template x as one more way, where it is one: one search, if it is one of the templates via. In place: most
    // templates are no way, and then nothing is copied.
    #[tactic(auto, using(crate::proofs::Steps::extend_none, crate::proofs::Steps::extend_some))]
    fn extend(&mut self, via: u64, x: u8)
        ensures { self.new ≡ record { layout = self.old.layout; barred = self.old.barred; to = extended (laid self.old.layout.now) self.old.barred via self.old.to x } }
    {
        if !via.contains(x as u32) {
            return;
        }
        let to = self.to;
        let m = self.layout.search_from(x, self.barred);
        self.to = Targets {
            source: widen(to.source, x, m.contains(to.source.place as u32)),
            sink: widen(to.sink, x, m.contains(to.sink.place as u32)),
        };
    }

    // For the source and the sink of an assertion, each with all its ways.
    fn new(layout: &'a Layout, barred: u64, via: u64, a: Assertion) -> Search<'a>
        ensures { result ≡ record { layout = layout.entry; barred = barred; to = targets 64 (laid layout.now) barred via a.source a.sink } }
    {
        let source = Target {
            place: a.source,
            ways: 0,
        };
        let sink = Target {
            place: a.sink,
            ways: 0,
        };
        let mut search = Search {
            layout,
            barred,
            to: Targets { source, sink },
        };
        for x in 0..64u8 {
            search.extend(via, x);
        }
        search
    }

    // Whether template x is a fork whose branches cross, in either assignment: two searches.
    #[tactic(auto, using(crate::proofs::Steps::fork_unreached))]
    fn fork_crosses(&self, forks: Forks, x: u8) -> bool
        requires { x < 64 }
        ensures { result ≡ fork_crosses (laid self.now.layout.now) self.now.barred self.now.to forks x }
    {
        if !forks.reached.contains(x as u32) {
            return false;
        }
        let i = x as usize;
        let direct = forks.direct.contains(x as u32);
        let passing = forks.passing.contains(x as u32);
        let m = self.layout.search_from(self.layout.first[i], self.barred);
        let n = self.layout.search_from(self.layout.second[i], self.barred);
        crosses(self.to, direct, passing, m, n) || crosses(self.to, direct, passing, n, m)
    }

    // Whether the branches of some fork cross. Every fork is tried.
    fn some_fork_crosses(&self, forks: Forks) -> bool
        ensures { result ≡ any 64 (fork_crosses (laid self.now.layout.now) self.now.barred self.now.to forks) }
    {
        (0..64u8).fold(false, |found, x| found | self.fork_crosses(forks, x))
    }

    // Whether routes from template y lead to the sink: one search.
    #[tactic(auto, unfolding(route::specs::Search::leads, route::specs::Search::arrives, route::specs::Search::detours, lists::specs::Joins::both, lists::specs::Joins::either))]
    fn leads(&self, direct: bool, y: u8) -> bool
        ensures { result ≡ leads (laid self.now.layout.now) self.now.barred self.now.to.sink direct y }
    {
        let sink = self.to.sink;
        let m = self.layout.search_from(y, self.barred);
        direct && m.contains(sink.place as u32) || meet(m, sink.ways)
    }

    // Whether routes from some successor of template x lead to the sink. Every successor is tried.
    #[tactic(auto, using(crate::proofs::Steps::none_leads))]
    fn some_successor_leads(&self, direct: bool, x: u8) -> bool
        ensures { result ≡ any_in (leads (laid self.now.layout.now) self.now.barred self.now.to.sink direct) (successors (at (laid self.now.layout.now) x).form) }
    {
        if 64 <= x {
            return false;
        }
        let i = x as usize;
        let one = self.leads(direct, self.layout.first[i]);
        let other = self.leads(direct, self.layout.second[i]);
        one || other
    }
}

// Document 01's Joined (t, S, K, A), where creators is C: C barred, by way of A. No way is needed at a fork, nor from the
// source, where the root reaches it without A. The searches: the root; the root, A barred; and, C barred, A, both branches
// of every fork, every successor of the source.
#[tactic(auto, unfolding(route::specs::Search::shares_over, lists::specs::Joins::both, lists::specs::Joins::either))]
pub fn shares_tag(layout: &Layout, creators: u64, a: Assertion) -> bool
    ensures { result ≡ shares_over (laid layout.now) layout.now.forks creators a.source a.sink a.anc }
{
    let way = only(a.anc);
    let root = layout.search_from(0, 0);
    let lacking = layout.search_from(0, way);
    let search = Search::new(layout, creators, way, a);
    let at_fork = search.some_fork_crosses(Forks {
        reached: layout.forks,
        direct: lacking,
        passing: root,
    });
    let free = lacking.contains(a.source as u32);
    let down = search.some_successor_leads(free, a.source);
    at_fork || root.contains(a.source as u32) && down
}

// Document 01's Parted (t, S, K, A), where creators is C: A barred, by way of C, at the forks that are reached from A. The
// searches: the root; A; and, A barred, C if there is one and both branches of every fork.
#[tactic(auto, unfolding(route::specs::Search::splits_over, lists::specs::Joins::both))]
pub fn splits_tag(layout: &Layout, creators: u64, a: Assertion) -> bool
    ensures { result ≡ splits_over (laid layout.now) layout.now.forks creators a.source a.sink a.anc }
{
    let barred = only(a.anc);
    let root = layout.search_from(0, 0);
    let under = layout.search_from(a.anc, 0);
    let search = Search::new(layout, barred, creators, a);
    let at_fork = search.some_fork_crosses(Forks {
        reached: layout.forks,
        direct: 0,
        passing: under,
    });
    root.contains(a.anc as u32) && at_fork
}
