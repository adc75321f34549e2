// Lays a plan out for searching, once a judgement, to be lent from then on; and finds in what is lent who creates an identifier.
#![tactic(auto)]

ghost use Rattle.std.specs.Prelude.{◌≡◌, ℕ, ◌<◌, Bool};
ghost use Rattle.route.specs.Search.{collect};
ghost use Rattle.layout.specs.Layout.{first_of, second_of, is_fork, made_by, all_forks, layout_of};

use mask::Mask;
use plan::{Form, Plan, UpToTwo};
use route::Layout;

// A successor that a template lacks: no place of a plan, so no search enters it. Not an Option: a search asks of each
// successor whether it is a place, since a plan may name any byte.
const NOWHERE: u8 = 64;

// The first successor and the second one.
#[tactic(auto, unfolding(plan::specs::Plan::successors))]
fn successors(form: Form) -> (u8, u8)
    ensures { result ≡ (first_of form, second_of form) }
{
    match form.successors() {
        UpToTwo::None => (NOWHERE, NOWHERE),
        UpToTwo::One(y) => (y, NOWHERE),
        UpToTwo::Two(y, z) => (y, z),
    }
}

fn is_fork(form: Form) -> bool
    ensures { result ≡ is_fork form }
{
    matches!(form, Form::Both(..))
}

// The templates that pass a test.
fn collect<F: Fn(u8) -> bool>(test: F) -> u64
    requires { (x : ℕ) → x < 64 → F.pre test x }
    ensures { (p : ℕ → Bool) → ((x : ℕ) (b : Bool) → x < 64 → F.post test x b → b ≡ p x) → result ≡ collect 64 p }
{
    let mut found: u64 = 0;
    for x in 0..64u8 {
        found = route::include(found, x, test(x));
    }
    found
}

// What stands in each template; as forks, all that are a `both`. By index, as three rows are written: of what is written through a zip
// no proof knows anything afterwards.
fn lay_templates(plan: &Plan) -> Layout
    ensures { result ≡ all_forks plan.now }
{
    let mut first = [NOWHERE; 64];
    let mut second = [NOWHERE; 64];
    let mut creates = [0u32; 64];
    for (i, template) in plan.templates.iter().enumerate() {
        (first[i], second[i]) = successors(template.form);
        creates[i] = template.creates;
    }
    Layout {
        first,
        second,
        creates,
        forks: collect(|x| is_fork(plan.templates[x as usize].form)),
    }
}

// The layout of a plan. A fork is reached from the root: one search.
pub fn lay_out(plan: &Plan) -> Layout
    ensures { result ≡ layout_of plan.now }
{
    let laid = lay_templates(plan);
    let root = laid.search_from(0, 0);
    Layout {
        forks: root & laid.forks,
        ..laid
    }
}

// The templates that create identifier t, by the masks of what each creates.
pub fn creators(layout: &Layout, t: u32) -> u64
    ensures { result ≡ collect 64 (made_by layout.now.creates t) }
{
    collect(|x| layout.creates[x as usize].contains(t))
}
