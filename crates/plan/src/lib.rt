// A plan and a policy as they are after reading, and what stands at a place of them.
#![tactic(auto)]

ghost use Rattle.std.specs.Prelude.{◌≡◌, min, length};
ghost use Rattle.std.specs.List.{AllZip};
ghost use Rattle.plan.specs.Plan.{blank, blank_assertion, at, successors, assertion_at};
ghost use Rattle.plan.specs.Listed.{listed};

// How many masks a template has.
pub const MASKS: usize = 4;

// Document 01, `form=`: the numbers are the successors Y and Z.
#[derive(Clone, Copy)]
pub enum Form {
    End,
    Go(u8),
    Either(u8, u8),
    Both(u8, u8),
}

// The masks are over identifiers; risk: its processes may be taken over.
#[derive(Clone, Copy)]
pub struct Template {
    pub form: Form,
    pub lab: u32,
    pub pos: u32,
    pub neg: u32,
    pub creates: u32,
    pub risk: bool,
}

// Document 01's N, M and templates; the places at N and past it are blank in every plan that was read. A row and its count: no
// memory is asked for at run time.
#[derive(Clone, Copy)]
pub struct Plan {
    pub count: usize,
    pub identifiers: u32,
    pub templates: [Template; 64],
}

#[derive(Clone, Copy)]
pub enum Kind {
    Secrecy,
    Prot,
}

// source, sink and anc are template numbers, declass is a mask over templates.
#[derive(Clone, Copy)]
pub struct Assertion {
    pub kind: Kind,
    pub source: u8,
    pub sink: u8,
    pub anc: u8,
    pub declass: u64,
}

// Document 01's K and assertions; the places at K and past it are blank in every policy that was read. A row and its count, as in Plan.
#[derive(Clone, Copy)]
pub struct Policy {
    pub count: usize,
    pub assertions: [Assertion; 32],
}

// The successors of a template, the children of a step.
#[derive(Clone, Copy)]
pub enum UpToTwo<T> {
    None,
    One(T),
    Two(T, T),
}

// A count, cut at a limit: past the places of an array its count says nothing new.
pub fn capped(count: usize, limit: u8) -> u8
    ensures { result ≡ min count limit }
{
    count.min(limit as usize) as u8
}

// What stands at a place that no line of a text filled. Not derived, so that it is the definition itself.
impl Default for Template {
    ghost is_default = { λ t. t ≡ blank };

    fn default() -> Template {
        Template {
            form: Form::End,
            lab: 0,
            pos: 0,
            neg: 0,
            creates: 0,
            risk: false,
        }
    }
}

impl Default for Assertion {
    ghost is_default = { λ a. a ≡ blank_assertion };

    fn default() -> Assertion {
        Assertion {
            kind: Kind::Secrecy,
            source: 0,
            sink: 0,
            anc: 0,
            declass: 0,
        }
    }
}

// Both look-ups, of a plan and of a policy: two types, one line each.
impl Plan {
    // The template of that number, blank where the plan has no place for it.
    #[tactic(auto, unfolding(crate::specs::Plan::at))]
    pub fn template(&self, x: u8) -> Template
        ensures { result ≡ at self.now x }
    {
        self.templates.get(x as usize).copied().unwrap_or_default()
    }
}

impl Policy {
    // The assertion at that place, blank where the policy has no place for it; and that there are 32 places, which is known where
    // they are read.
    #[tactic(auto, unfolding(crate::specs::Plan::assertion_at))]
    pub fn assertion(&self, i: usize) -> Assertion
        ensures value { result ≡ assertion_at self.now i }
        ensures row { length self.now.assertions ≡ 32 }
    {
        self.assertions.get(i).copied().unwrap_or_default()
    }
}

impl Form {
    #[tactic(auto, unfolding(crate::specs::Plan::successors))]
    pub fn successors(self) -> UpToTwo<u8>
        ensures { listed result ≡ successors self }
    {
        match self {
            Form::End => UpToTwo::None,
            Form::Go(y) => UpToTwo::One(y),
            Form::Either(y, z) | Form::Both(y, z) => UpToTwo::Two(y, z),
        }
    }
}

impl<T> UpToTwo<T> {
    pub fn count(&self) -> u32
        ensures { result ≡ length (listed self.now) }
    {
        match self {
            UpToTwo::None => 0,
            UpToTwo::One(_) => 1,
            UpToTwo::Two(_, _) => 2,
        }
    }

    // What f makes of each.
    pub fn map<U, F: Fn(T) -> U>(self, f: F) -> UpToTwo<U>
        requires { F.IsAlwaysCallable f }
        ensures { AllZip (F.post f) (listed self) (listed result) }
    {
        match self {
            UpToTwo::None => UpToTwo::None,
            UpToTwo::One(x) => UpToTwo::One(f(x)),
            UpToTwo::Two(x, y) => UpToTwo::Two(f(x), f(y)),
        }
    }
}
