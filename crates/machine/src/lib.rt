// The monitor's state and its answers. The functions on a state stand in the crates above.
#![tactic(auto)]

ghost use Rattle.std.specs.Prelude.{◌≡◌};
ghost use Rattle.machine.specs.State.{code_of};

use plan::Plan;
use rules::Verdict;

// The plan, the next serial and the live processes at the first `live` places; the places past them carry no meaning.
// Tag i of the process at place p stands at p * M + i, M being the plan's number of identifiers. The arrays and their count stand
// apart, as the C interface lends them.
#[derive(Clone, Copy)]
pub struct State {
    pub plan: Plan,
    pub next: u32,
    pub live: u32,
    pub serials: [u32; 128],
    pub templates: [u32; 128],
    pub labels: [u32; 128],
    pub tags: [u32; 4096],
}

// Done: a step, a raise or a lower that was accepted. Held means lost. A refusal is document 01's number here, of which the believed
// definitions speak; in the code it is a `population::Refusal`.
#[derive(Clone, Copy)]
pub enum Answer {
    Done,
    Delivered,
    Held,
    Refused(u8),
}

// 0 done, 1 delivered, 2 held, and a refusal's own number.
impl From<Answer> for u8 {
    ghost from_gives = { λ answer code. code ≡ code_of answer };

    #[tactic(auto, unfolding(crate::specs::State::code_of))]
    fn from(answer: Answer) -> u8 {
        match answer {
            Answer::Done => 0,
            Answer::Delivered => 1,
            Answer::Held => 2,
            Answer::Refused(number) => number,
        }
    }
}

// What an operation hands back. The state comes first: it then lies as the caller's own does, and is copied less often.
#[derive(Clone, Copy)]
pub struct Answered {
    pub state: State,
    pub answer: Answer,
}

// What start hands back: the judge's verdict, and the state, blank where the verdict is not accepted.
#[derive(Clone, Copy)]
pub struct Started {
    pub verdict: Verdict,
    pub state: State,
}
