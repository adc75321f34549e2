// The judge's answers: their types, a verdict of what a check of rules answers, and which rules are those of an edge.
#![tactic(auto)]

ghost use Rattle.std.specs.Prelude.{◌≡◌};
ghost use Rattle.rules.specs.Judge.{or_else, is_edge_rule, text_number, numbers_of};
ghost use Rattle.rules.specs.Broken.{accepted, answered};
ghost use Rattle.rules.specs.Words.{part_words};

// Which of the two texts.
#[derive(Clone, Copy, PartialEq, Eq)]
pub enum Text {
    Plan,
    Policy,
}

// A text that was not read: document 01's text, number and line, a number as it is printed and exported.
#[derive(Clone, Copy, PartialEq, Eq)]
pub struct Fault {
    pub text: Text,
    pub number: u8,
    pub line: u32,
}

// The first broken rule, with document 01's first, second and identifier: its own numbers, 255 too, as they are printed and exported.
#[derive(Clone, Copy, PartialEq, Eq)]
pub struct Breach {
    pub rule: u8,
    pub first: u8,
    pub second: u8,
    pub identifier: u8,
}

// Document 01's three, of which the believed definitions speak; in the code a check of rules answers a Result.
#[derive(Clone, Copy, PartialEq, Eq)]
pub enum Verdict {
    Accepted,
    Broken(Breach),
    Unread(Fault),
}

// Accepted, where no rule is broken.
impl From<Result<(), Breach>> for Verdict {
    ghost from_gives = { λ r v. v ≡ answered r };

    fn from(r: Result<(), Breach>) -> Verdict {
        match r {
            Ok(()) => Verdict::Accepted,
            Err(breach) => Verdict::Broken(breach),
        }
    }
}

// The bytes from start to end of one of the texts.
#[derive(Clone, Copy, PartialEq, Eq)]
pub struct Part {
    pub text: Text,
    pub start: usize,
    pub end: usize,
}

// What is answered as words, for a caller in another language (include/monitor.h): the number of a text,
impl From<Text> for u32 {
    ghost from_gives = { λ text number. number ≡ text_number text };

    #[tactic(auto, unfolding(crate::specs::Judge::text_number))]
    fn from(text: Text) -> u32 {
        match text {
            Text::Plan => 0,
            Text::Policy => 1,
        }
    }
}

// a verdict,
impl From<Verdict> for [u32; 5] {
    ghost from_gives = { λ v words. words ≡ numbers_of v };

    #[tactic(auto, unfolding(crate::specs::Judge::numbers_of))]
    fn from(verdict: Verdict) -> [u32; 5] {
        match verdict {
            Verdict::Accepted => [0; 5],
            Verdict::Broken(b) => [
                1,
                b.rule.into(),
                b.first.into(),
                b.second.into(),
                b.identifier.into(),
            ],
            Verdict::Unread(f) => [2, f.text.into(), f.number.into(), f.line, 0],
        }
    }
}

// and where a shown part lies.
impl From<Part> for [usize; 3] {
    ghost from_gives = { λ part words. words ≡ part_words part };

    #[tactic(auto, unfolding(crate::specs::Words::part_words))]
    fn from(part: Part) -> [usize; 3] {
        [u32::from(part.text) as usize, part.start, part.end]
    }
}

#[tactic(auto, unfolding(crate::specs::Broken::accepted))]
pub fn is_accepted(v: Verdict) -> bool
    ensures { result ≡ accepted v }
{
    matches!(v, Verdict::Accepted)
}

// The first of two that is not accepted: of verdicts what `?` is of results.
#[tactic(auto, unfolding(crate::specs::Judge::or_else))]
pub fn or_else(v: Verdict, later: Verdict) -> Verdict
    ensures { result ≡ or_else v later }
{
    match v {
        Verdict::Accepted => later,
        _ => v,
    }
}

// Whether a rule is one of those that are asked on an edge.
pub fn is_edge_rule(rule: u8) -> bool
    ensures { result ≡ is_edge_rule rule }
{
    matches!(rule, 12..=16)
}
