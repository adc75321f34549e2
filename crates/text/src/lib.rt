// Reading one of the two texts line by line, with no copy of it: where reading stands, and the refusal of a line.
#![tactic(auto)]

ghost use Rattle.std.specs.Prelude.{◌+◌, ◌≤◌, length};

mod reading;

use field::Refusal;

// Each text has at most 16,384 bytes (document 01, The two texts).
pub const LONGEST: usize = 16384;

// How many lines stand before the first template, in each template, before the first assertion, in each assertion.
pub const PLAN_HEADER: usize = 2;

pub const TEMPLATE_LINES: usize = 7;

pub const POLICY_HEADER: usize = 1;

pub const ASSERTION_LINES: usize = 5;

// Why a text is refused, and on which of its lines; 0 where it is too long (document 01, Reading).
#[derive(Clone, Copy, PartialEq, Eq)]
pub struct Refused {
    pub refusal: Refusal,
    pub line: u32,
}

// Where reading stands: the rest of the text, and the number of its first line.
#[derive(Clone, Copy)]
pub struct Lines<'a> {
    rest: &'a [u8],
    line: u32,
    ghost room: { line + length rest.now ≤ 16385 },
}
