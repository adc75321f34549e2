// What stored cases say of a verdict, on one line.
#![tactic(auto)]

ghost use Rattle.std.specs.Prelude.{Some};
ghost use Rattle.brief.specs.Briefs.{name_of, brief_of};

use rules::{Text, Verdict};
use std::fmt;
use std::fmt::{Formatter, Write};

// The name of a text.
#[derive(Clone, Copy)]
pub struct Name(pub Text);

impl fmt::Display for Name {
    ghost output = { λ name. Some (name_of name.0) };

    fn fmt<W: Write>(&self, f: &mut Formatter<W>) -> fmt::Result {
        match self.0 {
            Text::Plan => write!(f, "plan"),
            Text::Policy => write!(f, "policy"),
        }
    }
}

// A verdict on one line.
#[derive(Clone, Copy)]
pub struct Brief(pub Verdict);

impl fmt::Display for Brief {
    ghost output = { λ brief. Some (brief_of brief.0) };

    fn fmt<W: Write>(&self, f: &mut Formatter<W>) -> fmt::Result {
        match self.0 {
            Verdict::Accepted => write!(f, "accepted"),
            Verdict::Broken(b) => write!(
                f,
                "broken {} {} {} {}",
                b.rule, b.first, b.second, b.identifier
            ),
            Verdict::Unread(u) => write!(f, "unread {} {} {}", Name(u.text), u.number, u.line),
        }
    }
}
