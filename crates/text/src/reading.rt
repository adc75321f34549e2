// How reading goes from line to line.

ghost use Rattle.std.specs.Prelude.{◌≡◌, ◌+◌, IfSome, IfErr};
ghost use Rattle.std.specs.Fn.{FnOnceReturnsAt};
ghost use Rattle.field.specs.Answers.{numbered};
ghost use Rattle.text.specs.Reading.{closed};
ghost use Rattle.text.specs.Answers.{reading_of};
ghost use Rattle.text.specs.Cursors.{standing, Started, opened, opened_of, Answered};

use crate::{LONGEST, Lines, Refused};
use field::Refusal;

impl Refused {
    // Document 01's number of the refusal.
    pub fn number(self) -> u8
        ensures { result ≡ numbered self.refusal }
    {
        u8::from(self.refusal)
    }
}

impl<'a> Lines<'a> {
    // The first line of a text that is not too long.
    pub fn new(text: &'a [u8]) -> Result<Lines<'a>, Refused>
        ensures { Started text.now result }
    {
        if LONGEST < text.len() {
            return Err(Refused {
                refusal: Refusal::TooLong,
                line: 0,
            });
        }
        Ok(Lines {
            rest: text,
            line: 1,
        })
    }

    // The number of the line here, for a refusal of the caller's own.
    pub fn line(&self) -> u32
        ensures { result ≡ self.now.line }
    {
        self.line
    }

    // The field of the line here, after its key and without byte 10, and where reading stands after it; none if the line is
    // missing, has no byte 10 or begins otherwise.
    fn open(&self, key: &[u8]) -> Option<(&'a [u8], Lines<'a>)>
        ensures opened { opened_of self.now.line result ≡ opened key.now (standing self.now) }
        ensures next_line { IfSome result (λ p. p.1.line ≡ self.now.line + 1) }
    {
        let text = self.rest;
        let end = scan::find(text, b'\n')?;
        if !scan::starts_with(&text[..end], key) {
            return None;
        }
        let next = Lines {
            rest: &text[end + 1..],
            line: self.line + 1,
        };
        Some((&text[key.len()..end], next))
    }

    // One line: its key, and its field as it is read; or why the line is refused, and reading stays where it is.
    pub fn field<T, F: FnOnce(&'a [u8]) -> Result<T, Refusal>>(
        &mut self,
        key: &[u8],
        read: F,
    ) -> Result<T, Refused>
        requires { F.IsAlwaysCallable read }
        ensures answer { Answered (FnOnceReturnsAt F.FnOnce read) (opened key.now (standing self.old)) (standing self.new) result }
        ensures stays { IfErr result (λ _. self.new ≡ self.old) }
    {
        let line = self.line;
        let Some((field, next)) = self.open(key) else {
            return Err(Refused {
                refusal: Refusal::Layout,
                line,
            });
        };
        match read(field) {
            Ok(value) => {
                *self = next;
                Ok(value)
            }
            Err(refusal) => Err(Refused { refusal, line }),
        }
    }

    // Nothing may follow the last line.
    pub fn finish(self) -> Result<(), Refused>
        ensures { reading_of result ≡ closed (standing self.entry) }
    {
        if self.rest.is_empty() {
            return Ok(());
        }
        Err(Refused {
            refusal: Refusal::Layout,
            line: self.line(),
        })
    }
}
