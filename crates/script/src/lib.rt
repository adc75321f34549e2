// The text of calls: a line for each (crate callline), ended by byte 10. A call becomes three words: its kind and its two numbers,
// since the exported replay takes its calls so.
#![tactic(auto)]

ghost use Rattle.std.specs.Prelude.{◌≤◌, length};

use dispatch::Call;

// The longest text of calls.
const LONGEST: usize = 65536;

// Room for the words of the longest text of calls.
pub const WORD_ROOM: usize = 24576;

// Room for a text of calls: more than it may have bytes, so that a text that is too long is seen to be.
pub const CALLS_ROOM: usize = 131072;

// The words of the calls, and the line after them where that is no call.
#[derive(Clone, Copy)]
pub struct Script<'a> {
    pub words: &'a [u32],
    pub fault: Option<u64>,
}

// The call of a line that byte 10 ends.
fn read_ended(line: &[u8]) -> Option<Call> {
    callline::read_line(line.strip_suffix(b"\n")?)
}

// The calls of a text, and their words in the buffer; a call that there is no room for is a fault too. How many words there are so
// far is counted by hand: the answer is cut by it, after a line that is no call too.
fn read_lines<'a>(text: &[u8], words: &'a mut [u32]) -> Script<'a>
    ensures { length result.words.now ≤ length words.old }
{
    let mut count = 0;
    for (i, line) in text.split_inclusive(|b| *b == b'\n').enumerate() {
        let (Some(call), Some(row)) = (read_ended(line), words[count..].first_chunk_mut()) else {
            return Script {
                words: &words[..count],
                fault: Some(i as u64 + 1),
            };
        };
        *row = call.into();
        count += 3;
    }
    Script {
        words: &words[..count],
        fault: None,
    }
}

// The calls of a text, and their words in the buffer; a text that is too long is one fault, at line 0.
pub fn read_calls<'a>(text: &[u8], words: &'a mut [u32]) -> Script<'a>
    ensures { length result.words.now ≤ length words.old }
{
    if LONGEST < text.len() {
        return Script {
            words: &[],
            fault: Some(0),
        };
    }
    read_lines(text, words)
}
