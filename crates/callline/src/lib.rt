// One line of the text of calls: `step S B`, `send F T`, `raise S I` or `lower S I`, decimal numbers up to 4,294,967,295 without
// leading zeros, one space apart.
#![tactic(auto)]

ghost use Rattle.callline.specs.Lines.{ReadsNumber, ReadsCall};

use dispatch::Call;
use std::str;

// A number in decimal; std's parse would take a sign and leading zeros.
fn read_number(s: &str) -> Option<u32>
    ensures { ReadsNumber s.now result }
{
    if s.starts_with('+') || 1 < s.len() && s.starts_with('0') {
        return None;
    }
    s.parse().ok()
}

// A line without its byte 10.
pub fn read_line(s: &[u8]) -> Option<Call>
    ensures { ReadsCall s.now result }
{
    let line = str::from_utf8(s).ok()?;
    let (word, numbers) = line.split_once(' ')?;
    let (first, second) = numbers.split_once(' ')?;
    let x = read_number(first)?;
    let y = read_number(second)?;
    match word {
        "step" => Some(Call::Step {
            serial: x,
            branch: y,
        }),
        "send" => Some(Call::Send { from: x, to: y }),
        "raise" => Some(Call::Raise {
            serial: x,
            identifier: y,
        }),
        "lower" => Some(Call::Lower {
            serial: x,
            identifier: y,
        }),
        _ => None,
    }
}
