// Bytes of a lent text: looking for one, comparing some, lending some on.
#![tactic(auto)]

ghost use Rattle.std.specs.Prelude.{◌≡◌, ◌-◌, ◌<◌, min, length, take, drop, unwrap_or, IfSome};
ghost use Rattle.scan.specs.Bytes.{before, starts_with, same, further};

// Where the first b stands in s.
pub fn find(s: &[u8], b: u8) -> Option<usize>
    ensures place { unwrap_or result (length s.now) ≡ before b s.now }
    ensures inside { IfSome result (λ k. k < length s.now) }
{
    s.iter().position(|x| *x == b)
}

// Whether s begins with the bytes of the key.
#[tactic(auto, using(crate::proofs::Steps::starts_pointwise))]
pub fn starts_with(s: &[u8], key: &[u8]) -> bool
    ensures { result ≡ starts_with key.now s.now }
{
    s.starts_with(key)
}

// Whether s and t are the same, byte for byte. From the end on, where numbered names differ first: `s == t` takes up to
// three times as long on those.
pub fn same_bytes(s: &[u8], t: &[u8]) -> bool
    ensures { result ≡ same s.now t.now }
{
    s.len() == t.len() && s.iter().rev().zip(t.iter().rev()).all(|(x, y)| x == y)
}

// The bytes from start to end, those of them that the text has. An empty part, too, lies at its start, or at the text's end
// where the start is past it.
pub fn part(text: &[u8], start: usize, end: usize) -> &[u8]
    ensures result_value { result.now ≡ take (end - start) (drop start text.now) }
    ensures place { result.ref_ptr ≡ further (min start (length text.now)) text.entry.ref_ptr }
{
    let from = start.min(text.len());
    let to = end.min(text.len()).max(from);
    &text[from..to]
}
