// The fields of the two texts that are one word, each read from the rest of its line after the key: a risk, a kind. The
// words are compared whole: a `match` on them would compare byte by byte, with a case of the proof for each byte.
#![tactic(auto)]

ghost use Rattle.std.specs.Prelude.{◌≡◌};
ghost use Rattle.field.specs.Fields.{risk, kind as kind_word};
ghost use Rattle.field.specs.Answers.{field_of};

use field::Refusal;
use plan::Kind;

// `0` or `1`.
#[tactic(auto, unfolding(field::specs::Fields::risk))]
pub fn read_risk(s: &[u8]) -> Result<bool, Refusal>
    ensures { field_of result ≡ risk s.now }
{
    if scan::same_bytes(s, b"0") {
        return Ok(false);
    }
    if scan::same_bytes(s, b"1") {
        return Ok(true);
    }
    Err(Refusal::Layout)
}

// `secrecy` or `prot`.
#[tactic(auto, unfolding(field::specs::Fields::kind))]
pub fn read_kind(s: &[u8]) -> Result<Kind, Refusal>
    ensures { field_of result ≡ kind_word s.now }
{
    if scan::same_bytes(s, b"secrecy") {
        return Ok(Kind::Secrecy);
    }
    if scan::same_bytes(s, b"prot") {
        return Ok(Kind::Prot);
    }
    Err(Refusal::Layout)
}
