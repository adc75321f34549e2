// The field of a `form=` line, read from the rest of its line after the key: a word, and one template number or two.
#![tactic(auto)]

ghost use Rattle.std.specs.Prelude.{◌≡◌, ℕ};
ghost use Rattle.plan.specs.declared.Form.{Form as FormOf};
ghost use Rattle.field.specs.Fields.{is, and_then, pair, form};
ghost use Rattle.field.specs.Answers.{field_of};

use field::Refusal;
use plan::Form;

// Two template numbers with a comma between them; the layout of both comes before their range.
#[tactic(auto, using(crate::proofs::Forms::pair_none), unfolding(field::specs::Fields::pair, field::specs::Fields::and_then))]
fn read_pair(s: &[u8], n: u8) -> Result<(u8, u8), Refusal>
    ensures { (f : ℕ → ℕ → FormOf) → and_then (field_of result) (λ p. is (f p.0 p.1)) ≡ pair n f s.now }
{
    let Some(comma) = scan::find(s, b',') else {
        return Err(Refusal::Layout);
    };
    let y = field::read_decimal(&s[..comma])?;
    let z = field::read_decimal(&s[comma + 1..])?;
    let limit = u16::from(n);
    if limit <= y || limit <= z {
        return Err(Refusal::Range);
    }
    Ok((y as u8, z as u8))
}

// One of `end`, `go:Y`, `either:Y,Z`, `both:Y,Z`, over n templates.
#[tactic(auto, using(scan::proofs::Steps::starts_stripped), unfolding(field::specs::Fields::form, field::specs::Fields::template_number, field::specs::Fields::and_then))]
pub fn read_form(s: &[u8], n: u8) -> Result<Form, Refusal>
    ensures { field_of result ≡ form n s.now }
{
    if scan::same_bytes(s, b"end") {
        return Ok(Form::End);
    }
    if let Some(rest) = s.strip_prefix(b"go:") {
        let y = field::read_number(rest, Refusal::Range, 0, n)?;
        return Ok(Form::Go(y));
    }
    if let Some(rest) = s.strip_prefix(b"either:") {
        let (y, z) = read_pair(rest, n)?;
        return Ok(Form::Either(y, z));
    }
    if let Some(rest) = s.strip_prefix(b"both:") {
        let (y, z) = read_pair(rest, n)?;
        return Ok(Form::Both(y, z));
    }
    Err(Refusal::Layout)
}
