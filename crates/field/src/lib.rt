// The fields of the two texts that are numbers, masks and names, each read from the rest of its line after the key: its value,
// or why it is refused.
#![tactic(auto)]

ghost use Rattle.std.specs.Prelude.{◌≡◌, ℕ, ◌≤◌, ◌^◌, length, ltb, unwrap_or};
ghost use Rattle.lists.specs.Numbers.{all};
ghost use Rattle.field.specs.Fields.{digit as digit_of, digits, decimal, number, mask as mask_of, name_byte, misplaced, declass as declass_of};
ghost use Rattle.field.specs.Answers.{numbered, field_of, ranged_of, is_name};

use mask::Mask;
use plan::Kind;

// Why a text is refused: document 01's numbers 1 to 6, in this order. The last five are those of a line.
#[derive(Clone, Copy, PartialEq, Eq)]
pub enum Refusal {
    // The text is too long.
    TooLong,
    // Not of its line's layout.
    Layout,
    // A count or template number out of range.
    Range,
    // A mask that names an identifier or template that the plan lacks.
    Beyond,
    // A name that stood earlier.
    Stood,
    // A declass that its kind forbids.
    Misplaced,
}

impl From<Refusal> for u8 {
    ghost from_gives = { λ refusal number. number ≡ numbered refusal };

    fn from(refusal: Refusal) -> u8 {
        match refusal {
            Refusal::TooLong => 1,
            Refusal::Layout => 2,
            Refusal::Range => 3,
            Refusal::Beyond => 4,
            Refusal::Stood => 5,
            Refusal::Misplaced => 6,
        }
    }
}

// The value of a digit, 0-9 and a-f. Inlined, since a mask would else take a quarter longer to read.
#[inline(always)]
#[tactic(auto, unfolding(crate::specs::Fields::digit))]
fn digit(b: u8) -> Option<u64>
    ensures { unwrap_or result 16 ≡ digit_of b }
{
    match b {
        b'0'..=b'9' => Some(u64::from(b - b'0')),
        b'a'..=b'f' => Some(u64::from(b - b'a' + 10)),
        _ => None,
    }
}

// The number that at most sixteen digits write in a base of at most 16; std's `from_str_radix` takes capitals and a sign.
#[tactic(auto, using(crate::proofs::Numbers::reading))]
fn read_digits(s: &[u8], base: u64) -> Result<u64, Refusal>
    requires { (length s.now ≤ 16) × (base ≤ 16) }
    ensures { field_of result ≡ digits base 0 s.now }
{
    let mut value: u64 = 0;
    for b in s {
        match digit(*b) {
            Some(d) if d < base => value = value * base + d,
            _ => return Err(Refusal::Layout),
        }
    }
    Ok(value)
}

// Decimal, 1 to 4 digits, no leading zero except in `0`.
#[tactic(auto, using(crate::proofs::Numbers::decimal_fits), unfolding(crate::specs::Fields::decimal))]
pub fn read_decimal(s: &[u8]) -> Result<u16, Refusal>
    ensures { field_of result ≡ decimal s.now }
{
    if s.is_empty() || 4 < s.len() {
        return Err(Refusal::Layout);
    }
    if s.len() != 1 && s[0] == b'0' {
        return Err(Refusal::Layout);
    }
    let value = read_digits(s, 10)?;
    Ok(value as u16)
}

// A number from low on and below the limit, and None out of range: with which number that is refused the caller says.
#[tactic(auto, unfolding(crate::specs::Fields::number, crate::specs::Fields::and_then))]
pub fn read_in_range(s: &[u8], low: u8, limit: u8) -> Result<Option<u8>, Refusal>
    ensures { (refusal : ℕ) → ranged_of refusal result ≡ number refusal low limit s.now }
{
    let value = read_decimal(s)?;
    if value < u16::from(low) || u16::from(limit) <= value {
        return Ok(None);
    }
    Ok(Some(value as u8))
}

// The same, refused as told out of range.
pub fn read_number(s: &[u8], refusal: Refusal, low: u8, limit: u8) -> Result<u8, Refusal>
    ensures { field_of result ≡ number (numbered refusal) low limit s.now }
{
    read_in_range(s, low, limit)?.ok_or(refusal)
}

// Whether each item of a mask is below the limit.
#[tactic(auto, using(crate::proofs::Numbers::below_all, crate::proofs::Numbers::below_shift))]
fn is_below(m: u64, items: u8) -> bool
    ensures { result ≡ ltb m (2 ^ items) }
{
    64 <= items || m >> items == 0
}

// A mask of so many digits, at most sixteen, over so many items.
#[tactic(auto, unfolding(crate::specs::Fields::mask, crate::specs::Fields::and_then))]
fn read_mask(s: &[u8], width: usize, items: u8) -> Result<u64, Refusal>
    requires { width ≤ 16 }
    ensures { field_of result ≡ mask_of width items s.now }
{
    if s.len() != width {
        return Err(Refusal::Layout);
    }
    let m = read_digits(s, 16)?;
    if is_below(m, items) {
        Ok(m)
    } else {
        Err(Refusal::Beyond)
    }
}

// A mask over so many identifiers, of eight digits.
#[tactic(auto, using(crate::proofs::Numbers::mask_fits))]
pub fn read_identifiers(s: &[u8], items: u8) -> Result<u32, Refusal>
    ensures { field_of result ≡ mask_of 8 items s.now }
{
    let m = read_mask(s, 8, items)?;
    Ok(m as u32)
}

// a-z, 0-9.
#[tactic(auto, unfolding(crate::specs::Fields::name_byte))]
fn is_name_byte(b: u8) -> bool
    ensures { result ≡ name_byte b }
{
    b.is_ascii_lowercase() || b.is_ascii_digit()
}

// 1 to 16 of a-z, 0-9.
pub fn is_name(s: &[u8]) -> bool
    ensures { result ≡ is_name s.now }
{
    !s.is_empty() && s.len() <= 16 && s.iter().all(|b| is_name_byte(*b))
}

// A secrecy's declass holds its own source or sink, or a prot's declass is not zero.
#[tactic(auto, unfolding(crate::specs::Fields::misplaced))]
fn is_misplaced(kind: Kind, source: u8, sink: u8, declass: u64) -> bool
    ensures { result ≡ misplaced kind source sink declass }
{
    match kind {
        Kind::Secrecy => declass.contains(u32::from(source)) | declass.contains(u32::from(sink)),
        Kind::Prot => declass != 0,
    }
}

// A mask over n templates, of sixteen digits, that the assertion's kind allows.
#[tactic(auto, unfolding(crate::specs::Fields::declass, crate::specs::Fields::and_then))]
pub fn read_declass(s: &[u8], n: u8, kind: Kind, source: u8, sink: u8) -> Result<u64, Refusal>
    ensures { field_of result ≡ declass_of n kind source sink s.now }
{
    let m = read_mask(s, 16, n)?;
    if is_misplaced(kind, source, sink, m) {
        return Err(Refusal::Misplaced);
    }
    Ok(m)
}
