// Numbers written into a lent list of bytes, digit by digit.
#![tactic(auto)]

ghost use Rattle.std.specs.Prelude.{◌≡◌, ◌≤◌, ◌<◌, ◌+◌, ◌^◌, length};
ghost use Rattle.std.proofs.lemmas.List.Edits.{sets};
ghost use Rattle.numerals.specs.Numerals.{spell, decimal_width, decimal_of};
ghost use Rattle.numerals.specs.Places.{fitting};

// How many decimal digits n has.
fn decimal_width(n: u32) -> usize
    ensures { result ≡ decimal_width n }
{
    n.checked_ilog10().map_or(1, |log| log as usize + 1)
}

// Writes so many decimal digits of n, the highest first.
#[tactic(auto, using(crate::proofs::Digits::power_pos, crate::proofs::Digits::digit_small))]
fn write_digits(out: &mut [u8], at: usize, width: usize, n: u32)
    requires { (width ≤ 10) × (at + width ≤ length out.old) × (n < 10 ^ width) }
    ensures { out.new ≡ sets out.old at (spell 10 width n) }
{
    let mut rest = n;
    for i in 0..width {
        let p = 10u32.pow((width - 1 - i) as u32);
        out[at + i] = b'0' + (rest / p) as u8;
        rest %= p;
    }
}

// Writes n in decimal from a place on and answers the place after it; where it does not fit, nothing is written.
pub fn write_decimal(out: &mut [u8], at: usize, n: u32) -> usize
    ensures { (out.new ≡ sets out.old at (fitting out.old at (decimal_of n))) × (result ≡ at + length (fitting out.old at (decimal_of n))) }
{
    let width = decimal_width(n);
    if !ranges::is_within(out.len(), at, width) {
        return at;
    }
    write_digits(out, at, width, n);
    at + width
}
