// Places of lent arrays: where a serial stands, and a store. None reads or stores past an end.
#![tactic(auto)]

ghost use Rattle.std.specs.Prelude.{◌≡◌, true, ◌≤◌, ◌<◌, length, set, IfSome};
ghost use Rattle.ranges.specs.Ranges.{rises};
ghost use Rattle.arrays.specs.Places.{Split, Located, place_or};

// Stores at a place; past the end nothing. After a write through `get_mut` of a slice a proof knows no element.
pub fn put(xs: &mut [u32], at: usize, v: u32)
    ensures { xs.new ≡ set xs.old at v }
{
    if at < xs.len() {
        xs[at] = v;
    }
}

// How many of some rising numbers are below the serial. Counting all of them on vectors takes less time than a search by halves,
// whose branches cannot be foretold. The library's `count` takes half as long again, as its sum has 64 bits; rising numbers of 32 bits
// are too few for one of 32 to wrap.
fn count_below(xs: &[u32], serial: u32) -> u32
    ensures few { result ≤ length xs.now }
    ensures split { rises xs.now ≡ true → Split xs.now (length xs.now) serial result }
{
    let mut below: u32 = 0;
    for x in xs {
        below = below.wrapping_add((*x < serial) as u32);
    }
    below
}

// The place of a serial among rising numbers.
pub fn place_of(xs: &[u32], serial: u32) -> Option<usize>
    ensures place { Located xs.now serial (place_or (length xs.now) result) }
    ensures found { IfSome result (λ k. k < length xs.now) }
{
    let low = count_below(xs, serial) as usize;
    match xs.get(low) {
        Some(x) if *x == serial => Some(low),
        _ => None,
    }
}
