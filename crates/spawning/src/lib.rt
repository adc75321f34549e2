// The arrays when a process goes and its children come: the places above it move down, its children come after all others.
// What is public takes any numbers; what the arrays then mean is said where there is room.
// The lent arrays are parameters of their own: crate population says why.
#![tactic(auto)]

ghost use Rattle.std.specs.Prelude.{◌≡◌, ◌<◌, ◌≤◌, length};
ghost use Rattle.lists.specs.Numbers.{tabulate};
ghost use Rattle.plan.specs.Listed.{listed};
ghost use Rattle.machine.specs.State.{placed, processes_of};
ghost use Rattle.population.specs.Arrays.{cells};
ghost use Rattle.spawning.specs.Spawning.{skipping, Entered, Room, Advanced};

use plan::UpToTwo;
use population::Child;

// The process at place k goes: those above it, up to the last, move down. That m is at most 32 is a premise here and below of what the
// arrays mean, and no type: for more identifiers a place has no room, and each function does something all the same.
fn leave(
    m: u32,
    k: u32,
    last: u32,
    serials: &mut [u32; 128],
    templates: &mut [u32; 128],
    labels: &mut [u32; 128],
    tags: &mut [u32; 4096],
)
    ensures { let c = cells serials.old templates.old labels.old tags.old in
        let d = cells serials.new templates.new labels.new tags.new in
        (k ≤ last → last < 128 → m ≤ 32 → processes_of m last d ≡ tabulate last (skipping k (placed m c))) }
{
    let place = k as usize;
    let end = last as usize;
    blocks::shift(serials, place, end, 1);
    blocks::shift(templates, place, end, 1);
    blocks::shift(labels, place, end, 1);
    let from = tagrows::row_start(k, m);
    let to = tagrows::row_start(last, m);
    blocks::shift(tags, from, to, m as usize);
}

// A child comes to the place after the others; row holds its parent's tags.
fn enter(
    m: u32,
    at: u32,
    serial: u32,
    child: Child,
    row: [u32; 32],
    serials: &mut [u32; 128],
    templates: &mut [u32; 128],
    labels: &mut [u32; 128],
    tags: &mut [u32; 4096],
)
    ensures { let c = cells serials.old templates.old labels.old tags.old in
        let d = cells serials.new templates.new labels.new tags.new in
        Entered m at row serial child c d }
{
    let place = at as usize;
    arrays::put(serials, place, serial);
    arrays::put(templates, place, child.number);
    arrays::put(labels, place, child.template.lab);
    let from = tagrows::row_start(at, m);
    tagrows::write_row(tags, from, row, child.template.creates, serial);
}

// Document 01, Step: "Else the process goes". Its children come, the first with the lower serial; their parent's tags are
// copied before it goes.
pub fn advance(
    m: u32,
    next: u32,
    k: u32,
    last: u32,
    children: UpToTwo<Child>,
    serials: &mut [u32; 128],
    templates: &mut [u32; 128],
    labels: &mut [u32; 128],
    tags: &mut [u32; 4096],
)
    ensures { let c = cells serials.old templates.old labels.old tags.old in
        let d = cells serials.new templates.new labels.new tags.new in
        (Room m next k last (length (listed children)) → Advanced m next k last c (listed children) d) }
{
    let from = tagrows::row_start(k, m);
    let row = tagrows::copy_row(tags, from);
    leave(m, k, last, serials, templates, labels, tags);
    match children {
        UpToTwo::None => {}
        UpToTwo::One(y) => enter(m, last, next, y, row, serials, templates, labels, tags),
        UpToTwo::Two(y, z) => {
            enter(m, last, next, y, row, serials, templates, labels, tags);
            // Where there is room for a second child, neither sum wraps.
            let at = last.wrapping_add(1);
            let serial = next.wrapping_add(1);
            enter(m, at, serial, z, row, serials, templates, labels, tags);
        }
    }
}
