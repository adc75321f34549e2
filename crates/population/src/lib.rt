// What the calls on lent arrays share: the counts beside the arrays, and the test of refusal 20.
#![tactic(auto)]

ghost use Rattle.std.specs.Prelude.{◌≡◌};
ghost use Rattle.planrow.specs.Lookup.{plan_for};
ghost use Rattle.machine.specs.Machine.{box_limits, well_formed};
ghost use Rattle.population.specs.Arrays.{cells, parts_fit};
ghost use Rattle.population.specs.Lent.{counted, as_place, machine_at};
ghost use Rattle.population.specs.Refusals.{number_of, refused, Found};

use machine::Answer;
use plan::Template;
use planrow::WORDS;

// Why a call is refused: document 01's numbers 20 to 29, in this order.
#[derive(Clone, Copy)]
pub enum Refusal {
    BadState,
    NotLive,
    NoBranch,
    NoRoom,
    NoSerial,
    BadLabel,
    ToItself,
    NoIdentifier,
    NotAtRisk,
    NotAllowed,
}

impl From<Refusal> for u8 {
    ghost from_gives = { λ refusal number. number ≡ number_of refusal };

    fn from(refusal: Refusal) -> u8 {
        match refusal {
            Refusal::BadState => 20,
            Refusal::NotLive => 21,
            Refusal::NoBranch => 22,
            Refusal::NoRoom => 23,
            Refusal::NoSerial => 24,
            Refusal::BadLabel => 25,
            Refusal::ToItself => 26,
            Refusal::NoIdentifier => 27,
            Refusal::NotAtRisk => 28,
            Refusal::NotAllowed => 29,
        }
    }
}

impl From<Refusal> for Answer {
    ghost from_gives = { λ refusal answer. answer ≡ refused refusal };

    fn from(refusal: Refusal) -> Answer {
        Answer::Refused(u8::from(refusal))
    }
}

// The place of the process of that serial. Document 01, 21: "that serial is not live".
pub fn find(serials: &[u32; 128], live: u32, serial: u32) -> Result<usize, Refusal>
    ensures { Found serials.now live serial result }
{
    serials
        .get(..live as usize)
        .and_then(|alive| arrays::place_of(alive, serial))
        .ok_or(Refusal::NotLive)
}

// A child's template, by its number too.
#[derive(Clone, Copy)]
pub struct Child {
    pub number: u32,
    pub template: Template,
}

// What a call changes beside the arrays: the next serial, and how many live.
#[derive(Clone, Copy)]
pub struct Counts {
    pub next: u32,
    pub live: u32,
}

// The C interface lends them as one place.
impl From<[u32; 2]> for Counts {
    ghost from_gives = { λ place counts. counts ≡ counted place };

    fn from(place: [u32; 2]) -> Counts {
        let [next, live] = place;
        Counts { next, live }
    }
}

impl From<Counts> for [u32; 2] {
    ghost from_gives = { λ counts place. place ≡ as_place counts };

    fn from(counts: Counts) -> [u32; 2] {
        [counts.next, counts.live]
    }
}

// The processes' part of refusal 20, of parts of any length: N templates, M identifiers.
// Here and in the crates above the four arrays are parameters of their own: the C interface lends them apart, copied they are 18 KB
// a call, and a struct of four `&mut` would owe in each contract that its fields still hold the same references.
pub fn are_fitting(
    count: u32,
    m: u32,
    counts: Counts,
    serials: &[u32],
    templates: &[u32],
    labels: &[u32],
    tags: &[u32],
) -> bool
    ensures { let c = cells serials.now templates.now labels.now tags.now in
        result ≡ parts_fit count m counts.next counts.live c }
{
    let Counts { next, live } = counts;
    let n = live as usize;
    let top = mask::full_mask(m);
    let used = tagrows::row_start(live, m);
    let (Some(serials), Some(templates), Some(labels), Some(tags)) = (
        serials.get(..n),
        templates.get(..n),
        labels.get(..n),
        tags.get(..used),
    ) else {
        return false;
    };
    ranges::is_rising(serials)
        & ranges::all_below(serials, next)
        & ranges::all_below(templates, count)
        & ranges::none_above(labels, top)
        & ranges::all_below(tags, next)
}

// Whether what these stand for is no bad state: refusal 20, on the whole of it.
pub fn is_well_formed(
    row: &[u32; WORDS],
    counts: Counts,
    serials: &[u32; 128],
    templates: &[u32; 128],
    labels: &[u32; 128],
    tags: &[u32; 4096],
) -> bool
    ensures { let c = cells serials.now templates.now labels.now tags.now in
        result ≡ well_formed box_limits (machine_at (plan_for row.now) counts c) }
{
    if !planfit::is_fitting(row) {
        return false;
    }
    let count = planrow::template_count(row);
    let m = planrow::identifier_count(row);
    are_fitting(count, m, counts, serials, templates, labels, tags)
}
