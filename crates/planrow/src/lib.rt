// A plan as a row of words: where they stand, and a template looked up in them.
#![tactic(auto)]

ghost use Rattle.std.specs.Prelude.{◌≡◌, length};
ghost use Rattle.lists.specs.Numbers.{tabulate};
ghost use Rattle.planrow.specs.Row.{count_in, identifiers_in, form_of, form_number, first_of, second_of, is_template};
ghost use Rattle.planrow.specs.Lookup.{word, part_at, template_meant, template_at};

use plan::{Form, Template};

// The words of the header; those of a template, which are its form, two successors, its masks and its risk; and all.
pub const HEADER: usize = 2;

pub const WIDTH: usize = 3 + plan::MASKS + 1;

pub const WORDS: usize = HEADER + WIDTH * 64;

// A form's number and its two successors' words, 0 for one that it lacks, as the C interface lends a plan's row.
#[derive(Clone, Copy)]
pub struct FormWords(pub u32, pub u8, pub u8);

impl From<Form> for FormWords {
    #[tactic(auto, unfolding(crate::specs::Row::form_number, crate::specs::Row::first_of, crate::specs::Row::second_of))]
    fn from(form: Form) -> FormWords
        ensures { (result.0 ≡ form_number form) × (result.1 ≡ first_of form) × (result.2 ≡ second_of form) }
    {
        match form {
            Form::End => FormWords(0, 0, 0),
            Form::Go(y) => FormWords(1, y, 0),
            Form::Either(y, z) => FormWords(2, y, z),
            Form::Both(y, z) => FormWords(3, y, z),
        }
    }
}

// A successor that the form lacks is not looked at.
impl From<FormWords> for Form {
    #[tactic(auto, using(crate::proofs::Reading::form_end, crate::proofs::Reading::form_go, crate::proofs::Reading::form_either, crate::proofs::Reading::form_both))]
    fn from(words: FormWords) -> Form
        ensures { result ≡ form_of words.0 words.1 words.2 }
    {
        let FormWords(number, y, z) = words;
        match number {
            0 => Form::End,
            1 => Form::Go(y),
            2 => Form::Either(y, z),
            _ => Form::Both(y, z),
        }
    }
}

// N
#[tactic(auto, unfolding(crate::specs::Row::count_in))]
pub fn template_count(row: &[u32; WORDS]) -> u32
    ensures { result ≡ count_in row.now }
{
    row[0]
}

// M
#[tactic(auto, unfolding(crate::specs::Row::identifiers_in))]
pub fn identifier_count(row: &[u32; WORDS]) -> u32
    ensures { result ≡ identifiers_in row.now }
{
    row[1]
}

// The words of each template.
#[tactic(auto, using(crate::proofs::Parts::parts_cut))]
pub fn templates(row: &[u32; WORDS]) -> &[[u32; WIDTH]]
    ensures parts { result.now ≡ tabulate 64 (part_at row.now) }
    ensures len { length result.now ≡ 64 }
{
    row[HEADER..].as_chunks().0
}

// Whether a template's words stand for one. The tests are joined without a branch: every call makes them of each template.
#[tactic(auto, using(crate::proofs::Reading::tested))]
pub fn is_template(words: &[u32; WIDTH]) -> bool
    ensures { result ≡ is_template (word words.now) }
{
    let [form, first, second, .., risk] = *words;
    (form <= 3) & (first <= 255) & (second <= 255) & (risk <= 1)
}

// The template that its words stand for, if they stand for one. A function: TryFrom may not be written here for two types of others.
#[tactic(auto, using(crate::proofs::Reading::first_byte, crate::proofs::Reading::second_byte, crate::proofs::Reading::template_told))]
fn template_in(words: &[u32; WIDTH]) -> Option<Template>
    ensures { result ≡ template_meant (word words.now) }
{
    if !is_template(words) {
        return None;
    }
    let [form, first, second, lab, pos, neg, creates, risk] = *words;
    Some(Template {
        form: Form::from(FormWords(form, first as u8, second as u8)),
        lab,
        pos,
        neg,
        creates,
        risk: risk == 1,
    })
}

// The template whose words stand at x, and the blank one where they are none.
pub fn template_at(row: &[u32; WORDS], x: u32) -> Template
    ensures { result ≡ template_at row.now x }
{
    templates(row)
        .get(x as usize)
        .and_then(template_in)
        .unwrap_or_default()
}
