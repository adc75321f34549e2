// Reading the plan, line by line, with no copy of the text (document 01, "The two texts" and "Reading").
#![tactic(auto)]

ghost use Rattle.std.specs.Prelude.{◌≡◌, ◌≤◌};
ghost use Rattle.text.specs.Reading.{read_plan};
ghost use Rattle.text.specs.Answers.{plan_read};
ghost use Rattle.text.specs.Cursors.{standing, Gives};
ghost use Rattle.reader.specs.Rows.{template_row};

use field::Refusal;
use plan::{Plan, Template};
use text::{Lines, Refused};

// The lines of all n templates of a plan with m identifiers. By index, since each name is compared with those before it.
fn read_entries(lines: &mut Lines, n: u8, m: u8) -> Result<[Template; 64], Refused>
    requires { n ≤ 64 }
    ensures { Gives (λ row. row) (template_row n m (standing lines.old)) (standing lines.new) result }
{
    let mut templates = [Template::default(); 64];
    let mut names: [&[u8]; 64] = [b""; 64];
    for i in 0..n as usize {
        let (name, template) = entries::read_entry(lines, n, m, &names[..i])?;
        names[i] = name;
        templates[i] = template;
    }
    Ok(templates)
}

// The plan text: its counts, then its templates; or why it is refused, and on which line.
pub fn read_plan(text: &[u8]) -> Result<Plan, Refused>
    ensures { plan_read result ≡ read_plan text.now }
{
    let mut lines = Lines::new(text)?;
    let n = lines.field(
        b"templates=",
        |s| field::read_number(s, Refusal::Range, 1, 65),
    )?;
    let m = lines.field(
        b"identifiers=",
        |s| field::read_number(s, Refusal::Range, 0, 33),
    )?;
    let templates = read_entries(&mut lines, n, m)?;
    lines.finish()?;
    Ok(Plan {
        count: n as usize,
        identifiers: m as u32,
        templates,
    })
}
