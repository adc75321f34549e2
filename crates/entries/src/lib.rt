// The seven lines of a template: its name, which no template before it has, its form, its masks, whether it is at risk.
#![tactic(auto)]

ghost use Rattle.std.specs.Prelude.{◌≡◌, IfErr};
ghost use Rattle.std.specs.List.{list_any};
ghost use Rattle.scan.specs.Bytes.{same};
ghost use Rattle.field.specs.Fields.{name as name_field};
ghost use Rattle.text.specs.Reading.{entry};
ghost use Rattle.text.specs.Cursors.{standing, seen, Gives};
ghost use Rattle.entries.specs.Entry.{latest, entry_of};

use field::Refusal;
use plan::Template;
use text::{Lines, Refused};

// Whether the name stood earlier.
fn has_stood(name: &[u8], names: &[&[u8]]) -> bool
    ensures { result ≡ list_any (λ n. same name.now n.now) names.now }
{
    names.iter().any(|stood| scan::same_bytes(name, stood))
}

// A name: its layout first, then the names that stood.
fn read_name<'a>(s: &'a [u8], names: &[&[u8]]) -> Result<&'a [u8], Refusal>
    ensures { seen (λ n. n.now) result ≡ name_field (latest names.now) s.entry.now }
{
    if !field::is_name(s) {
        return Err(Refusal::Layout);
    }
    if has_stood(s, names) {
        return Err(Refusal::Stood);
    }
    Ok(s)
}

// The lines of a template of a plan with n templates and m identifiers, after those whose names stood; or why one is refused, and
// reading stays before the first of them.
pub fn read_entry<'a>(
    lines: &mut Lines<'a>,
    n: u8,
    m: u8,
    names: &[&'a [u8]],
) -> Result<(&'a [u8], Template), Refused>
    ensures answer { Gives entry_of (entry n m (latest names.now) (standing lines.old)) (standing lines.new) result }
    ensures stays { IfErr result (λ _. lines.new ≡ lines.old) }
{
    let mut at = *lines;
    let name = at.field(b"name=", |s| read_name(s, names))?;
    let form = at.field(b"form=", |s| forms::read_form(s, n))?;
    let lab = at.field(b"lab=", |s| field::read_identifiers(s, m))?;
    let pos = at.field(b"pos=", |s| field::read_identifiers(s, m))?;
    let neg = at.field(b"neg=", |s| field::read_identifiers(s, m))?;
    let creates = at.field(b"creates=", |s| field::read_identifiers(s, m))?;
    let risk = at.field(b"risk=", keywords::read_risk)?;
    let template = Template {
        form,
        lab,
        pos,
        neg,
        creates,
        risk,
    };
    *lines = at;
    Ok((name, template))
}
