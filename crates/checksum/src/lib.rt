// One number for all that was read, so that a stored case can tell of every value.
#![tactic(auto)]

use plan::{Assertion, Form, Kind, Plan, Policy, Template};

// One value more in the sum over all that was read.
fn mix(sum: u64, value: u64) -> u64 {
    (sum % 1000003 * 31 + value % 1000003) % 1000003
}

// The values one after the other.
fn mix_all(sum: u64, values: &[u64]) -> u64 {
    values.iter().fold(sum, |sum, value| mix(sum, *value))
}

fn mix_form(sum: u64, form: Form) -> u64 {
    match form {
        Form::End => mix_all(sum, &[0]),
        Form::Go(y) => mix_all(sum, &[1, y.into()]),
        Form::Either(y, z) => mix_all(sum, &[2, y.into(), z.into()]),
        Form::Both(y, z) => mix_all(sum, &[3, y.into(), z.into()]),
    }
}

fn mix_template(sum: u64, t: Template) -> u64 {
    let values = [
        t.lab.into(),
        t.pos.into(),
        t.neg.into(),
        t.creates.into(),
        t.risk.into(),
    ];
    mix_all(mix_form(sum, t.form), &values)
}

fn mix_assertion(sum: u64, a: Assertion) -> u64 {
    let kind = match a.kind {
        Kind::Secrecy => 0,
        Kind::Prot => 1,
    };
    let values = [
        kind,
        a.source.into(),
        a.sink.into(),
        a.anc.into(),
        a.declass,
    ];
    mix_all(sum, &values)
}

// Of a plan, and of a policy: two types, one line each.
pub fn mix_plan(sum: u64, plan: Plan) -> u64 {
    (0..64).fold(sum, |sum, x| mix_template(sum, plan.template(x)))
}

pub fn mix_policy(sum: u64, policy: Policy) -> u64 {
    (0..32).fold(sum, |sum, i| mix_assertion(sum, policy.assertion(i)))
}
