// Names with their values.
ghost use Rattle.std.specs.Prelude.{◌≡◌, pos, IfOk, IfSome, All, option_map};
ghost use Rattle.serde_json.specs.View.{view, members_view};
ghost use Rattle.pa_math.specs.Answers.{IsAnswer, seen_as};
ghost use Rattle.pa_row.specs.Fractions.{IsFraction};
ghost use Rattle.pa_json.specs.Members.{collected};
ghost use Rattle.pa_json.specs.Values as spec;

use crate::member::name_of;
use crate::{DiagramFault, Path};
use pa_contract::Nominal;
use pa_grammar::{MOST_TEXT, TermFault, read_value};
use pa_names::{Name, Names};
use serde_json::{Map, Value};
use std::alloc::{AllocError, Global};

// The fraction that a text is.
fn text_value(alloc: Global, text: &str) -> Result<Option<(i128, i128)>, AllocError>
    ensures value { IfOk result (λ found. found ≡ spec.text_value text.now) }
    ensures within { IfOk result (λ found. IfSome found IsFraction) }
{
    if text.len() > MOST_TEXT {
        return Ok(None);
    }
    match read_value(alloc, text.as_bytes()) {
        Ok(value) => Ok(Some(value)),
        Err(TermFault::Memory) => Err(AllocError),
        Err(_) => Ok(None),
    }
}

// A whole number as a fraction.
#[tactic(auto, using(pa_math::proofs::ReducedForms::reduced_whole))]
fn whole(number: i64) -> (i128, i128)
    ensures value { result ≡ (number, pos 1) }
    ensures within { IsFraction result }
{
    (number as i128, 1)
}

// The fraction that a value is.
fn fraction_of(alloc: Global, value: &Value) -> Result<Option<(i128, i128)>, AllocError>
    ensures value { IfOk result (λ found. found ≡ spec.fraction_of (view value.now)) }
    ensures within { IfOk result (λ found. IfSome found IsFraction) }
{
    if let Some(text) = value.as_str() {
        return text_value(alloc, text);
    }
    match value.as_i64() {
        Some(number) => Ok(Some(whole(number))),
        None => Ok(None),
    }
}

// The name and the fraction of a member.
fn named_fraction(
    alloc: Global,
    key: &str,
    value: &Value,
) -> Result<Option<(Name, (i128, i128))>, AllocError>
    ensures value { IfOk result (λ found. found ≡ spec.named_fraction key.now (view value.now)) }
    ensures within { IfOk result (λ found. IfSome found (λ pair. IsFraction pair.1)) }
{
    let Some(name) = name_of(alloc, key)? else {
        return Ok(None);
    };
    match fraction_of(alloc, value)? {
        Some(fraction) => Ok(Some((name, fraction))),
        None => Ok(None),
    }
}

// The names and the fractions of the members, where each has them.
fn fractions_of(
    alloc: Global,
    members: &Map<String, Value>,
) -> Result<Option<Vec<(Name, (i128, i128))>>, AllocError>
    ensures value { IfOk result (λ found. option_map (λ pairs. pairs.items) found ≡ collected spec.named_fraction (members_view members.now.entries)) }
    ensures within { IfOk result (λ found. IfSome found (λ pairs. All (λ pair. IsFraction pair.1) pairs.items)) }
{
    let mut pairs = Vec::new(alloc);
    for (key, value) in members.iter() {
        match named_fraction(alloc, key.as_str(), value) {
            Ok(Some(pair)) => pairs.push(pair)?,
            Ok(None) => return Ok(None),
            Err(fault) => return Err(fault),
        }
    }
    Ok(Some(pairs))
}

// The names and their values. No two names are equal, since an object has each key once, and they are few.
#[tactic(auto, using(crate::proofs::Steps::pushed_more, crate::proofs::Steps::mapped_end))]
fn values_from(alloc: Global, pairs: Vec<(Name, (i128, i128))>) -> Result<Nominal, AllocError>
    requires { All (λ pair. IsFraction pair.1) pairs.items }
    ensures { IfOk result (λ nominal. nominal ≡ spec.values_from pairs.items) }
{
    let mut names = Names::new(alloc);
    let mut values = Vec::with_capacity(alloc, pairs.len())?;
    for (name, value) in pairs {
        match names.add(name) {
            Ok(_) => values.push(value)?,
            Err(_) => return Err(AllocError),
        }
    }
    Ok(Nominal { names, values })
}

// No names.
pub(crate) fn no_values(alloc: Global) -> Nominal
    ensures { result ≡ spec.no_values }
{
    Nominal {
        names: Names::new(alloc),
        values: Vec::new(alloc),
    }
}

// The fractions of an object's members.
fn object_fractions(
    alloc: Global,
    value: &Value,
    path: &Path,
) -> Result<Vec<(Name, (i128, i128))>, DiagramFault>
    ensures value { IsAnswer DiagramFault.Memory (spec.pairs_of path.now (view value.now)) (seen_as (λ pairs. pairs.items) result) }
    ensures within { IfOk result (λ pairs. All (λ pair. IsFraction pair.1) pairs.items) }
{
    let found = match value.as_object() {
        Some(members) => fractions_of(alloc, members)?,
        None => None,
    };
    match found {
        Some(pairs) => Ok(pairs),
        None => Err(DiagramFault::Shape {
            path: path.copy(alloc)?,
        }),
    }
}

/// The names and values of a member at the path, in the byte order of the names; none where there is no
/// member. `Shape` where it is no object or a key is no name or has no value, then `Limit` where there are
/// more than 4,096 keys.
pub(crate) fn read_values(
    alloc: Global,
    found: Option<&Value>,
    path: &Path,
) -> Result<Nominal, DiagramFault>
    ensures { IsAnswer DiagramFault.Memory (spec.values_of path.now (option_map (λ v. view v.now) found.entry)) result }
{
    let Some(value) = found else {
        return Ok(no_values(alloc));
    };
    let pairs = object_fractions(alloc, value, path)?;
    if pairs.len() > Names::MOST as usize {
        return Err(DiagramFault::Limit {
            path: path.copy(alloc)?,
        });
    }
    Ok(values_from(alloc, pairs)?)
}
