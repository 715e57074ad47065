// The names of a composition.
ghost use Rattle.std.specs.Prelude.{◌≡◌, ◌≤◌, ◌+◌, ◌++◌, ◌∷◌, [], ◌⊎◌, IfOk, false, length};
ghost use Rattle.std.specs.List.{IsDistinct};
ghost use Rattle.std.specs.Str.{bytes_eq};
ghost use Rattle.pa_math.specs.Answers.{IsAnswer};
ghost use Rattle.pa_meaning.specs.Composition as meaning;
ghost use Rattle.pa_meaning.specs.Composition.{is_among, is_kept as is_kept_of};
ghost use Rattle.pa_parts.specs.Composing as spec;
ghost use Rattle.pa_parts.specs.Seen.{chosen, external_more, outputs_more, outputs_of, selected};

use crate::fault::PortsFault;
use crate::names::{first_missing_name, has};
use crate::parts::Parts;
use pa_contract::Contract;
use pa_names::{MOST_PORTS, Name, Names};
use std::alloc::{AllocError, Global};
use std::marker::Model;

/// The names of a composition: the external inputs, which no part makes, in the order in which they are first met, and all
/// parts' outputs in order. An output is kept where no part takes it or where it is to be kept; the others are internal. The
/// columns of the composition are the external inputs, and then the outputs.
#[derive(Drop)]
pub struct Ports {
    pub external: Names,
    pub outputs: Names,
    pub kept: Names,
    pub internal: Names,
}

impl Model for Ports {
    ghost use Rattle.pa_parts.specs.Composing.{Ports as PortsValue};

    ghost Value = { PortsValue };

    ghost view = { λ p. record { external = p.external; outputs = p.outputs; kept = p.kept; internal = p.internal } };
}

// The names and a copy of one more, which is new. Parts have at most 4,096 inputs and outputs each, so that only memory can
// be wanting.
fn with_name(alloc: Global, mut names: Names, name: &Name) -> Result<Names, AllocError>
    requires { is_among names name.now ≡ false }
    ensures { IfOk result (λ more. more ≡ names ++ name.now ∷ []) }
{
    let Ok(name) = name.copy(alloc) else {
        return Err(AllocError);
    };
    match names.add(name) {
        Ok(_) => Ok(names),
        Err(_) => Err(AllocError),
    }
}

// The refusal of an output that an earlier part has too.
fn port_clash(alloc: Global, name: &Name) -> PortsFault
    ensures { (result ≡ PortsFault.PortClash name.now) ⊎ (result ≡ PortsFault.Memory) }
{
    match name.copy(alloc) {
        Ok(name) => PortsFault::PortClash { name },
        Err(_) => PortsFault::Memory,
    }
}

// The refusal of a kept name that is no output.
fn not_output(alloc: Global, name: &Name) -> PortsFault
    ensures { (result ≡ PortsFault.NotOutput name.now) ⊎ (result ≡ PortsFault.Memory) }
{
    match name.copy(alloc) {
        Ok(name) => PortsFault::NotOutput { name },
        Err(_) => PortsFault::Memory,
    }
}

// The outputs so far and those of one more part, or the first of these that is there already.
#[tactic(auto, using(crate::proofs::NameTurns::output_again, crate::proofs::NameTurns::output_more))]
fn with_outputs(alloc: Global, outputs: Names, part: &Contract) -> Result<Names, PortsFault>
    ensures { IsAnswer PortsFault.Memory (outputs_more outputs part.now.outputs) result }
{
    let mut all = outputs;
    for place in 0..part.outputs.len() {
        let name = part.outputs.at(place);
        if has(&all, name) {
            return Err(port_clash(alloc, name));
        }
        all = match with_name(alloc, all, name) {
            Ok(more) => more,
            Err(_) => return Err(PortsFault::Memory),
        };
    }
    Ok(all)
}

// All parts' outputs, or the first that an earlier part has too.
#[tactic(auto, using(crate::proofs::NameTurns::part_outputs, crate::proofs::NameTurns::part_refused))]
fn all_outputs(alloc: Global, parts: &Parts) -> Result<Names, PortsFault>
    ensures { IsAnswer PortsFault.Memory (outputs_of parts.now) result }
{
    let mut outputs = Names::new(alloc);
    for place in 0..parts.len() {
        outputs = match with_outputs(alloc, outputs, parts.at(place)) {
            Ok(more) => more,
            Err(fault) => return Err(fault),
        };
    }
    Ok(outputs)
}

// The external inputs so far and the new ones of one more part.
#[tactic(auto, using(crate::proofs::NameTurns::input_more, crate::proofs::NameTurns::input_passed))]
fn with_inputs(
    alloc: Global,
    external: Names,
    part: &Contract,
    outputs: &Names,
) -> Result<Names, AllocError>
    ensures { IfOk result (λ all. all ≡ external_more outputs.now external part.now.inputs) }
{
    let mut all = external;
    for place in 0..part.inputs.len() {
        let name = part.inputs.at(place);
        if !has(outputs, name) && !has(&all, name) {
            all = match with_name(alloc, all, name) {
                Ok(more) => more,
                Err(fault) => return Err(fault),
            };
        }
    }
    Ok(all)
}

// The inputs that no part makes, each where it is first met.
#[tactic(auto, using(crate::proofs::NameTurns::part_inputs))]
fn external_inputs(alloc: Global, parts: &Parts, outputs: &Names) -> Result<Names, AllocError>
    requires { outputs.now ≡ meaning.all_outputs parts.now }
    ensures { IfOk result (λ names. names ≡ meaning.external_inputs parts.now) }
{
    let mut external = Names::new(alloc);
    for place in 0..parts.len() {
        external = match with_inputs(alloc, external, parts.at(place), outputs) {
            Ok(more) => more,
            Err(fault) => return Err(fault),
        };
    }
    Ok(external)
}

// Whether the output is kept.
fn is_kept(parts: &Parts, keep: &Names, name: &Name) -> bool
    ensures { result ≡ is_kept_of parts.now keep.now name.now }
{
    !parts.take(name) || has(keep, name)
}

// Whether the output is one of those that are asked for: those that are kept, or the others.
fn is_chosen(parts: &Parts, keep: &Names, kept: bool, name: &Name) -> bool
    ensures { result ≡ chosen kept (is_kept_of parts.now keep.now name.now) }
{
    is_kept(parts, keep, name) == kept
}

// The outputs that are kept, or the others.
#[tactic(auto, using(crate::proofs::NameTurns::selected_more, crate::proofs::NameTurns::selected_passed, crate::proofs::NameTurns::selected_new))]
fn outputs_where(
    alloc: Global,
    parts: &Parts,
    keep: &Names,
    outputs: &Names,
    kept: bool,
) -> Result<Names, AllocError>
    ensures { IfOk result (λ names. names ≡ selected kept (is_kept_of parts.now keep.now) outputs.now) }
{
    let mut names = Names::new(alloc);
    for place in 0..outputs.len() {
        let name = outputs.at(place);
        if is_chosen(parts, keep, kept, name) {
            names = match with_name(alloc, names, name) {
                Ok(more) => more,
                Err(fault) => return Err(fault),
            };
        }
    }
    Ok(names)
}

// The ports by the outputs.
#[tactic(auto, using(crate::proofs::PortsDue::ports_are))]
fn ports_by(alloc: Global, parts: &Parts, keep: &Names, outputs: Names) -> Result<Ports, AllocError>
    requires { outputs ≡ meaning.all_outputs parts.now }
    ensures { IfOk result (λ ports. ports ≡ spec.composite_ports parts.now keep.now) }
{
    let external = external_inputs(alloc, parts, &outputs)?;
    let kept = outputs_where(alloc, parts, keep, &outputs, true)?;
    let internal = outputs_where(alloc, parts, keep, &outputs, false)?;
    Ok(Ports {
        external,
        outputs,
        kept,
        internal,
    })
}

/// The names of the composition of these parts, of which these outputs are to be kept (the composition of Benveniste et al.,
/// Contracts for System Design, whose internal outputs are hidden).
///
/// Refused, in this order, exactly where two parts make the same output (`PortClash`, the first that an earlier part has
/// too), where a name that is to be kept is no output (`NotOutput`, the first), and where there are more than 128 names
/// (`VariableLimit`). `Memory` comes where memory runs out. There are at most 32 parts. Where there are names, no output stands
/// twice.
#[tactic(auto, using(crate::proofs::PortsDue::outputs_there, crate::proofs::PortsDue::names_many, crate::proofs::PortsDue::names_fit))]
pub fn ports_of(alloc: Global, parts: &Parts, keep: &Names) -> Result<Ports, PortsFault>
    requires few { length parts.now ≤ 32 }
    ensures answer { IsAnswer PortsFault.Memory (spec.ports_of parts.now keep.now) result }
    ensures few { IfOk result (λ ports. length ports.external + length ports.outputs ≤ 128) }
    ensures apart { IfOk result (λ _. IsDistinct bytes_eq (meaning.all_outputs parts.now)) }
{
    let outputs = match all_outputs(alloc, parts) {
        Ok(outputs) => outputs,
        Err(fault) => return Err(fault),
    };
    if let Some(name) = first_missing_name(&outputs, keep) {
        return Err(not_output(alloc, name));
    }
    let Ok(ports) = ports_by(alloc, parts, keep, outputs) else {
        return Err(PortsFault::Memory);
    };
    let count = ports.external.len() + ports.outputs.len();
    if count > MOST_PORTS {
        return Err(PortsFault::VariableLimit { count });
    }
    Ok(ports)
}
