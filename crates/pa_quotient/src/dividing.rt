// The quotient of a contract by a part.
ghost use Rattle.std.specs.Prelude.{◌≡◌, ◌≤◌, ◌+◌, Err, IfErr, IfOk, None, length};
ghost use Rattle.pa_math.specs.Answers.{IsAnswer};
ghost use Rattle.pa_tableau.specs.Work.{HasRoom};
ghost use Rattle.pa_bland.specs.Seen.{KeepsRoom};
ghost use Rattle.pa_contract.specs.Merge.{row_count};
ghost use Rattle.pa_contract.specs.WellFormed.{IsWellFormed};
ghost use Rattle.pa_contract.specs.Nominal.{IsNominal};
ghost use Rattle.pa_meaning.specs.Quotient.{IsQuotient, quotient_names, quotient_ports};
ghost use Rattle.pa_holds.specs.Divided.{HoldsAsDivided};
ghost use Rattle.pa_holds.specs.Refusals.{due_quotient, first_shared};
ghost use Rattle.pa_row.specs.declared.place.Place.{Place};
ghost use Rattle.pa_quotient.specs.Dividing as spec;
ghost use Rattle.pa_quotient.specs.Limited.{DividesByFewBases};
ghost use Rattle.pa_quotient.specs.Meant.{AreExactAtNominal, IsTrueRefusal};
ghost use Rattle.pa_quotient.specs.Seen.{AreLeft, AreNamesOf, CanDivide};

use crate::QuotientFault;
use crate::fault::halted;
use crate::marks::marks_of;
use crate::names::{QuotientNames, first_shared_name, name_count, names_of, port_clash};
use crate::over::{assumptions_over, guarantees_over};
use pa_cert::{Divided, Drops, Marks, Proofs};
use pa_contract::{Contract, MOST_ROWS, Nominal};
use pa_farkas::{Thinned, thin_in};
use pa_frac::Wide126;
use pa_names::MOST_PORTS;
use pa_row::{Group, Limits, Point, Row, Weights, copy_rows};
use pa_shift::Premises;
use pa_tableau::Work;
use pa_trial::{Lefts, Trial, Turn, nominal_point, show_nominal, tried};
use std::alloc::{AllocError, Global};

// Shows a proof that the contract is well formed, as its type says. Nothing is computed.
fn show_well_formed(contract: &Contract)
    ensures { IsWellFormed contract.now }
{
    let _inputs = &contract.inputs;
}

// The part's guarantees over all names, as what the whole's are shifted over, and the nominal values of the quotient's ports.
fn premises_of(
    alloc: Global,
    whole: &Contract,
    part: &Contract,
    names: &QuotientNames,
    nominal: Point,
) -> Result<Premises, AllocError>
    requires names { AreNamesOf whole.now part.now names.now }
    requires nominal { length nominal.p ≤ length (quotient_names whole.now part.now) }
    ensures { IfOk result (λ given. given ≡ spec.premises_of whole.now part.now nominal) }
{
    let rows = guarantees_over(alloc, part, names, whole, part)?;
    Premises::new(alloc, nominal).with_rows(alloc, 0, rows)
}

// What weights over the part's guarantees leave of the whole's over the quotient's ports.
fn lefts_over(
    alloc: Global,
    work: &mut Work<Wide126>,
    whole: &Contract,
    part: &Contract,
    names: &QuotientNames,
    nominal: Point,
    most: u32,
) -> Result<Lefts, QuotientFault>
    requires can { CanDivide whole.now part.now names.now }
    requires nominal { length nominal.p ≡ length (quotient_ports whole.now part.now) }
    requires room { HasRoom (length (quotient_names whole.now part.now)) (row_count whole.now + row_count part.now) work.old }
    requires most { most ≤ 4096 }
    ensures room { KeepsRoom work.old work.new }
    ensures answer { IsAnswer QuotientFault.Memory (spec.lefts_over whole.now part.now most nominal) result }
{
    let Ok(given) = premises_of(alloc, whole, part, names, nominal) else {
        return Err(QuotientFault::Memory);
    };
    let Ok(terms) = guarantees_over(alloc, whole, names, whole, part) else {
        return Err(QuotientFault::Memory);
    };
    let columns = name_count(whole, part, names);
    let turn = Turn::InRound { round: 0 };
    match tried(alloc, work, &given, most, turn, 0, &terms, columns) {
        Ok(Trial::Through { lefts }) => Ok(lefts),
        Ok(Trial::Stopped { row, direction }) => {
            Err(QuotientFault::NoMultipliers { row, direction })
        }
        Err(halt) => Err(halted(halt)),
    }
}

// The same at the nominal values of the quotient's ports.
fn lefts_of(
    alloc: Global,
    work: &mut Work<Wide126>,
    whole: &Contract,
    part: &Contract,
    names: &QuotientNames,
    nominal: &Nominal,
    most: u32,
) -> Result<Lefts, QuotientFault>
    requires can { CanDivide whole.now part.now names.now }
    requires nominal { IsNominal nominal.now }
    requires room { HasRoom (length (quotient_names whole.now part.now)) (row_count whole.now + row_count part.now) work.old }
    requires most { most ≤ 4096 }
    ensures room { KeepsRoom work.old work.new }
    ensures answer { IsAnswer QuotientFault.Memory (spec.lefts_of whole.now part.now nominal.now most) result }
{
    match nominal_point(alloc, nominal, &names.ports) {
        Ok(point) => lefts_over(alloc, work, whole, part, names, point, most),
        Err(halt) => Err(halted(halt)),
    }
}

// The part's assumptions, and then what is left of the whole's guarantees, over the quotient's ports.
fn asked_of(
    alloc: Global,
    whole: &Contract,
    part: &Contract,
    names: &QuotientNames,
    mut left: Vec<Row>,
) -> Result<Vec<Row>, AllocError>
    requires { AreNamesOf whole.now part.now names.now }
    ensures { IfOk result (λ rows. rows.items ≡ spec.asked_with whole.now part.now left.items) }
{
    let mut rows = assumptions_over(alloc, part, names, whole, part)?;
    rows.append(&mut left)?;
    Ok(rows)
}

// These rows without those that the others and the whole's assumptions imply.
fn thinned_of(
    alloc: Global,
    work: &mut Work<Wide126>,
    whole: &Contract,
    part: &Contract,
    names: &QuotientNames,
    left: Vec<Row>,
    most: u32,
) -> Result<Thinned, QuotientFault>
    requires can { CanDivide whole.now part.now names.now }
    requires left { AreLeft whole.now part.now left.items }
    requires room { HasRoom (length (quotient_names whole.now part.now)) (row_count whole.now + row_count part.now) work.old }
    requires most { most ≤ 4096 }
    ensures { IsAnswer QuotientFault.Memory (spec.thinned_with whole.now part.now most left.items) result }
{
    let Ok(rows) = asked_of(alloc, whole, part, names, left) else {
        return Err(QuotientFault::Memory);
    };
    let Ok(context) = assumptions_over(alloc, whole, names, whole, part) else {
        return Err(QuotientFault::Memory);
    };
    let columns = names.ports.len();
    match thin_in(alloc, work, &rows, &context, columns, most, Group::Thin) {
        Ok(thinned) => Ok(thinned),
        Err(halt) => Err(halted(halt)),
    }
}

// The quotient with these guarantees.
fn contract_with(
    alloc: Global,
    whole: &Contract,
    names: QuotientNames,
    guarantees: Vec<Row>,
) -> Result<Contract, AllocError>
    requires { IsWellFormed (spec.contract_with whole.now names.outputs guarantees.items) }
    ensures { IfOk result (λ c. c ≡ spec.contract_with whole.now names.outputs guarantees.items) }
{
    let Ok(inputs) = whole.inputs.copy() else {
        return Err(AllocError);
    };
    let Ok(assumptions) = copy_rows(alloc, &whole.assumptions) else {
        return Err(AllocError);
    };
    Ok(Contract {
        inputs,
        outputs: names.outputs,
        assumptions,
        guarantees,
    })
}

// The answer by what was found.
fn answered(
    alloc: Global,
    whole: &Contract,
    names: QuotientNames,
    weights: Vec<Weights>,
    thinned: Thinned,
) -> Result<Divided, AllocError>
    requires { IsWellFormed (spec.contract_with whole.now names.outputs thinned.rows) }
    ensures { IfOk result (λ answer. answer ≡ spec.answer_with whole.now names.outputs weights.items thinned) }
{
    let Thinned { rows, drops } = thinned;
    let contract = contract_with(alloc, whole, names, rows)?;
    let marks = marks_of(alloc, &contract)?;
    Ok(Divided {
        contract,
        narrow: Marks { marks },
        shifts: Proofs { weights },
        thin: Drops { drops },
    })
}

// The quotient of two contracts that have these names, and whose rows are few.
fn divided(
    alloc: Global,
    whole: &Contract,
    part: &Contract,
    names: QuotientNames,
    nominal: &Nominal,
    most: u32,
) -> Result<Divided, QuotientFault>
    requires can { CanDivide whole.now part.now names }
    requires nominal { IsNominal nominal.now }
    requires most { most ≤ 4096 }
    ensures { IsAnswer QuotientFault.Memory (spec.divided_with whole.now part.now nominal.now most) result }
{
    let columns = name_count(whole, part, &names);
    let count = whole.row_count() + part.row_count();
    let Ok(mut work) = Work::new(alloc, columns, count) else {
        return Err(QuotientFault::Memory);
    };
    let lefts = lefts_of(alloc, &mut work, whole, part, &names, nominal, most)?;
    let Lefts { rows, weights } = lefts;
    let thinned = thinned_of(alloc, &mut work, whole, part, &names, rows, most)?;
    match answered(alloc, whole, names, weights, thinned) {
        Ok(answer) => Ok(answer),
        Err(_) => Err(QuotientFault::Memory),
    }
}

// The quotient or its refusal, where no output of the part is an input of the whole.
fn quotient_apart(
    alloc: Global,
    whole: &Contract,
    part: &Contract,
    nominal: &Nominal,
    most: u32,
) -> Result<Divided, QuotientFault>
    requires apart { first_shared whole.now.inputs part.now.outputs ≡ None }
    requires whole_formed { IsWellFormed whole.now }
    requires part_formed { IsWellFormed part.now }
    requires nominal { IsNominal nominal.now }
    requires most { most ≤ 4096 }
    ensures { IsAnswer QuotientFault.Memory (spec.divided_of whole.now part.now nominal.now most) result }
{
    let Ok(names) = names_of(whole, part) else {
        return Err(QuotientFault::Memory);
    };
    let count = name_count(whole, part, &names);
    if count > MOST_PORTS {
        return Err(QuotientFault::VariableLimit { count });
    }
    let count = whole.row_count() + part.row_count();
    if count > MOST_ROWS {
        return Err(QuotientFault::Load { count });
    }
    divided(alloc, whole, part, names, nominal, most)
}

// The quotient or its refusal, without what is true of it.
fn quotient_of(
    alloc: Global,
    whole: &Contract,
    part: &Contract,
    nominal: &Nominal,
    most: u32,
) -> Result<Divided, QuotientFault>
    requires whole_formed { IsWellFormed whole.now }
    requires part_formed { IsWellFormed part.now }
    requires nominal { IsNominal nominal.now }
    requires most { most ≤ 4096 }
    ensures { IsAnswer QuotientFault.Memory (spec.divided_of whole.now part.now nominal.now most) result }
{
    if let Some(name) = first_shared_name(&whole.inputs, &part.outputs) {
        return Err(port_clash(alloc, name));
    }
    quotient_apart(alloc, whole, part, nominal, most)
}

/// The quotient of the whole by a part (Benveniste et al., Contracts for System Design): what the other parts have to do so that
/// the whole keeps its contract. A behaviour that meets the whole's assumptions and keeps the part and the quotient meets the
/// part's assumptions and the whole's guarantees.
///
/// The quotient has the inputs and the assumptions of the whole. Its outputs are the outputs of the whole that the part does not
/// make, and then the part's inputs that are no ports yet; the part's outputs go. Each guarantee of the whole is brought to these
/// ports by weights over the part's guarantees ([`pa_shift::shift_in`]; Farkas 1902), those of the least cost at the nominal
/// values of the quotient's ports, at which nothing is asked in vain; a port without a nominal value has 0. The guarantees are
/// the part's assumptions and then what is left, without what the others and the whole's assumptions imply. One that has 0 in
/// every output column is marked: it narrows the inputs, since no output can bring it about. The answer has the weights of each
/// guarantee of the whole and the drops: they show the quotient by sums alone.
///
/// Refused, in this order, exactly where an output of the part is an input of the whole (`PortClash`, the first such output),
/// where the quotient's ports and the part's outputs are more than 128 names (`VariableLimit`), and where the two contracts have
/// more than 4,096 rows together (`Load`). Then, as they come: `Wide` at the nominal point; `PivotLimit` and `Wide` at the
/// shifts, row by row, and `NoMultipliers` exactly where no weights over the part's guarantees bring a guarantee of the whole to
/// the quotient's ports, with the first one and a direction over the part's outputs that shows it; then `PivotLimit` and `Wide`
/// at the thinning. Of the limits that of pivots alone is asked for. `Memory` comes where memory runs out.
///
/// `PivotLimit` never comes where no problem has more bases than the limit: neither one of the part's guarantees with a column
/// for each of its outputs, nor one of the part's assumptions and all rows of the whole over the quotient's ports.
pub fn quotient(
    alloc: Global,
    whole: &Contract,
    part: &Contract,
    nominal: &Nominal,
    limits: Limits,
) -> Result<Divided, QuotientFault>
    ensures answer { IsAnswer QuotientFault.Memory (spec.divided_of whole.now part.now nominal.now limits.pivots) result }
    ensures truth { IfOk result (λ answer. IsQuotient whole.now part.now answer.contract answer.narrow) }
    ensures printed { IfOk result (HoldsAsDivided whole.now part.now) }
    ensures nominal { IfOk result (λ answer. AreExactAtNominal whole.now part.now nominal.now answer.shifts) }
    ensures refusals { IfErr result (IsTrueRefusal whole.now part.now) }
    ensures refused { IfOk result (λ _. due_quotient whole.now part.now ≡ None) }
    ensures unlimited { DividesByFewBases whole.now part.now limits.pivots
        → (place : Place) → result ≡ Err (QuotientFault.PivotLimit place) → ⊥ }
{
    show_well_formed(whole);
    show_well_formed(part);
    show_nominal(nominal);
    quotient_of(alloc, whole, part, nominal, limits.pivots)
}
