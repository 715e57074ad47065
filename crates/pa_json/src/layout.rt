// Versions.
ghost use Rattle.std.specs.Prelude.{◌≡◌, ◌≤◌};
ghost use Rattle.pa_names.specs.Names.{most_ports as widest};
ghost use Rattle.serde_json.specs.View.{view};
ghost use Rattle.pa_math.specs.Answers.{IsAnswer};
ghost use Rattle.pa_json.specs.Diagram as spec;

use crate::limits::{MOST_PORTS_FIRST, MOST_PORTS_SECOND};
use crate::values::{no_values, read_values};
use crate::{DiagramFault, Path};
use pa_contract::Nominal;
use pa_grammar::Constants;
use serde_json::Value;
use std::alloc::Global;
use std::marker::Model;

/// What the version of a diagram allows: its constants, and how many ports a contract has at most.
#[derive(Drop)]
pub(crate) struct Layout {
    pub(crate) constants: Constants,
    pub(crate) most_ports: u32,
}

impl Model for Layout {
    ghost use Rattle.std.specs.Prelude.{All, ◌≤◌};
    ghost use Rattle.pa_names.specs.Names.{most_ports as widest};
    ghost use Rattle.pa_row.specs.Fractions.{IsFraction};
    ghost use Rattle.pa_json.specs.Layouts.{Layout as LayoutValue};

    ghost Value = { LayoutValue };

    ghost view = { λ l. record { constants = record { names = l.constants.names; values = l.constants.values.items }; most_ports = l.most_ports } };

    ghost invariant = { λ l. All IsFraction l.constants.values.items × (l.most_ports ≤ widest) };
}

// The layout with these constants.
fn with_constants(constants: Nominal, most_ports: u32) -> Layout
    requires { most_ports ≤ widest }
    ensures { result ≡ (record { constants = constants; most_ports = most_ports }) }
{
    let Nominal { names, values } = constants;
    Layout {
        constants: Constants { names, values },
        most_ports,
    }
}

/// The layout of the member `version`, which is the whole number 1 or 2, else `Version`. Version 1 has no
/// constants and ignores such a member.
pub(crate) fn read_layout(alloc: Global, tree: &Value) -> Result<Layout, DiagramFault>
    ensures { IsAnswer DiagramFault.Memory (spec.layout_of (view tree.now)) result }
{
    match tree.get("version").and_then(Value::as_u64) {
        Some(1) => Ok(with_constants(no_values(alloc), MOST_PORTS_FIRST)),
        Some(2) => {
            let path = Path::new(alloc, "/constants")?;
            let constants = read_values(alloc, tree.get("constants"), &path)?;
            Ok(with_constants(constants, MOST_PORTS_SECOND))
        }
        _ => Err(DiagramFault::Version),
    }
}
