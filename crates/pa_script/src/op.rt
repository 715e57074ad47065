// What the lines of a script ask for.

use pa_grammar::Linear;
use pa_names::{Name, Names};
use pa_row::Point;
use std::marker::Model;

/// Names in order; one may stand more than once.
#[derive(Drop)]
pub struct Mentions {
    pub names: Vec<Name>,
}

impl Model for Mentions {
    ghost use Rattle.std.specs.Prelude.{List, ℕ};

    ghost Value = { List (List ℕ) };

    ghost view = { λ m. m.names.items };
}

/// What a script line asks for.
#[derive(Drop)]
pub enum Op {
    /// `limit rows N`: how many rows a step of an elimination may have, for later lines.
    LimitRows {
        most: u32,
    },
    /// `limit pivots N`: how many pivots a problem may take, for later lines.
    LimitPivots {
        most: u32,
    },
    /// `merge R = A B`: the contract of both views.
    Merge {
        result: Name,
        left: Name,
        right: Name,
    },
    /// `test C at x=V ..`: whether a point keeps a contract. Each name has one fraction of the point.
    Test {
        of: Name,
        names: Names,
        at: Point,
    },
    /// `refine A B`: whether the first contract refines the second.
    Refine {
        left: Name,
        right: Name,
    },
    /// `bound C max E`, `bound C min E`: the greatest or the least value of an expression.
    Bound {
        of: Name,
        least: bool,
        goal: Linear,
    },
    /// `hide R = C x ..`: a contract without some of its outputs.
    Hide {
        result: Name,
        of: Name,
        names: Names,
    },
    /// `compose R = A .. keep x ..`: the contract of 1 to 32 parts together.
    Compose {
        result: Name,
        parts: Mentions,
        keep: Names,
    },
    /// `quotient R = C D`: the contract of what is missing beside a part.
    Quotient {
        result: Name,
        whole: Name,
        part: Name,
    },
}

/// A line of a script, with its number in the text. Lines are counted from 1.
#[derive(Drop)]
pub struct ScriptLine {
    pub number: u32,
    pub op: Op,
}

/// The lines of a script that are not skipped, in order. Each is well formed: its number is at least 1, a
/// limit is from 1 to 4,096, a point has one number for each of its names, a hiding has a name and a
/// composition 1 to 32 parts.
#[derive(Drop)]
pub struct Script {
    pub lines: Vec<ScriptLine>,
}

impl Model for Script {
    ghost use Rattle.std.specs.Prelude.{List, All};
    ghost use Rattle.pa_script.specs.Ops.{IsWellFormedLine};
    ghost use Rattle.pa_script.specs.declared.op.ScriptLine.{ScriptLine as LineValue};

    ghost Value = { List LineValue };

    ghost view = { λ s. s.lines.items };

    ghost invariant = { λ s. All IsWellFormedLine s.lines.items };
}
