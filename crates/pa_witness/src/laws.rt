// What the certificates show: laws of the definitions, each a clause of an empty function.
ghost use Rattle.pa_witness.specs.Basics.{CirclesStay, LeftTermsAreEnough, NoWeightsWhereStuck, PointsAreBehaviours, ProvedRowsAreMet};
ghost use Rattle.pa_witness.specs.Basics.{RowsKeepTheirMeaning, StuckGuaranteesAreBroken, StuckRowsAreBroken};
ghost use Rattle.pa_witness.specs.Laws.{ColumnsAreExact, ProjectionIsExact, StepIsExact, ThinningIsExact};
ghost use Rattle.pa_witness.specs.Laws.{DischargedPartsAreMet, DischargesAreInTime, LeftTermsAreExactAtNominal};

/// A list without rows that a parallel row stands in for, and without rows that weights over the rest and
/// a context prove (Farkas 1902), is met by the same points as the given one, where the context is met.
pub fn thinning_exact()
    ensures { ThinningIsExact }
{}

/// A point meets the rows of one step of an elimination, in either version, exactly where some value of the
/// column that goes meets the given rows (Fourier 1827, Motzkin 1936).
pub fn step_exact()
    ensures { StepIsExact }
{}

/// The same of several columns that go one after another, each list thinned.
pub fn columns_exact()
    ensures { ColumnsAreExact }
{}

/// The same by names: a behaviour meets the rows that are left exactly where some behaviour that agrees with
/// it at the names that are left meets the given rows.
pub fn projection_exact()
    ensures { ProjectionIsExact }
{}

/// A row over wider names, 0 at a name that it lacks, says of a behaviour what it says over its own names.
pub fn rows_keep_their_meaning()
    ensures { RowsKeepTheirMeaning }
{}

/// A point over different names, read as a behaviour that is 0 at all others, is that point over them. So what
/// some behaviour does can be shown by a printed point.
pub fn points_are_behaviours()
    ensures { PointsAreBehaviours }
{}

/// What weights that are not negative prove over rows holds at each point that meets the rows: the easy half
/// of Farkas' lemma (Farkas 1902).
pub fn proved_rows_are_met()
    ensures { ProvedRowsAreMet }
{}

/// A point that meets the rows, and what weights over them leave of a term, meets the term.
pub fn left_terms_are_enough()
    ensures { LeftTermsAreEnough }
{}

/// Where a direction lets no row of a list rise and lets a term rise, no weights over the rows make the term.
pub fn no_weights_where_stuck()
    ensures { NoWeightsWhereStuck }
{}

/// An assumption of a part that a direction sticks over all parts' guarantees is beyond any composite: from each
/// behaviour that meets all guarantees one reaches, with the same external inputs, one that does so too and
/// breaks it.
pub fn stuck_rows_are_broken()
    ensures { StuckRowsAreBroken }
{}

/// A guarantee of a whole that a direction over the part's outputs sticks over the part's guarantees is beyond
/// any quotient, in the same sense.
pub fn stuck_guarantees_are_broken()
    ensures { StuckGuaranteesAreBroken }
{}

/// No part of a circle is discharged in any round.
pub fn circles_stay()
    ensures { CirclesStay }
{}

/// Parts whose assumptions are discharged round by round, each over the guarantees of the parts of smaller rounds: a
/// behaviour that meets what is left of the assumptions, and keeps every part, meets all assumptions and guarantees.
pub fn discharged_parts_are_met()
    ensures { DischargedPartsAreMet }
{}

/// A part whose discharge holds is discharged in the round that it names, or before.
pub fn discharges_are_in_time()
    ensures { DischargesAreInTime }
{}

/// Where an extension of the nominal behaviour meets the weighted rows exactly, the nominal behaviour meets what is
/// left of a term exactly where each of its extensions that meet the rows meets the term.
pub fn left_terms_are_exact_at_nominal()
    ensures { LeftTermsAreExactAtNominal }
{}
