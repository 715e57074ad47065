// What holds as printed is true: laws of the definitions, each a clause of an empty function.
ghost use Rattle.pa_holds.specs.Laws.{LineIsTrue, PrintedIsTrue, PrintedIsWellFormed, ReportIsTrue};

/// An answer to a question about contracts that holds as it is printed is true: its numbers, names and sums
/// alone show it, whoever made them. In no contract, goal and point of the question a name stands twice, and
/// a goal and a point have a number for each name, over a positive denominator.
pub fn printed_is_true()
    ensures { PrintedIsTrue }
{}

/// The same of an answer to a script line that is well formed, over the table of contracts that the line finds.
pub fn line_is_true()
    ensures { LineIsTrue }
{}

/// A report whose answers hold as they are printed, the table advancing by the report's own contracts, has
/// true answers alone.
pub fn report_is_true()
    ensures { ReportIsTrue }
{}

/// The contract of an answer that holds as it is printed is well formed, where those of the question are:
/// different ports, few enough, and lists of different rows with the columns that they should have.
pub fn printed_is_well_formed()
    ensures { PrintedIsWellFormed }
{}
