// What holds of the answers to a script: laws of the definitions, each the clause of an empty function.
ghost use Rattle.pa_answers.specs.Laws.{AnswersAreTrue, AnswersHold};

/// The answers to the lines of a script hold as they are printed, each over the table that the earlier answers leave, under
/// the limits in force there. The table begins with well-formed contracts and a limit of rows in its range, and the lines
/// are well formed.
pub fn answers_hold()
    ensures { AnswersHold }
{}

/// So they are true, each of the table that the earlier answers leave.
pub fn answers_are_true()
    ensures { AnswersAreTrue }
{}
