//! The laws, as functions with empty bodies: a caller obtains a law as a fact by calling its
//! function. Their statements are in `specs/Laws.antt`.

ghost use Rattle.cp_law_typing.specs.Laws.{AcceptedTextsAreWellTyped, BoundsAreAsWritten, CalleesAreDefinedBefore, ConstantsAreGlobal, LowerBoundsAreAsWritten, MonitorsAreNumbered, PlacesHaveStaticTypes, ProcessesAreNumbered, ResultsAreAssignedAlone, StructuredValuesAreVariables, TasksStayTyped, ValuesHaveStaticTypes, VariablesHaveStartValues, VariablesLieWhereDeclared};

/// An accepted text is well typed (`specs/WellTyped.antt`): its declarations, all statements of all
/// bodies over the environments of the meaning, its numbers of processes and monitors, and its
/// words including the needs of calls.
pub fn accepted_texts_are_well_typed()
    ensures { AcceptedTextsAreWellTyped }
{}

/// Places and values have their static types (`specs/StaticTypes.antt`), whatever the text and the
/// store.
pub fn static_types()
    ensures places { PlacesHaveStaticTypes }
    ensures values { ValuesHaveStaticTypes }
{}

/// The next call of a typed task may be made and fits, and a task stays typed when its call is
/// replaced by its value.
pub fn tasks_stay_typed()
    ensures { TasksStayTyped }
{}

/// A component whose routine may be called is a monitor or a class, and its system type was defined
/// before.
pub fn callees_are_defined_before()
    ensures { CalleesAreDefinedBefore }
{}

/// The name of a function means its result only on the left of an assignment.
pub fn results_are_assigned_alone()
    ensures { ResultsAreAssignedAlone }
{}

/// A variable is where it is declared: in the activation, or else in the component. No variable
/// hides a constant.
pub fn names_mean_declarations()
    ensures variables { VariablesLieWhereDeclared }
    ensures constants { ConstantsAreGlobal }
{}

/// A value of an array or record type is the value of a variable or of a part of one.
pub fn structured_values_are_variables()
    ensures { StructuredValuesAreVariables }
{}

/// Processes and monitors have numbers within their counts.
pub fn owners_are_numbered()
    ensures processes { ProcessesAreNumbered }
    ensures monitors { MonitorsAreNumbered }
{}

/// At the start, each leaf of each variable of the initial process, of the processes and of the
/// monitors has its start value.
pub fn variables_have_start_values()
    ensures { VariablesHaveStartValues }
{}

/// The bounds and ordinals of types are at most as large as the numbers that are written, or 32768,
/// and lower bounds are no further below 0 than the numbers after a minus, or 32768.
pub fn bounds_are_as_written()
    ensures bounds { BoundsAreAsWritten }
    ensures lower { LowerBoundsAreAsWritten }
{}
