//! Static types over the environments of the meaning, and the law that an accepted text is well
//! typed.
//!
//! The rules judge a text with tables of their own, while the meaning describes what a program does
//! by names, in environments where they are looked up again at each step. This crate states once
//! what both have in common: `specs/WellTyped.antt` defines it as one record of a text, and `law`
//! says that each accepted text has it. A crate above takes its facts by calling a function of
//! `law`, and never looks into the rules.
//!
//! Where to find a fact about an accepted text:
//!
//! - **Names.** A variable's name means its declared variable, and a constant's name its value
//!   (`Judgement.NamesVariable`, `NamesValue`). A variable is where it is declared
//!   (`law::names_mean_declarations`). No name is declared twice (`TypedRoutine.distinct`,
//!   `TypedBodies.distinct`), and nothing else has a routine's name (`TypedRoutine.found`, `alone`,
//!   `TypedBodies.no_routine`). No variable is the clock (`no_clock`). A function's name is its
//!   result only on the left of an assignment (`law::results_are_assigned_alone`).
//! - **Designators and values.** What is indexed is an array, and what has a field is a record with
//!   that field (`TypedPlace`). Places and values have their static types (`StaticTypes`,
//!   `law::static_types`). Only variables have arrays and records as values
//!   (`law::structured_values_are_variables`). The labels of a `case` are constants of its base,
//!   and each occurs once (`TypedLabels`).
//! - **Calls.** A designator is a call exactly if the meaning finds a callee (`IsUsedAs`,
//!   `IsFunctionCall`, `IsProcedureCall`). The callee was declared before (`MayBeCalled`), is an
//!   entry exactly if it follows a component's name, and its arguments fit (`AllFit`). A called
//!   component is a monitor or a class of an earlier type (`law::callees_are_defined_before`).
//!   Tasks stay typed when a call gets its value (`law::tasks_stay_typed`).
//! - **Standard routines.** They are recognised by their names, and occur only where they may:
//!   `delay` and `empty` in routines of monitors, `continue` in their entries, `wait` in processes
//!   (`IsStandardCall`, `IsStandardStatement`).
//! - **Components.** `init` names a component variable of the component itself, and passes
//!   components of the parameters' very types (`Initialises`, `IsComponentArgument`). A component's
//!   type has the members that are reported of its system type, in the scope of the whole text
//!   (`Declared.IsSystem`). Parameters and variables are of the kinds that they may be
//!   (`SystemParameter`, `SystemVariable`, `InitialVariable`).
//! - **Data.** Parameters and variables of routines are data without queues (`RoutineParameter`,
//!   `RoutineVariable`). Data is fully resolved, starts within its bounds, has fields with distinct
//!   names and without queues (`SoundTypes.SoundType`), and has at most 65,536 words
//!   (`Declared.IsData`). Bounds are at most as large as the numbers that are written
//!   (`law::bounds_are_as_written`).
//! - **Definitions.** System types are also typed in the scope before their definition
//!   (`WellTyped.TypedInOrder`).
//! - **Owners.** There are at most 255 processes and 255 monitors (`WellTyped.processes`,
//!   `monitors`), numbered within their counts (`law::owners_are_numbered`). Each owner has at most
//!   65,536 words, including the need of its calls, however deep (`Needs.WordsFit`).
//! - **The start.** Each leaf of each variable has its start value
//!   (`law::variables_have_start_values`).
#![tactic(auto)]

pub mod law;
