//! The laws of the reading functions. Each family is on a function without a body: a caller has the
//! laws as facts once it calls the function.

ghost use Rattle.cp_model_grammar.specs.Laws.{DeepBeginsADeeperText, DeepIsFirst, DeepOpensTheNext, ExpressionsAreComplete, ExpressionsAreSound, FrontBeginsAText, LevelsAreOfTokens, StatementsAreComplete, StatementsAreSound, StopsInside, TextIsComplete, TextIsSound, TreeIsUnique, TypesAreComplete, TypesAreSound, WrongIsFirst};

/// Expressions are read exactly as the grammar allows.
pub fn expression_laws()
    ensures sound { ExpressionsAreSound }
    ensures complete { ExpressionsAreComplete }
{}

/// Statements are read exactly as the grammar allows.
pub fn statement_laws()
    ensures sound { StatementsAreSound }
    ensures complete { StatementsAreComplete }
{}

/// Types are read exactly as the grammar allows.
pub fn type_laws()
    ensures sound { TypesAreSound }
    ensures complete { TypesAreComplete }
{}

/// Texts are read exactly as the grammar allows, and each has only one tree.
pub fn text_laws()
    ensures sound { TextIsSound }
    ensures complete { TextIsComplete }
    ensures unique { TreeIsUnique }
{}

/// A text is refused at the first token that no text has there, or at the token that opens one
/// level too many.
pub fn refusal_laws()
    ensures inside { StopsInside }
    ensures begun { FrontBeginsAText }
    ensures wrong { WrongIsFirst }
    ensures deep { DeepIsFirst }
    ensures opens { DeepOpensTheNext }
    ensures deeper { DeepBeginsADeeperText }
    ensures levels { LevelsAreOfTokens }
{}
