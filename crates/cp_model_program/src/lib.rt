//! The form of a program, when a program represents a text, and the compiler as a function, all on
//! plain data.
//!
//! `specs/` has these parts, from the bottom up:
//!
//! - **The form.** `Terms` and `Programs` define the operations, one for each step of the meaning,
//!   the units of code with what they need, and the words of components. `Layout` says where each
//!   variable is, `Starts` how words start, and `Tables` where a `case` leads.
//! - **The relation.** `IsProgramFor` says when a program represents a text. Its parts are `Sites`
//!   (names, targets, calls), `TermsFor`, `StatementsFor` and `Starts`. It refers only to the
//!   environments of the meaning, and to every place where a component may be, so all components
//!   of a system type share their code.
//! - **The compiler.** `Compile.compile` goes from the tree to the program, by way of `Scopes`,
//!   `CodedTerms`, `CodedStatements`, `Plans` and `CodeNeeds`. It accepts any tree. Its result for
//!   a text that the rules refuse has no meaning.
//! - **The law.** `law::accepted_tree_has_program`: the program that the compiler makes of the text
//!   of an accepted tree represents it. `proofs/` show it for terms, calls, each kind of statement,
//!   plans of words, units in text order, and components, from what `Known` says about a text.
//!   `counts` decides its premise that system types have few parameters, in `ParameterCounts`.
//!
//! `Example` is a text with calls, `var` parameters, rights, a monitor and two processes, with a
//! program that represents it.
#![tactic(auto)]

pub mod counts;
pub mod law;
pub mod numbers;
