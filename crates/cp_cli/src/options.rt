//! The values of options. Each number is the one that the digits of its option mean, or a default
//! (`specs/Options.antt`). Which value an option has is what clap's matches say: no clause ties it to
//! the words of the command line, since clap has none for options that accept negative numbers.

ghost use Rattle.std.specs.Prelude.{◌≡◌, ◌≤◌, IfErr, IfOk, option_map};
ghost use Rattle.clap.specs.Words.{first_of, found_of, rows_of};
ghost use Rattle.cp_base_config.specs.Plans.{AreInRange, AreWorkers, IsTick, IsTurn};
ghost use Rattle.cp_cli.specs.Options.{HasNumber, HasOutcome, HasPlan, HasReplay, HasRun, HasSearch, HasTick, HasTrace, HasTurn, HasWorkers, IsOutOfRange};

use crate::command::Shown;
use crate::defaults;
use crate::misuse::Misuse;
use crate::numbers::{MAX_OPTION_NUMBER, MAX_ROUNDS, number};
use clap::ArgMatches;
use cp_base_config::limits::{MAX_CHUNK_PROCESSES, MAX_TICK_ROUNDS, MAX_TURN_STEPS, MAX_WORKERS};
use cp_base_config::outcome::{OutcomeForm, UntilStill};
use cp_base_config::plan::Plan;
use cp_base_config::run::{Replay, Run};
use cp_base_config::search::{SearchForm, Searching};
use cp_base_config::tick::Tick;
use cp_base_config::trace::{TraceForm, Tracing};
use cp_base_config::turn::Turn;
use cp_cli_terminal::colours::Colours;
use std::alloc::Global;

/// When the lines of a command are coloured.
pub(crate) fn read_colours<'a>(matches: &ArgMatches<'a>) -> Result<Colours, Misuse<'a>> {
    let Some(word) = matches.get_str("color") else {
        return Ok(Colours::Auto);
    };
    match Colours::named(word) {
        Some(colours) => Ok(colours),
        None => Err(Misuse::NoColours { word }),
    }
}

/// The plan with these numbers.
pub(crate) fn plan_of(turn: u32, workers: u32, chunk: u32, wave: u32) -> Plan
    requires range { AreInRange turn workers chunk wave }
    ensures turn { result.turn.steps ≡ turn }
    ensures workers { result.workers ≡ workers }
    ensures chunk { result.chunk ≡ chunk }
    ensures wave { result.wave ≡ wave }
{
    match Plan::new(turn, workers, chunk, wave) {
        Ok(plan) => plan,
        Err(_) => unreachable!(),
    }
}

/// The tick of so many rounds.
pub(crate) fn tick_of(rounds: u32) -> Tick
    requires range { IsTick rounds }
    ensures { result.rounds ≡ rounds }
{
    match Tick::new(rounds) {
        Ok(tick) => tick,
        Err(_) => unreachable!(),
    }
}

// The turn of so many steps.
fn turn_of(steps: u32) -> Turn
    requires range { IsTurn steps }
    ensures { result.steps ≡ steps }
{
    match Turn::new(steps) {
        Ok(turn) => turn,
        Err(_) => unreachable!(),
    }
}

// The first value of an option, as clap returns it.
fn value_of<'a>(matches: &ArgMatches<'a>, name: &str) -> Option<&'a str>
    ensures { option_map (λ s. s.now) result ≡ first_of name.now (rows_of (found_of matches.now)) }
{
    matches.get_str(name)
}

// The number that the decimal digits of an option's value mean, or `otherwise` if it isn't given.
// `OutOfRange` if the value isn't a number from `low` to `most`.
fn count<'a>(
    matches: &ArgMatches<'a>,
    name: &'static str,
    low: u32,
    most: u32,
    otherwise: u32,
) -> Result<u32, Misuse<'a>>
    requires small { most ≤ MAX_OPTION_NUMBER }
    requires within { (low ≤ otherwise) × (otherwise ≤ most) }
    ensures number { IfOk result
        (HasNumber name.now low most otherwise (rows_of (found_of matches.now))) }
    ensures within { IfOk result (λ n. (low ≤ n) × (n ≤ most)) }
    ensures refused { IfErr result
        (IsOutOfRange name.entry low most (rows_of (found_of matches.now))) }
{
    let Some(text) = value_of(matches, name) else {
        return Ok(otherwise);
    };
    match number(text.as_bytes(), low, most) {
        Some(n) => Ok(n),
        None => Err(Misuse::OutOfRange {
            name,
            low,
            most,
            word: text,
        }),
    }
}

// How many workers there are.
fn read_workers<'a>(matches: &ArgMatches<'a>) -> Result<u32, Misuse<'a>>
    ensures number { IfOk result (HasWorkers (rows_of (found_of matches.now))) }
    ensures within { IfOk result AreWorkers }
{
    count(matches, "workers", 1, MAX_WORKERS, defaults::WORKERS)
}

// How many steps a turn has.
fn read_turn<'a>(matches: &ArgMatches<'a>) -> Result<Turn, Misuse<'a>>
    ensures { IfOk result (HasTurn (rows_of (found_of matches.now))) }
{
    let steps = count(matches, "turn", 1, MAX_TURN_STEPS, defaults::TURN)?;
    Ok(turn_of(steps))
}

// How often the clock ticks.
fn read_tick<'a>(matches: &ArgMatches<'a>) -> Result<Tick, Misuse<'a>>
    ensures { IfOk result (HasTick (rows_of (found_of matches.now))) }
{
    let rounds = count(matches, "tick", 1, MAX_TICK_ROUNDS, defaults::TICK)?;
    Ok(tick_of(rounds))
}

// How a round is made.
fn read_plan<'a>(matches: &ArgMatches<'a>) -> Result<Plan, Misuse<'a>>
    ensures { IfOk result (HasPlan (rows_of (found_of matches.now))) }
{
    let turn = read_turn(matches)?;
    let workers = read_workers(matches)?;
    let chunk = count(matches, "chunk", 1, MAX_CHUNK_PROCESSES, defaults::CHUNK)?;
    let wave = count(matches, "wave", 1, MAX_CHUNK_PROCESSES, defaults::WAVE)?;
    Ok(plan_of(turn.steps(), workers, chunk, wave))
}

/// The run with the numbers of the options.
pub(crate) fn read_run<'a>(matches: &ArgMatches<'a>) -> Result<Run, Misuse<'a>>
    ensures numbers { IfOk result (HasRun (rows_of (found_of matches.now))) }
    ensures range { IfOk result (λ run. run.rounds ≤ MAX_ROUNDS) }
{
    Ok(Run {
        rounds: count(matches, "rounds", 0, MAX_ROUNDS, defaults::ROUNDS)?,
        plan: read_plan(matches)?,
        tick: read_tick(matches)?,
        chains: matches.get_flag("chains"),
    })
}

/// The run until nothing can move, with the numbers of the options.
pub(crate) fn read_outcome<'a>(matches: &ArgMatches<'a>) -> Result<UntilStill, Misuse<'a>>
    ensures numbers { IfOk result (HasOutcome (rows_of (found_of matches.now))) }
    ensures range { IfOk result (λ how. how.limit ≤ MAX_ROUNDS) }
{
    Ok(UntilStill {
        limit: count(matches, "limit", 0, MAX_ROUNDS, defaults::LIMIT)?,
        plan: read_plan(matches)?,
        tick: read_tick(matches)?,
    })
}

// The form of an outcome that the options choose. The grammar accepts only one of them.
fn read_form(matches: &ArgMatches<'_>) -> OutcomeForm<()> {
    match matches.get_str("out") {
        Some(_names) => OutcomeForm::Transcript(()),
        None if matches.get_flag("dot") => OutcomeForm::Dot,
        None if matches.get_flag("json") => OutcomeForm::Json,
        None => OutcomeForm::Verdict,
    }
}

/// What is shown of an outcome.
pub(crate) fn read_shown<'a>(
    alloc: Global,
    matches: &ArgMatches<'a>,
) -> Result<Shown<'a>, Misuse<'a>> {
    Ok(Shown {
        form: read_form(matches),
        processes: read_names(alloc, matches, "out")?,
        variables: read_show(alloc, matches)?,
    })
}

// The form of a trace that the options choose. The grammar accepts only one of them.
fn read_trace_form<'a>(matches: &ArgMatches<'a>) -> TraceForm {
    if matches.get_flag("timeline") {
        TraceForm::Timeline
    } else if matches.get_flag("svg") {
        TraceForm::Svg
    } else if matches.get_flag("json") {
        TraceForm::Json
    } else {
        TraceForm::Lines
    }
}

/// The trace with the numbers of the options. It ends with the last round that is reported.
pub(crate) fn read_trace<'a>(matches: &ArgMatches<'a>) -> Result<Tracing, Misuse<'a>>
    ensures numbers { IfOk result (HasTrace (rows_of (found_of matches.now))) }
    ensures rounds { IfOk result (λ how. how.rounds ≤ MAX_ROUNDS) }
    ensures from { IfOk result (λ how. (1 ≤ how.from) × (how.from ≤ MAX_ROUNDS)) }
{
    let rounds = count(matches, "rounds", 0, MAX_ROUNDS, defaults::ROUNDS)?;
    let from = count(matches, "from", 1, MAX_ROUNDS, defaults::FROM)?;
    let to = count(matches, "to", 1, MAX_ROUNDS, defaults::TO)?;
    if to < from {
        return Err(Misuse::FromAboveTo);
    }
    Ok(Tracing {
        rounds: rounds.min(to),
        from,
        form: read_trace_form(matches),
        plan: read_plan(matches)?,
        tick: read_tick(matches)?,
    })
}

// Adds the names in a word of an option, with commas between them.
fn add_names<'a>(
    option: &'static str,
    word: &'a str,
    names: &mut Vec<&'a str>,
) -> Result<(), Misuse<'a>> {
    for name in word.split(',') {
        if name.is_empty() {
            return Err(Misuse::NoNames { option, word });
        }
        names.push(name)?;
    }
    Ok(())
}

// The names that an option gives.
fn read_names<'a>(
    alloc: Global,
    matches: &ArgMatches<'a>,
    option: &'static str,
) -> Result<Vec<&'a str>, Misuse<'a>> {
    let mut names = Vec::new(alloc);
    if let Some(word) = matches.get_str(option) {
        add_names(option, word, &mut names)?;
    }
    Ok(names)
}

/// The names that `--only` gives.
pub(crate) fn read_only<'a>(
    alloc: Global,
    matches: &ArgMatches<'a>,
) -> Result<Vec<&'a str>, Misuse<'a>> {
    read_names(alloc, matches, "only")
}

// The names that `--show` gives, each time that it is given.
fn read_show<'a>(alloc: Global, matches: &ArgMatches<'a>) -> Result<Vec<&'a str>, Misuse<'a>> {
    let mut names = Vec::new(alloc);
    if let Some(words) = matches.get_strs("show") {
        for word in words {
            add_names("show", *word, &mut names)?;
        }
    }
    Ok(names)
}

/// The replay with the numbers of the options.
pub(crate) fn read_replay<'a>(matches: &ArgMatches<'a>) -> Result<Replay, Misuse<'a>>
    ensures { IfOk result (HasReplay (rows_of (found_of matches.now))) }
{
    Ok(Replay {
        turn: read_turn(matches)?,
        tick: read_tick(matches)?,
        chains: matches.get_flag("chains"),
    })
}

/// The search with the numbers of the options.
pub(crate) fn read_search<'a>(matches: &ArgMatches<'a>) -> Result<Searching, Misuse<'a>>
    ensures numbers { IfOk result (HasSearch (rows_of (found_of matches.now))) }
    ensures states { IfOk result (λ how. (1 ≤ how.states) × (how.states ≤ MAX_OPTION_NUMBER)) }
    ensures memory { IfOk result (λ how. (1 ≤ how.memory) × (how.memory ≤ MAX_ROUNDS)) }
{
    let states = count(matches, "states", 1, MAX_OPTION_NUMBER, defaults::STATES)?;
    let memory = count(matches, "memory", 1, MAX_ROUNDS, defaults::MEMORY)?;
    let workers = read_workers(matches)?;
    let form = if matches.get_flag("json") {
        SearchForm::Json
    } else {
        SearchForm::Lines
    };
    Ok(Searching {
        states,
        memory,
        workers,
        form,
    })
}
