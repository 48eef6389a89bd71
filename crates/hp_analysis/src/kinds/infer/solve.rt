//! The kinds of arguments, by their uses and by what statements give them.

ghost use Rattle.std.specs.Prelude.{◌≡◌, IfOk, OnOk};
ghost use Rattle.hp_analysis.specs.Declarations.{declared, Keeps};

use crate::kinds::declaration::Declaration;
use crate::kinds::infer::arguments::{Arguments, Flow, Given, MAX_ARGUMENTS, Origin};
use crate::kinds::sort::Sort;
use hp_value::Kind;
use std::alloc::{AllocError, Global};

/// An argument whose kind nothing gives, though a rule compares it.
#[derive(Debug, PartialEq, Eq, Drop)]
pub struct UnknownArgument {
    /// The signal's name.
    pub signal: String,
    /// The index of the argument, from 0.
    pub place: usize,
}

/// What was found for a rule base.
#[derive(Debug, Drop)]
pub struct Inferred {
    /// The declaration.
    pub declaration: Declaration,
    /// The arguments whose kinds nothing gives. They are declared as integers. Another kind has to be declared, if
    /// statements are to give one.
    pub unknown: Vec<UnknownArgument>,
}

/// For each argument, what is read and given as one of its group, by the readings' numbers; listed at the group's
/// first.
fn sources(alloc: Global, arguments: &Arguments) -> Result<Vec<Vec<usize>>, AllocError> {
    let mut sources: Vec<Vec<usize>> = Vec::new(alloc);
    for _ in &arguments.known {
        sources.push(Vec::new(alloc))?;
    }
    for flow in &arguments.flows {
        if let Origin::Read(read) = flow.from {
            if let Some(list) = sources.get_mut(arguments.first(flow.into)) {
                list.push(read)?;
            }
        }
    }
    Ok(sources)
}

/// The groups that need one kind, each by its first argument.
fn strong_groups(alloc: Global, arguments: &Arguments) -> Result<Vec<usize>, AllocError> {
    let mut strong = Vec::new(alloc);
    for (number, argument) in arguments.known.iter().enumerate() {
        if argument.is_strong && arguments.first(number) == number {
            strong.push(number)?;
        }
    }
    Ok(strong)
}

/// Whether the group of an argument isn't known to need one kind yet.
fn is_weak(arguments: &Arguments, first: usize) -> bool {
    match arguments.known.get(first) {
        Some(argument) => !argument.is_strong,
        None => false,
    }
}

/// Opens the groups of the arguments that are read, which weren't known to need one kind.
fn open_read(
    arguments: &mut Arguments,
    read: usize,
    open: &mut Vec<usize>,
) -> Result<(), AllocError> {
    for index in 0..arguments.arguments_in(read) {
        let Some(number) = arguments.argument_of(read, index) else {
            return Ok(());
        };
        let first = arguments.first(number);
        if is_weak(arguments, first) {
            arguments.want(first, None);
            open.push(first)?;
        }
    }
    Ok(())
}

/// Opens the groups of what is read by these readings. Each reading is followed once.
fn open_all(
    arguments: &mut Arguments,
    reads: &[usize],
    followed: &mut [bool],
    open: &mut Vec<usize>,
) -> Result<(), AllocError> {
    for read in reads {
        let Some(before) = followed.get_mut(*read) else {
            return Ok(());
        };
        if !*before {
            *before = true;
            open_read(arguments, *read, open)?;
        }
    }
    Ok(())
}

/// What is given where one kind is needed has to be of one kind too, and so on.
fn spread(alloc: Global, arguments: &mut Arguments) -> Result<(), AllocError> {
    let sources = sources(alloc, arguments)?;
    let mut open = strong_groups(alloc, arguments)?;
    let mut followed = vec![in alloc; false; arguments.reads.len()]?;
    // Each group is opened once.
    for _ in 0..sources.len() {
        let Some(group) = open.pop() else {
            return Ok(());
        };
        let Some(reads) = sources.get(group) else {
            return Ok(());
        };
        open_all(arguments, reads, &mut followed, &mut open)?;
    }
    Ok(())
}

/// Makes one group of what is given, and what it is given as, where one kind is needed.
fn join_flows(alloc: Global, arguments: &mut Arguments) -> Result<(), AllocError> {
    let flows: Vec<Flow> = Vec::from_slice(alloc, &arguments.flows)?;
    for flow in &flows {
        let first = arguments.find_first(flow.into);
        if let Origin::Read(read) = flow.from {
            if !is_weak(arguments, first) {
                arguments.join_read(Some(first), read);
            }
        }
    }
    Ok(())
}

/// How many values of each kind an origin stands for.
fn given_by(arguments: &Arguments, origin: Origin) -> Given {
    match origin {
        Origin::Known(kind) => Given::nothing().with(kind),
        Origin::Read(read) => match arguments.reads.get(read) {
            Some(found) => found.fields,
            None => Given::nothing(),
        },
    }
}

/// How often statements give each group a value of each kind, listed at the group's first argument.
fn counts(alloc: Global, arguments: &Arguments) -> Result<Vec<Given>, AllocError> {
    let mut counts = Vec::new(alloc);
    for _ in &arguments.known {
        counts.push(Given::nothing())?;
    }
    for flow in &arguments.flows {
        if let Some(given) = counts.get_mut(arguments.first(flow.into)) {
            *given = given.and(given_by(arguments, flow.from));
        }
    }
    Ok(counts)
}

/// What is known of an argument in the end.
#[derive(Clone, Copy)]
enum Standing {
    /// No rule uses it.
    Unused,
    /// Rules use it, whatever its kind is.
    AnyKind,
    /// It has this kind.
    Kind(Kind),
    /// It needs one kind, and nothing gives it.
    Unknown,
}

fn standing_of(arguments: &Arguments, counts: &[Given], number: usize) -> Standing {
    match arguments.known.get(number) {
        Some(argument) if argument.is_used => {}
        _ => return Standing::Unused,
    }
    let first = arguments.first(number);
    let (Some(group), Some(given)) = (arguments.known.get(first), counts.get(first)) else {
        return Standing::Unused;
    };
    if !group.is_strong {
        return Standing::AnyKind;
    }
    match group.wanted.or(given.most()) {
        Some(kind) => Standing::Kind(kind),
        None => Standing::Unknown,
    }
}

/// What is known of the arguments of one signal.
fn standings(
    alloc: Global,
    arguments: &Arguments,
    counts: &[Given],
    first: usize,
) -> Result<Vec<Standing>, AllocError> {
    let mut standings = Vec::new(alloc);
    let mut used = 0;
    for place in 0..MAX_ARGUMENTS {
        let number = first.saturating_add(place);
        let known = standing_of(arguments, counts, number);
        standings.push(known)?;
        if !matches!(known, Standing::Unused) {
            used = place + 1;
        }
    }
    standings.truncate(used);
    Ok(standings)
}

/// The sorts of a signal's arguments. Notes those whose kinds nothing gives.
fn sorts_by(
    alloc: Global,
    name: &String,
    standings: &[Standing],
    unknown: &mut Vec<UnknownArgument>,
) -> Result<Vec<Sort>, AllocError> {
    let mut sorts = Vec::new(alloc);
    for (place, known) in standings.iter().enumerate() {
        sorts.push(match known {
            Standing::Unused | Standing::AnyKind => Sort::Any,
            Standing::Kind(kind) => Sort::Only(*kind),
            Standing::Unknown => Sort::Only(Kind::Int),
        })?;
        if matches!(known, Standing::Unknown) {
            let signal = name.clone()?;
            unknown.push(UnknownArgument { signal, place })?;
        }
    }
    Ok(sorts)
}

/// Declares a signal's arguments if it has any, unless the signal is declared already.
fn declare_new(
    name: &String,
    sorts: Vec<Sort>,
    declaration: &mut Declaration,
) -> Result<(), AllocError>
    ensures signatures { OnOk result (Keeps (declared declaration.old) (declared declaration.new)) }
    ensures fired { OnOk result ((declared declaration.new).fired ≡ (declared declaration.old).fired) }
{
    if sorts.is_empty() {
        return Ok(());
    }
    let signal = name.clone()?;
    if declaration.is_declared(signal.as_str()) {
        return Ok(());
    }
    declaration.declare(signal, sorts)?;
    Ok(())
}

/// The declaration that follows from what was gathered and from what is given.
pub(crate) fn solved(
    alloc: Global,
    gathered: Arguments,
    given: Declaration,
) -> Result<Inferred, AllocError>
    ensures signatures { IfOk result (λ inferred. Keeps (declared given) (declared inferred.declaration)) }
    ensures fired { IfOk result (λ inferred. (declared inferred.declaration).fired ≡ (declared given).fired) }
{
    let mut arguments = gathered;
    arguments.settle();
    spread(alloc, &mut arguments)?;
    join_flows(alloc, &mut arguments)?;
    arguments.settle();
    let counts = counts(alloc, &arguments)?;
    let mut declaration = given;
    let mut unknown = Vec::new(alloc);
    for (name, first) in arguments.numbers.iter() {
        let standings = standings(alloc, &arguments, &counts, *first)?;
        let sorts = sorts_by(alloc, name, &standings, &mut unknown)?;
        declare_new(name, sorts, &mut declaration)?;
    }
    Ok(Inferred {
        declaration,
        unknown,
    })
}
