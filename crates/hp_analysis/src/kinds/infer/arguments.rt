//! What is known of the arguments of signals.

use hp_value::Kind;
use std::alloc::{AllocError, Global};
use std::collections::BTreeMap;

/// The number of arguments that a signal has at most.
pub(crate) const MAX_ARGUMENTS: usize = 32;

/// Where a value comes from.
#[derive(Clone, Copy, Debug, PartialEq, Eq)]
pub(crate) enum Origin {
    /// It has this kind.
    Known(Kind),
    /// It is read of a part of an occurrence, by the reading's number.
    Read(usize),
}

/// How many values there are of each kind.
#[derive(Clone, Copy, Debug)]
pub(crate) struct Given {
    integers: usize,
    booleans: usize,
    texts: usize,
}

impl Given {
    /// No values.
    pub(crate) fn nothing() -> Given {
        Given {
            integers: 0,
            booleans: 0,
            texts: 0,
        }
    }

    /// These values and others.
    pub(crate) fn and(self, others: Given) -> Given {
        Given {
            integers: self.integers.saturating_add(others.integers),
            booleans: self.booleans.saturating_add(others.booleans),
            texts: self.texts.saturating_add(others.texts),
        }
    }

    /// These values and one more, of a kind.
    pub(crate) fn with(self, kind: Kind) -> Given {
        let nothing = Given::nothing();
        self.and(match kind {
            Kind::Int => Given {
                integers: 1,
                ..nothing
            },
            Kind::Bool => Given {
                booleans: 1,
                ..nothing
            },
            Kind::Text => Given {
                texts: 1,
                ..nothing
            },
        })
    }

    /// The kind that most of them have; none if there are no values.
    pub(crate) fn most(self) -> Option<Kind> {
        if self.booleans > self.integers && self.booleans >= self.texts {
            return Some(Kind::Bool);
        }
        if self.texts > self.integers {
            return Some(Kind::Text);
        }
        if self.integers > 0 {
            return Some(Kind::Int);
        }
        None
    }
}

/// What is read of a part: for each pattern that the part may match, an argument or a field.
#[derive(Debug, Drop)]
pub(crate) struct Read {
    /// The arguments, by their numbers.
    pub arguments: Vec<usize>,
    /// The kinds of the fields.
    pub fields: Given,
    /// The kind of the first field.
    pub kind: Option<Kind>,
    /// Whether all arguments are of one group.
    is_joined: bool,
    /// Whether a use says which kind all arguments have to have.
    is_wanted: bool,
}

impl Read {
    pub(crate) fn new(alloc: Global) -> Read {
        Read {
            arguments: Vec::new(alloc),
            fields: Given::nothing(),
            kind: None,
            is_joined: false,
            is_wanted: false,
        }
    }

    /// Adds a field of a kind.
    pub(crate) fn add_field(&mut self, kind: Kind) {
        self.fields = self.fields.with(kind);
        self.kind = self.kind.or(Some(kind));
    }
}

/// What is known of an argument. Arguments that have to be of one kind form a group, whose first member stands for it.
#[derive(Debug, Drop)]
pub(crate) struct Argument {
    /// An argument of the same group, which isn't a later one; the argument itself if it is the first.
    earlier: usize,
    /// Whether a rule uses it.
    pub is_used: bool,
    /// Whether a use of the group needs one kind.
    pub is_strong: bool,
    /// The kind that the first use of the group wants.
    pub wanted: Option<Kind>,
}

/// That a statement gives a value as an argument.
#[derive(Clone, Copy, Debug)]
pub(crate) struct Flow {
    pub from: Origin,
    pub into: usize,
}

/// The arguments of all signals to which a rule listens, and what statements give them.
#[derive(Debug, Drop)]
pub(crate) struct Arguments {
    /// For each signal the number of its first argument. The others follow it.
    pub numbers: BTreeMap<String, usize>,
    pub known: Vec<Argument>,
    pub reads: Vec<Read>,
    pub flows: Vec<Flow>,
}

impl Arguments {
    pub(crate) fn new(alloc: Global) -> Arguments {
        Arguments {
            numbers: BTreeMap::new(alloc),
            known: Vec::new(alloc),
            reads: Vec::new(alloc),
            flows: Vec::new(alloc),
        }
    }

    /// Adds a signal, if it isn't known yet.
    pub(crate) fn add_signal(&mut self, name: &String) -> Result<(), AllocError> {
        if self.numbers.contains_key(name.as_str()) {
            return Ok(());
        }
        self.numbers.insert(name.clone()?, self.known.len())?;
        for _ in 0..MAX_ARGUMENTS {
            let earlier = self.known.len();
            self.known.push(Argument {
                earlier,
                is_used: false,
                is_strong: false,
                wanted: None,
            })?;
        }
        Ok(())
    }

    /// The number of an argument of a signal. `None` if no rule listens to the signal, or if the index is too large.
    pub(crate) fn number(&self, name: &str, place: usize) -> Option<usize> {
        if place >= MAX_ARGUMENTS {
            return None;
        }
        self.numbers.get(name)?.checked_add(place)
    }

    /// Adds what is read of a part, and gives its number.
    pub(crate) fn add_read(&mut self, read: Read) -> Result<usize, AllocError> {
        let number = self.reads.len();
        for argument in &read.arguments {
            self.note_use(*argument);
        }
        self.reads.push(read)?;
        Ok(number)
    }

    /// An argument of those that are read, by its index; `None` if there is none.
    pub(crate) fn argument_of(&self, read: usize, index: usize) -> Option<usize> {
        self.reads.get(read)?.arguments.get(index).copied()
    }

    /// The number of arguments that are read.
    pub(crate) fn arguments_in(&self, read: usize) -> usize {
        match self.reads.get(read) {
            Some(found) => found.arguments.len(),
            None => 0,
        }
    }

    /// The first argument of the group of an argument.
    pub(crate) fn first(&self, number: usize) -> usize {
        let mut first = number;
        while let Some(argument) = self.known.get(first) {
            if argument.earlier >= first {
                return first;
            }
            first = argument.earlier;
        }
        first
    }

    /// Finds the first argument of the group of an argument, and shortens the paths that it followed.
    pub(crate) fn find_first(&mut self, number: usize) -> usize {
        let mut first = number;
        while let Some(argument) = self.known.get(first) {
            let earlier = argument.earlier;
            if earlier >= first {
                return first;
            }
            let next = match self.known.get(earlier) {
                Some(before) => before.earlier.min(earlier),
                None => earlier,
            };
            if let Some(argument) = self.known.get_mut(first) {
                argument.earlier = next;
            }
            first = next;
        }
        first
    }

    /// Makes each search a short one.
    pub(crate) fn settle(&mut self) {
        for number in 0..self.known.len() {
            self.find_first(number);
        }
    }

    /// Notes that a rule uses the argument.
    fn note_use(&mut self, number: usize) {
        if let Some(argument) = self.known.get_mut(number) {
            argument.is_used = true;
        }
    }

    /// Notes that the argument's group has to be of one kind, and of which, if a use says so.
    pub(crate) fn want(&mut self, number: usize, kind: Option<Kind>) {
        let first = self.find_first(number);
        if let Some(argument) = self.known.get_mut(first) {
            argument.is_strong = true;
            argument.wanted = argument.wanted.or(kind);
        }
    }

    /// Makes the groups of two arguments one.
    pub(crate) fn join(&mut self, one: usize, other: usize) {
        let (one, other) = (self.find_first(one), self.find_first(other));
        let (earlier, later) = (one.min(other), one.max(other));
        if earlier == later {
            return;
        }
        let Some(argument) = self.known.get_mut(later) else {
            return;
        };
        argument.earlier = earlier;
        let (is_strong, wanted) = (argument.is_strong, argument.wanted);
        if is_strong {
            self.want(earlier, wanted);
        }
    }

    /// Notes that a value has to be of a kind.
    pub(crate) fn want_of(&mut self, origin: Option<Origin>, kind: Kind) {
        if let Some(Origin::Read(read)) = origin {
            self.want_read(read, kind);
        }
    }

    /// Notes that each argument of those that are read has to be of a kind.
    fn want_read(&mut self, read: usize, kind: Kind) {
        match self.reads.get_mut(read) {
            Some(found) if !found.is_wanted => found.is_wanted = true,
            _ => return,
        }
        for index in 0..self.arguments_in(read) {
            if let Some(number) = self.argument_of(read, index) {
                self.want(number, Some(kind));
            }
        }
    }

    /// Makes one group of the arguments that are read, and of another group if there is one; its number.
    pub(crate) fn join_read(&mut self, group: Option<usize>, read: usize) -> Option<usize> {
        let Some(first) = self.argument_of(read, 0) else {
            return group;
        };
        let group = group.unwrap_or(first);
        self.join(group, first);
        self.join_all(group, read);
        Some(group)
    }

    /// Makes one group of the arguments that are read, if they aren't one.
    fn join_all(&mut self, group: usize, read: usize) {
        match self.reads.get_mut(read) {
            Some(found) if !found.is_joined => found.is_joined = true,
            _ => return,
        }
        for index in 0..self.arguments_in(read) {
            if let Some(number) = self.argument_of(read, index) {
                self.join(group, number);
            }
        }
    }

    /// Makes one group of another one and of what a value comes from.
    fn join_origin(&mut self, group: Option<usize>, origin: Option<Origin>) -> Option<usize> {
        match origin {
            Some(Origin::Read(read)) => self.join_read(group, read),
            Some(Origin::Known(_)) | None => group,
        }
    }

    /// The kind of a value, if one is known.
    fn kind_of(&self, origin: Option<Origin>) -> Option<Kind> {
        match origin {
            Some(Origin::Known(kind)) => Some(kind),
            Some(Origin::Read(read)) => self.reads.get(read)?.kind,
            None => None,
        }
    }

    /// Notes that two values have to be of one kind.
    pub(crate) fn note_alike(&mut self, one: Option<Origin>, other: Option<Origin>) {
        let kind = self.kind_of(one).or(self.kind_of(other));
        let group = self.join_origin(None, one);
        if let Some(number) = self.join_origin(group, other) {
            self.want(number, kind);
        }
    }
}
