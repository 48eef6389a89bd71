//! Lists of rules by what occurrences are of.

ghost use Rattle.std.specs.Prelude.{◌≡◌, [], OnOk};
ghost use Rattle.hp_model.specs.Occurrences.{Primitive};
ghost use Rattle.hp_rule.specs.Noted.{noted_if};
ghost use Rattle.hp_rule.specs.RuleLists.{is_of, listed_of, listed};

use crate::note::{note, note_class, note_name, of_class, of_name};
use hp_event::Pattern;
use hp_value::{ClassNo, RuleNo};
use std::alloc::{AllocError, Global};
use std::collections::BTreeMap;

/// What primitive occurrences are of, whatever their keys, rows, arguments and times are.
#[derive(Clone, Copy, Debug, PartialEq, Eq)]
pub enum Subject<'a> {
    /// Objects of a class that are created.
    Created(ClassNo),
    /// Objects of a class that are updated.
    Updated(ClassNo),
    /// Objects of a class that are deleted.
    Deleted(ClassNo),
    /// The signals of a name.
    Signalled(&'a str),
    /// Commit events.
    Commit,
    /// Moments.
    Moment,
}

impl<'a> Subject<'a> {
    ghost use Rattle.hp_event.specs.Mapped.{pattern};
    ghost use Rattle.hp_rule.specs.Index.{may_match};

    /// What the occurrences are of that a pattern may match. A pattern of moments may match any moment.
    #[tactic(auto, using(crate::proofs::Subjects::is_created, crate::proofs::Subjects::is_updated, crate::proofs::Subjects::is_deleted, crate::proofs::Subjects::is_signalled, crate::proofs::Subjects::is_commit, crate::proofs::Subjects::is_at, crate::proofs::Subjects::is_every))]
    pub fn of_pattern(wanted: &'a Pattern) -> Subject<'a>
        ensures { (p : Primitive) → is_of result p ≡ may_match (pattern wanted.entry.now) p }
    {
        match wanted {
            Pattern::Create(class) => Subject::Created(*class),
            Pattern::Update(class) => Subject::Updated(*class),
            Pattern::Delete(class) => Subject::Deleted(*class),
            Pattern::Signal(name) => Subject::Signalled(name.as_str()),
            Pattern::Commit => Subject::Commit,
            Pattern::At(_) | Pattern::Every { .. } => Subject::Moment,
        }
    }
}

/// A list of rules for each subject. A list keeps the order in which rules are added, and a rule that is added again
/// right after itself stands in it once.
#[derive(Debug, Drop)]
pub struct RuleLists {
    created: BTreeMap<ClassNo, Vec<RuleNo>>,
    updated: BTreeMap<ClassNo, Vec<RuleNo>>,
    deleted: BTreeMap<ClassNo, Vec<RuleNo>>,
    signalled: BTreeMap<String, Vec<RuleNo>>,
    commit: Vec<RuleNo>,
    moments: Vec<RuleNo>,
}

impl RuleLists {
    /// Empty lists.
    pub fn new(alloc: Global) -> RuleLists
        ensures { (p : Primitive) → listed result p ≡ [] }
    {
        RuleLists {
            created: BTreeMap::new(alloc),
            updated: BTreeMap::new(alloc),
            deleted: BTreeMap::new(alloc),
            signalled: BTreeMap::new(alloc),
            commit: Vec::new(alloc),
            moments: Vec::new(alloc),
        }
    }

    /// The rules that are listed for a subject.
    pub fn rules(&self, subject: Subject<'_>) -> &[RuleNo]
        ensures { result.now ≡ listed_of self.now subject.entry }
    {
        match subject {
            Subject::Created(class) => of_class(&self.created, class),
            Subject::Updated(class) => of_class(&self.updated, class),
            Subject::Deleted(class) => of_class(&self.deleted, class),
            Subject::Signalled(name) => of_name(&self.signalled, name),
            Subject::Commit => &self.commit,
            Subject::Moment => &self.moments,
        }
    }

    /// Adds a rule to the list of a subject.
    ///
    /// An error means that memory ran out. The rules of that subject may then be lost.
    pub fn add(
        &mut self,
        alloc: Global,
        subject: Subject<'_>,
        number: RuleNo,
    ) -> Result<(), AllocError>
        ensures { OnOk result ((p : Primitive) →
            listed self.new p ≡ noted_if (is_of subject.entry p) number (listed self.old p)) }
    {
        match subject {
            Subject::Created(class) => note_class(alloc, &mut self.created, class, number),
            Subject::Updated(class) => note_class(alloc, &mut self.updated, class, number),
            Subject::Deleted(class) => note_class(alloc, &mut self.deleted, class, number),
            Subject::Signalled(name) => note_name(alloc, &mut self.signalled, name, number),
            Subject::Commit => note(&mut self.commit, number),
            Subject::Moment => note(&mut self.moments, number),
        }
    }
}
