//! The names of rows and values in scope.

ghost use Rattle.std.specs.Prelude.{◌≡◌, ◌∷◌, [], map};
ghost use Rattle.hp_query.specs.Mapped.{entry};
ghost use Rattle.hp_model.specs.Checked.{is_known, query_names};
ghost use Rattle.hp_model.specs.Scopes.{let_names, taken, knowing_row, knowing_value};
ghost use Rattle.hp_rule.specs.Named.{names_in};

use hp_query::Entry;

/// The names of rows and values in scope, the innermost first. They are one set: a new name is none of these.
#[derive(Clone, Copy)]
pub enum KnownNames<'a> {
    /// The names of a condition's queries, which mean rows, and of its `let`s, which mean values.
    Entries(&'a [Entry]),
    /// One more name of a row, inside others.
    Row(&'a str, &'a KnownNames<'a>),
    /// One more name of a value, inside others.
    Value(&'a str, &'a KnownNames<'a>),
}

/// Whether this is a query of this name.
fn names_row(named: &Entry, name: &str) -> bool
    ensures { result ≡ is_known (query_names (entry named.now ∷ [])) name.now }
{
    match named {
        Entry::Query(query) => query.name.as_str() == name,
        Entry::No(_) | Entry::Let { .. } => false,
    }
}

/// Whether this is a `let` of this name.
fn names_value(named: &Entry, name: &str) -> bool
    ensures { result ≡ is_known (let_names (entry named.now ∷ [])) name.now }
{
    match named {
        Entry::Let { name: newest, .. } => newest.as_str() == name,
        Entry::Query(_) | Entry::No(_) => false,
    }
}

/// Whether a query has this name.
pub(crate) fn is_query(entries: &[Entry], name: &str) -> bool
    ensures { result ≡ is_known (query_names (map entry entries.now)) name.now }
{
    entries.iter().any(|named| names_row(named, name))
}

/// Whether a `let` has this name.
fn is_let(entries: &[Entry], name: &str) -> bool
    ensures { result ≡ is_known (let_names (map entry entries.now)) name.now }
{
    entries.iter().any(|named| names_value(named, name))
}

impl KnownNames<'_> {
    /// These names and one more, of a row.
    pub fn with_row<'b>(&'b self, newest: &'b str) -> KnownNames<'b>
        ensures { names_in result ≡ knowing_row newest.entry.now (names_in self.entry.now) }
    {
        KnownNames::Row(newest, self)
    }

    /// These names and one more, of a value.
    pub fn with_value<'b>(&'b self, newest: &'b str) -> KnownNames<'b>
        ensures { names_in result ≡ knowing_value newest.entry.now (names_in self.entry.now) }
    {
        KnownNames::Value(newest, self)
    }

    /// Whether the name of a row is in scope.
    pub fn knows_row(&self, name: &str) -> bool
        ensures { result ≡ is_known (names_in self.now).rows name.now }
    {
        match self {
            KnownNames::Entries(entries) => is_query(entries, name),
            KnownNames::Row(newest, outer) => *newest == name || outer.knows_row(name),
            KnownNames::Value(_, outer) => outer.knows_row(name),
        }
    }

    /// Whether the name of a value is in scope.
    pub fn knows_value(&self, name: &str) -> bool
        ensures { result ≡ is_known (names_in self.now).values name.now }
    {
        match self {
            KnownNames::Entries(entries) => is_let(entries, name),
            KnownNames::Row(_, outer) => outer.knows_value(name),
            KnownNames::Value(newest, outer) => *newest == name || outer.knows_value(name),
        }
    }

    /// Whether the name means a row or a value. A new name must not.
    pub fn is_taken(&self, name: &str) -> bool
        ensures { result ≡ is_known (taken (names_in self.now)) name.now }
    {
        self.knows_row(name) || self.knows_value(name)
    }
}
