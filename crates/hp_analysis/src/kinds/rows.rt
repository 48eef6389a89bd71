//! The classes of the rows in scope.

ghost use Rattle.std.specs.Prelude.{◌≡◌, ◌∷◌, [], map, bytes_eq};
ghost use Rattle.std.specs.Map.{lookup};
ghost use Rattle.hp_query.specs.Mapped.{entry};
ghost use Rattle.hp_model.specs.Kinds.{query_classes};
ghost use Rattle.hp_analysis.specs.Scopes.{rows_in, rows_after};

use hp_query::Entry;
use hp_value::ClassNo;

/// The names of rows in scope and their classes, the innermost first.
#[derive(Clone, Copy)]
pub(crate) enum Rows<'a> {
    /// The first rows of the answers of these queries of a condition. A later query of the same name hides an earlier
    /// one.
    Entries(&'a [Entry]),
    /// One more name, inside others.
    Bound(&'a str, ClassNo, &'a Rows<'a>),
}

/// The class of the last query of this name.
fn last_class(entries: &[Entry], name: &str) -> Option<ClassNo>
    ensures { result ≡ lookup (bytes_eq name.now) (rows_after [] (map entry entries.now)) }
{
    let mut class = None;
    for asked in entries {
        if let Entry::Query(asked) = asked {
            if name == asked.name.as_str() {
                class = Some(asked.class);
            }
        }
    }
    class
}

/// The class of the first query of this name.
pub(crate) fn first_class(entries: &[Entry], name: &str) -> Option<ClassNo>
    ensures { result ≡ lookup (bytes_eq name.now) (query_classes (map entry entries.now)) }
{
    for asked in entries {
        if let Entry::Query(asked) = asked {
            if name == asked.name.as_str() {
                return Some(asked.class);
            }
        }
    }
    None
}

impl Rows<'_> {
    /// These rows and one more.
    pub(crate) fn bound<'b>(&'b self, newest: &'b str, class: ClassNo) -> Rows<'b>
        ensures { rows_in result ≡ (newest.entry.now, class) ∷ rows_in self.entry.now }
    {
        Rows::Bound(newest, class, self)
    }

    /// The class of the innermost row of this name.
    pub(crate) fn class(&self, name: &str) -> Option<ClassNo>
        ensures { result ≡ lookup (bytes_eq name.now) (rows_in self.now) }
    {
        match self {
            Rows::Entries(entries) => last_class(entries, name),
            Rows::Bound(newest, class, outer) => {
                if name == *newest {
                    Some(*class)
                } else {
                    outer.class(name)
                }
            }
        }
    }
}
