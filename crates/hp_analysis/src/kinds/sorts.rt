//! The sorts of the values in scope.

ghost use Rattle.std.specs.Prelude.{◌≡◌, ◌∷◌, [], map, option_map, bytes_eq};
ghost use Rattle.std.specs.Map.{lookup};
ghost use Rattle.hp_analysis.specs.Kinded.{sort};
ghost use Rattle.hp_analysis.specs.Scopes.{named_sort, sorts_after, sorts_in};

use crate::kinds::sort::Sort;

/// The sort of a value that has a name.
#[derive(Debug, Drop)]
pub(crate) struct NamedSort {
    pub name: String,
    pub sort: Sort,
}

/// The names of values in scope and their sorts, the innermost first.
#[derive(Clone, Copy)]
pub(crate) enum Sorts<'a> {
    /// The values of a condition, in its order. A later one of the same name hides an earlier one.
    Found(&'a [NamedSort]),
    /// One more name, inside others.
    Bound(&'a str, Sort, &'a Sorts<'a>),
}

/// The sort of the last value of this name.
fn last_sort(found: &[NamedSort], name: &str) -> Option<Sort>
    ensures { option_map sort result ≡ lookup (bytes_eq name.now) (sorts_after [] (map named_sort found.now)) }
{
    let mut last = None;
    for named in found {
        if name == named.name.as_str() {
            last = Some(named.sort);
        }
    }
    last
}

impl Sorts<'_> {
    /// These values and one more.
    pub(crate) fn bound<'b>(&'b self, newest: &'b str, given: Sort) -> Sorts<'b>
        ensures { sorts_in result ≡ (newest.entry.now, sort given) ∷ sorts_in self.entry.now }
    {
        Sorts::Bound(newest, given, self)
    }

    /// The sort of the innermost value of this name.
    pub(crate) fn sort(&self, name: &str) -> Option<Sort>
        ensures { option_map sort result ≡ lookup (bytes_eq name.now) (sorts_in self.now) }
    {
        match self {
            Sorts::Found(found) => last_sort(found, name),
            Sorts::Bound(newest, given, outer) => {
                if name == *newest {
                    Some(*given)
                } else {
                    outer.sort(name)
                }
            }
        }
    }
}
