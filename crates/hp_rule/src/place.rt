//! Places in a script or a body, and the paths to them.

use std::alloc::{AllocError, Global};

/// A member of a script's root.
#[derive(Clone, Copy, Debug, PartialEq, Eq)]
pub enum Member {
    /// The version of the grammar.
    Version,
    /// The depth limit of firings.
    Depth,
    /// The classes of objects.
    Classes,
    /// The rules.
    Rules,
    /// What runs, in order.
    Items,
}

/// A step of a path.
#[derive(Clone, Copy, Debug, PartialEq, Eq)]
pub enum PathStep {
    /// To a member of the root.
    Member(Member),
    /// To an item of a list by its index, from 0. The indices are those of the script's JSON: the first operand of an
    /// expression, for example, has index 1.
    Item(usize),
}

/// A place in a script or a body, linked to the places around it. Its path is built only when what is there is refused.
#[derive(Clone, Copy)]
pub enum Place<'a> {
    /// The root of the script, or the whole body.
    Root,
    /// A member of the root.
    Member(Member),
    /// An item of the list at a place, by its index.
    Item(&'a Place<'a>, usize),
}

impl Place<'_> {
    ghost use Rattle.std.specs.Prelude.{◌≡◌, IfOk};
    ghost use Rattle.hp_model.specs.Refusals.{item_at};
    ghost use Rattle.hp_rule.specs.Places.{path, steps};

    /// The place of an item of this list.
    pub fn item(&self, position: usize) -> Place<'_>
        ensures { steps result ≡ item_at (steps self.now) position }
    {
        Place::Item(self, position)
    }

    /// The path from the root to this place.
    ///
    /// An error means that memory ran out.
    pub fn path(&self, alloc: Global) -> Result<Vec<PathStep>, AllocError>
        ensures { IfOk result (λ path_here. path path_here.items ≡ steps self.now) }
    {
        match self {
            Place::Root => Ok(Vec::new(alloc)),
            Place::Member(member) => {
                let mut path = Vec::new(alloc);
                path.push(PathStep::Member(*member))?;
                Ok(path)
            }
            Place::Item(list, position) => {
                let mut path = list.path(alloc)?;
                path.push(PathStep::Item(*position))?;
                Ok(path)
            }
        }
    }
}
