//! A value as one pointer that C holds.
ghost use Rattle.std.specs.Prelude.{◌≡◌};
ghost use Rattle.std.specs.declared.option.Option.{Option};
ghost use Rattle.std.specs.declared.option.Option.TheVariants.{None, Some};
ghost use Rattle.std.specs.Option.{MatchOption};
ghost use Rattle.hipac_c.specs.Kept.{Kept as KeptValue, kept_code};
ghost use Rattle.hipac_c.specs.Handles.{handle_owns};

use super::loose::Loose;
use hp_live::Session as Kept;
use std::alloc::Global;
use std::marker::Model;
use std::mem::replace;
use std::ptr::null_mut;

/// What C holds: null, or the pointer to a value that it owns.
#[repr(C)]
pub struct Handle {
    at: *mut u8,
    pub ghost kept: { Option KeptValue } by { kept_code },
}

impl Model for Handle {
    ghost also_owns = { λ h. handle_owns h.at h.kept };
}

impl Handle {
    /// No value.
    fn none() -> Handle
        ensures { result.kept ≡ None }
    {
        Handle { at: null_mut() }
    }

    /// The handle of a value.
    fn of(loose: Loose<Kept, Global>) -> Handle
        ensures { result.kept ≡ Some loose.value }
    {
        let Loose { at, alloc: _ } = loose;
        Handle { at: at as *mut u8 }
    }

    /// The value of a handle.
    fn into_loose(self, alloc: Global) -> Option<Loose<Kept, Global>>
        ensures { MatchOption result (self.kept ≡ None) (λ l. self.kept ≡ Some l.value) }
    {
        let Handle { at } = self;
        if at.is_null() {
            None
        } else {
            Some(Loose {
                at: at as *mut Kept,
                alloc,
            })
        }
    }

    /// The value of a handle, in its box.
    fn into_kept(self, alloc: Global) -> Option<Box<Kept>>
        ensures { MatchOption result (self.kept ≡ None) (λ b. self.kept ≡ Some b.value) }
    {
        match self.into_loose(alloc) {
            Some(loose) => Some(loose.into_box()),
            None => None,
        }
    }

    /// Takes the value out.
    pub(crate) fn take(&mut self, alloc: Global) -> Option<Box<Kept>>
        ensures left { self.new.kept ≡ None }
        ensures taken { MatchOption result (self.old.kept ≡ None) (λ b. self.old.kept ≡ Some b.value) }
    {
        replace(self, Handle::none()).into_kept(alloc)
    }

    /// Puts a value in, and drops one that was there.
    pub(crate) fn put(&mut self, alloc: Global, kept: Box<Kept>)
        ensures { self.new.kept ≡ Some kept.value }
    {
        let _before = replace(self, Handle::of(Loose::of(kept))).into_kept(alloc);
    }
}
