//! The lines of a state.

ghost use Rattle.std.specs.Prelude.{OnOk};
ghost use Rattle.hp_store.specs.Stack.{cells_in};
ghost use Rattle.hp_report.specs.Mapped as model;
ghost use Rattle.hp_report.specs.Stored.{GainsOf};
ghost use Rattle.hp_report.specs.Text.{final_text, state_text};

use crate::ending::final_statuses;
use crate::stored::put_all_objects;
use crate::text::rules::put_rules;
use hp_rule::Library;
use hp_store::Store;
use std::alloc::{AllocError, Global};

/// The lines after the units: the final objects, and the final statuses of the rules.
pub fn put_final(
    alloc: Global,
    out: &mut String,
    library: &Library,
    store: &Store,
) -> Result<(), AllocError>
    ensures { let lib = model.library library.now in
        OnOk result (GainsOf lib (cells_in store.now) (λ S. final_text lib S.objects S.rules) out.old out.new) }
{
    out.push_str("final\n")?;
    put_state(alloc, out, library, store)?;
    out.push_str("end\n")?;
    Ok(())
}

/// The lines of a state: its objects, and the statuses of its rules.
pub fn put_state(
    alloc: Global,
    out: &mut String,
    library: &Library,
    store: &Store,
) -> Result<(), AllocError>
    ensures { let lib = model.library library.now in
        OnOk result (GainsOf lib (cells_in store.now) (λ S. state_text lib S.objects S.rules) out.old out.new) }
{
    put_all_objects(alloc, out, library, store)?;
    let statuses = final_statuses(alloc, library, store)?;
    put_rules(out, library.rules(), &statuses)
}
