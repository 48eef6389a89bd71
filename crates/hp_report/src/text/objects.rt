//! The lines of objects.

ghost use Rattle.std.specs.Prelude.{◌++◌, ◌∷◌, codes, OnOk};
ghost use Rattle.hp_model.specs.Report.{line, object_words, row_words};
ghost use Rattle.hp_report.specs.Mapped as model;
ghost use Rattle.hp_report.specs.Text.{Gains, spaced};

use crate::names::Names;
use crate::text::words::put_value;
use hp_tree::ObjectName;
use hp_value::{ClassNo, Key, Row};
use std::alloc::{AllocError, Global};
use std::fmt::Write;

/// The fields of a row with their values, each after a space.
fn put_fields(alloc: Global, out: &mut String, row: &Row) -> Result<(), AllocError>
    ensures { OnOk result (Gains out.old out.new (spaced (row_words row.now))) }
{
    for index in 0..row.len() {
        let (name, value) = row.get(index).unwrap();
        write!(out, " {name}=")?;
        put_value(alloc, out, value)?;
    }
    Ok(())
}

/// The class and the key of an object, each after a space.
pub fn put_object_name(
    out: &mut String,
    names: &Names<'_>,
    class: ClassNo,
    key: Key,
) -> Result<(), AllocError>
    ensures { OnOk result (Gains out.old out.new (spaced (object_words (model.library_of names.now) class key))) }
{
    let class = names.class(class);
    write!(out, " {class} {key}")
}

/// The class, the key and the fields of an object, each after a space.
#[tactic(auto, using(crate::proofs::Lines::spaced_both))]
pub fn put_object(
    alloc: Global,
    out: &mut String,
    names: &Names<'_>,
    class: ClassNo,
    key: Key,
    row: &Row,
) -> Result<(), AllocError>
    ensures { OnOk result (Gains out.old out.new
        (spaced (object_words (model.library_of names.now) class key ++ row_words row.now))) }
{
    put_object_name(out, names, class, key)?;
    put_fields(alloc, out, row)
}

/// The line of an object.
pub fn put_object_line(
    alloc: Global,
    out: &mut String,
    names: &Names<'_>,
    name: &ObjectName,
    row: &Row,
) -> Result<(), AllocError>
    ensures { let words = object_words (model.library_of names.now) name.now.class name.now.key in
        OnOk result (Gains out.old out.new (line 0 (codes "object" ∷ (words ++ row_words row.now)))) }
{
    out.push_str("object")?;
    put_object(alloc, out, names, name.class, name.key, row)?;
    out.push_str("\n")?;
    Ok(())
}
