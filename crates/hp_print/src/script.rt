//! Scripts.

ghost use Rattle.std.specs.Prelude.{◌≡◌, OnOk, pos, map, option_map, option_and_then};
ghost use Rattle.serde_json.specs.View.{view};
ghost use Rattle.hp_model.specs.Decode.{member_count, wanted_count, root_of};
ghost use Rattle.hp_model.specs.NotationPrint as P;
ghost use Rattle.hp_model.specs.NotationScripts.{has_let};
ghost use Rattle.hp_model.specs.NotationValues as V;
ghost use Rattle.hp_model.specs.NotationValues.{list_form, class_form, rule_form, item_form, depth_form, script_form};
ghost use Rattle.hp_print.specs.Written.{step, Writes};
ghost use Rattle.hp_print.specs.Lists.{steps};
ghost use Rattle.hp_print.specs.Rules.{rules_pieces, items_pieces, script_before};
ghost use Rattle.hp_print.specs.Scripts.{root_view, part_step};

use crate::names::natural;
use crate::rule::{class, item, rule};
use crate::shape::{list_of, natural_of};
use crate::token::{Gap, Token};
use crate::writer::Writer;
use serde_json::Value;
use std::alloc::AllocError;

/// The first version whose conditions may name values.
const LETS_FROM: u64 = 4;

/// The members of the root.
#[derive(Clone, Copy)]
struct Root<'a> {
    version: &'a Value,
    depth: Option<&'a Value>,
    classes: &'a Value,
    rules: &'a Value,
    items: &'a Value,
}

/// How many members an object has.
#[tactic(auto, using(crate::proofs::Values::member_count_view))]
fn member_count(value: &Value) -> Option<usize>
    ensures { result ≡ member_count (view value.now) }
{
    match value.as_object() {
        Some(members) => Some(members.len()),
        None => None,
    }
}

/// How many members a whole root has.
fn wanted_count(depth: Option<&Value>) -> usize
    ensures { result ≡ wanted_count (option_map (λ v. view v.now) depth.entry) }
{
    match depth {
        None => 4,
        Some(_) => 5,
    }
}

/// The members of the root, if it has all of them and no others.
fn root_of(value: &Value) -> Option<Root<'_>>
    ensures { option_map root_view result ≡ root_of (view value.now) }
{
    let count = member_count(value)?;
    let depth = value.get("depth");
    if count != wanted_count(depth) {
        return None;
    }
    Some(Root {
        version: value.get("version")?,
        depth,
        classes: value.get("classes")?,
        rules: value.get("rules")?,
        items: value.get("items")?,
    })
}

/// What a script has many of.
#[derive(Clone, Copy)]
enum Part {
    Class,
    /// A rule. With `lets`, its condition may name values.
    Rule { lets: bool },
    Item,
}

/// Writes a part after the first.
fn put_part(w: &mut Writer, part: Part, value: &Value) -> Result<(), AllocError>
    ensures { OnOk result (Writes w.old w.new (part_step part (view value.now))) }
{
    match part {
        Part::Class => class(w, Gap::Line(0), value),
        Part::Rule { lets } => rule(w, lets, value),
        Part::Item => item(w, Gap::Paragraph, value),
    }
}

/// Writes some parts, one after another.
fn each(w: &mut Writer, kind: Part, values: &[Value]) -> Result<(), AllocError>
    ensures { OnOk result (Writes w.old w.new (steps (part_step kind) (map view values.now))) }
{
    for value in values {
        put_part(w, kind, value)?;
    }
    Ok(())
}

/// Writes the depth, if it is there.
fn depth(w: &mut Writer, value: Option<&Value>) -> Result<(), AllocError>
    ensures { OnOk result (Writes w.old w.new
        (step P.depth_pieces (depth_form (option_map (λ v. view v.now) value.entry)))) }
{
    match value {
        Some(value) => {
            w.word(Gap::Line(0), "depth")?;
            natural(w, Gap::Space, value)
        }
        None => Ok(()),
    }
}

/// Writes the classes, with an empty line before the first.
fn classes(w: &mut Writer, value: &Value) -> Result<(), AllocError>
    ensures { OnOk result (Writes w.old w.new (step P.classes_pieces (list_form class_form (view value.now)))) }
{
    match list_of(value) {
        Some([]) => Ok(()),
        Some([first, others @ ..]) => {
            class(w, Gap::Paragraph, first)?;
            each(w, Part::Class, others)
        }
        None => {
            w.refuse();
            Ok(())
        }
    }
}

/// Writes the rules.
fn rules(w: &mut Writer, lets: bool, value: &Value) -> Result<(), AllocError>
    ensures { OnOk result (Writes w.old w.new (step rules_pieces (list_form (rule_form lets) (view value.now)))) }
{
    match list_of(value) {
        Some(values) => each(w, Part::Rule { lets }, values),
        None => {
            w.refuse();
            Ok(())
        }
    }
}

/// Writes the items.
fn items(w: &mut Writer, value: &Value) -> Result<(), AllocError>
    ensures { OnOk result (Writes w.old w.new (step items_pieces (list_form item_form (view value.now)))) }
{
    match list_of(value) {
        Some(values) => each(w, Part::Item, values),
        None => {
            w.refuse();
            Ok(())
        }
    }
}

/// Writes a script of a version with these members.
fn script_of(w: &mut Writer, version: u64, root: &Root<'_>) -> Result<(), AllocError>
    ensures { OnOk result (Writes w.old w.new
        (step script_before (V.script_of_version (root_view root.now) version))) }
{
    w.word(Gap::Tight, "version")?;
    w.put(Gap::Space, Token::Number(version))?;
    depth(w, root.depth)?;
    classes(w, root.classes)?;
    rules(w, version >= LETS_FROM, root.rules)?;
    items(w, root.items)
}

/// Writes the script in a value.
#[tactic(auto, unfolding(hp_model::specs::NotationValues::script_form))]
pub(crate) fn script(w: &mut Writer, value: &Value) -> Result<(), AllocError>
    ensures { OnOk result (Writes w.old w.new (step script_before (script_form (view value.now)))) }
{
    let Some(root) = root_of(value) else {
        w.refuse();
        return Ok(());
    };
    match natural_of(root.version) {
        Some(version) => script_of(w, version, &root),
        None => {
            w.refuse();
            Ok(())
        }
    }
}
