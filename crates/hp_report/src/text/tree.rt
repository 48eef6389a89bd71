//! The lines of trees.

ghost use Rattle.std.specs.Prelude.{◌≡◌, ◌∷◌, [], OnOk, codes, replicate};
ghost use Rattle.hp_model.specs.Tree.{no_items};
ghost use Rattle.hp_model.specs.Report.{words, line, value_text, operation_word, operation_words, firing_words};
ghost use Rattle.hp_model.specs.Report.{node_words, tree_text};
ghost use Rattle.hp_report.specs.Mapped as model;
ghost use Rattle.hp_report.specs.Text.{Gains, spaced};

use crate::names::Names;
use crate::text::objects::{put_object, put_object_name};
use crate::text::words::{cause_word, mode_word, put_ending, put_value};
use hp_tree::{ConditionEnd, Ending, Item, Operation, What};
use hp_value::{RuleOperation, Value};
use std::alloc::{AllocError, Global};
use std::fmt::Write;

/// An indent of this many spaces.
fn put_indent(out: &mut String, indent: usize) -> Result<(), AllocError>
    ensures { OnOk result (Gains out.old out.new (replicate indent 32)) }
{
    for _i in 0..indent {
        out.push_str(" ")?;
    }
    Ok(())
}

/// The word for an operation on a rule.
fn operation_word(operation: RuleOperation) -> &'static str
    ensures { result.now ≡ operation_word (model.rule_operation operation) }
{
    match operation {
        RuleOperation::Install => "install",
        RuleOperation::Enable => "enable",
        RuleOperation::Disable => "disable",
        RuleOperation::Remove => "remove",
    }
}

/// The words of an operation, each after a space.
fn put_operation(
    alloc: Global,
    out: &mut String,
    names: &Names<'_>,
    operation: &Operation,
) -> Result<(), AllocError>
    ensures { OnOk result (Gains out.old out.new
        (spaced (operation_words (model.library_of names.now) (model.operation operation.now)))) }
{
    match operation {
        Operation::Create { class, key, new } => {
            out.push_str(" create")?;
            put_object(alloc, out, names, *class, *key, new)
        }
        Operation::Update { class, key, new } => {
            out.push_str(" update")?;
            put_object(alloc, out, names, *class, *key, new)
        }
        Operation::Delete { class, key } => {
            out.push_str(" delete")?;
            put_object_name(out, names, *class, *key)
        }
        Operation::OnRule { operation, rule } => {
            let word = operation_word(*operation);
            let name = names.rule(*rule);
            write!(out, " {word} {name}")
        }
    }
}

/// How a condition and its action ended, each word after a space.
fn put_condition(
    alloc: Global,
    out: &mut String,
    names: &Names<'_>,
    condition: ConditionEnd,
    end: &Ending,
) -> Result<(), AllocError>
    ensures { OnOk result (Gains out.old out.new
        (spaced (firing_words (model.library_of names.now) (model.condition condition) (model.ending end.now)))) }
{
    match condition {
        ConditionEnd::WithoutAction => out.push_str(" unsatisfied none"),
        ConditionEnd::WithFault(cause) => {
            let word = cause_word(cause);
            write!(out, " fault {word} none")
        }
        ConditionEnd::WithAction => {
            out.push_str(" satisfied")?;
            put_ending(alloc, out, names, end)
        }
        ConditionEnd::WithLaterAction => out.push_str(" satisfied later"),
    }
}

/// The words of a node.
fn put_node(
    alloc: Global,
    out: &mut String,
    names: &Names<'_>,
    what: What,
    end: &Ending,
) -> Result<(), AllocError>
    ensures { OnOk result (Gains out.old out.new
        (words (node_words (model.library_of names.now) (model.what what) (model.ending end.now)))) }
{
    match what {
        What::Sub => {
            out.push_str("sub")?;
            put_ending(alloc, out, names, end)?;
        }
        What::Fire {
            rule,
            place,
            condition,
        } => {
            let name = names.rule(rule);
            let mode = mode_word(place);
            write!(out, "fire {name} {mode}")?;
            put_condition(alloc, out, names, condition, end)?;
        }
        What::Act { rule, place } => {
            let name = names.rule(rule);
            let mode = mode_word(place);
            write!(out, "act {name} {mode}")?;
            put_ending(alloc, out, names, end)?;
        }
    }
    Ok(())
}

/// The line of an operation.
fn put_operation_line(
    alloc: Global,
    out: &mut String,
    names: &Names<'_>,
    indent: usize,
    operation: &Operation,
) -> Result<(), AllocError>
    ensures { let library = model.library_of names.now in
        OnOk result (Gains out.old out.new
        (line indent (codes "op" ∷ operation_words library (model.operation operation.now)))) }
{
    put_indent(out, indent)?;
    out.push_str("op")?;
    put_operation(alloc, out, names, operation)?;
    out.push_str("\n")?;
    Ok(())
}

/// The line of an emitted value.
pub fn put_emit(
    alloc: Global,
    out: &mut String,
    indent: usize,
    value: &Value,
) -> Result<(), AllocError>
    ensures { OnOk result (Gains out.old out.new
        (line indent (codes "emit" ∷ value_text (model.value value.now) ∷ []))) }
{
    put_indent(out, indent)?;
    out.push_str("emit ")?;
    put_value(alloc, out, value)?;
    out.push_str("\n")?;
    Ok(())
}

/// The line of a node.
fn put_node_line(
    alloc: Global,
    out: &mut String,
    names: &Names<'_>,
    indent: usize,
    what: What,
    end: &Ending,
) -> Result<(), AllocError>
    ensures { let library = model.library_of names.now in
        OnOk result (Gains out.old out.new
        (line indent (node_words library (model.what what) (model.ending end.now)))) }
{
    put_indent(out, indent)?;
    put_node(alloc, out, names, what, end)?;
    out.push_str("\n")?;
    Ok(())
}

/// The lines of items, with an indent. The items of an inner node have an indent of two spaces more than its line.
///
/// An error means that memory ran out, since no line has room for an indent of more than a `usize` of spaces.
#[cycle(tree)]
pub fn put_items(
    alloc: Global,
    out: &mut String,
    names: &Names<'_>,
    indent: usize,
    items: &[Item],
) -> Result<(), AllocError>
    ensures { OnOk result (Gains out.old out.new
        (tree_text (model.library_of names.now) indent (model.items_in items.now))) }
{
    for item in items {
        put_item(alloc, out, names, indent, item)?;
    }
    Ok(())
}

/// The lines of one item.
#[cycle(tree)]
fn put_item(
    alloc: Global,
    out: &mut String,
    names: &Names<'_>,
    indent: usize,
    item: &Item,
) -> Result<(), AllocError>
    ensures { OnOk result (Gains out.old out.new
        (tree_text (model.library_of names.now) indent (model.before item.now no_items))) }
{
    match item {
        Item::Operation(operation) => put_operation_line(alloc, out, names, indent, operation)?,
        Item::Emit(value) => put_emit(alloc, out, indent, value)?,
        Item::Node(node) => {
            put_node_line(alloc, out, names, indent, node.what, &node.end)?;
            let inner = indent.checked_add(2).ok_or(AllocError)?;
            put_items(alloc, out, names, inner, &node.items)?;
        }
    }
    Ok(())
}
