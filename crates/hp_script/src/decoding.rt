//! Reading a script from its bytes.

ghost use Rattle.std.specs.Prelude.{◌≡◌, ◌≤◌, ◌<◌, codes, length, map, option_map, IfOk};
ghost use Rattle.serde_json.specs.View.{view};
ghost use Rattle.hp_model.specs.Refusals.{under_root};
ghost use Rattle.hp_model.specs.Decode.{wanted_count, root_of, rules_at, script_scope, decode, script_of};
ghost use Rattle.hp_value.specs.Mapped.{class_def};
ghost use Rattle.hp_rule.specs.Mapped.{library as model_library, rule};
ghost use Rattle.hp_script.specs.Forms.{heads_view, root_view};
ghost use Rattle.hp_script.specs.Items.{items_over};
ghost use Rattle.hp_script.specs.Mapped.{Gives, schedule, script, timed_script};
ghost use Rattle.hp_script.specs.OwnBodies.{AreOf};
ghost use Rattle.hp_script.specs.Timed.{library_at, timed_script_at, timed_script_of};
ghost use Rattle.hp_script.specs.Versions.{version_view};

use crate::class::classes_at;
use crate::item::units_at;
use crate::json::{json_at, member_count};
use crate::names::Names;
use crate::refusal::{DecodeError, Refusal, shaped};
use crate::rule::rules_at;
use crate::rule_head::{RuleHead, rule_heads_at};
use crate::schedule::Schedule;
use crate::scope::Scope;
use crate::script::Script;
use crate::version::{Version, depth_if_any, version_at};
use hp_rule::{Library, Limit, Member, Place, Rule};
use hp_value::ClassDef;
use serde_json::Value;
use std::alloc::Global;
use std::sync::Arc;

/// The most bytes that a script may have.
pub(crate) const MAX_BYTES: usize = 1_048_576;

/// The members of the root.
#[derive(Clone, Copy)]
pub(crate) struct Root<'a> {
    pub version: &'a Value,
    pub depth: Option<&'a Value>,
    pub classes: &'a Value,
    pub rules: &'a Value,
    pub items: &'a Value,
}

/// How many members a whole root has.
fn wanted_count(depth: Option<&Value>) -> usize
    ensures { result ≡ wanted_count (option_map (λ v. view v.now) depth.entry) }
{
    match depth {
        None => 4,
        Some(_) => 5,
    }
}

/// The members of the root, if it has all of them and no others.
fn root_of(value: &Value) -> Option<Root<'_>>
    ensures { option_map root_view result ≡ root_of (view value.now) }
{
    let count = member_count(value)?;
    let depth = value.get("depth");
    if count != wanted_count(depth) {
        return None;
    }
    Some(Root {
        version: value.get("version")?,
        depth,
        classes: value.get("classes")?,
        rules: value.get("rules")?,
        items: value.get("items")?,
    })
}

/// The rules with these heads, over these classes.
fn rules_of(
    alloc: Global,
    version: Version,
    classes: &[ClassDef],
    heads: &[RuleHead<'_>],
) -> Result<Vec<Rule>, DecodeError>
    requires few_classes { length classes.now ≤ 64 }
    requires few_rules { length heads.now ≤ 256 }
    ensures { let scope = script_scope (map class_def classes.now) (heads_view heads.entry.now) in
        Gives (λ rules. map rule rules.items) result
        (rules_at (version_view version) scope (under_root (codes "rules")) (heads_view heads.entry.now)) }
{
    let scope = Scope {
        version,
        classes,
        rules: Names::Heads(heads),
        condition: &[],
        in_action: false,
    };
    rules_at(alloc, &Place::Member(Member::Rules), &scope, heads)
}

/// The units that the script's items run.
fn items_of(
    alloc: Global,
    version: Version,
    library: &Arc<Library>,
    value: &Value,
) -> Result<Schedule, DecodeError>
    ensures own { IfOk result (λ s. AreOf library.now.value s.units.items) }
    ensures reads { Gives schedule result
        (items_over (version_view version) (model_library library.now.value) (under_root (codes "items"))
        (view value.now)) }
{
    units_at(
        alloc,
        &Place::Member(Member::Items),
        version,
        library,
        value,
    )
}

/// The library in the root's members.
#[tactic(auto, unfolding(crate::specs::Timed::library_at))]
fn library_of(alloc: Global, version: Version, root: &Root<'_>) -> Result<Arc<Library>, DecodeError>
    ensures { Gives (λ l. model_library l.value) result
        (library_at (version_view version) (root_view root.entry.now)) }
{
    let depth_limit = depth_if_any(alloc, &Place::Member(Member::Depth), root.depth)?;
    let classes = classes_at(alloc, &Place::Member(Member::Classes), root.classes)?;
    let heads = rule_heads_at(alloc, &Place::Member(Member::Rules), version, root.rules)?;
    let rules = rules_of(alloc, version, classes.as_slice(), heads.as_slice())?;
    let library = Library::of_checked(alloc, classes, rules, depth_limit)?;
    Ok(Arc::new(alloc, library)?)
}

/// The script in a JSON value.
#[tactic(auto, unfolding(crate::specs::Timed::timed_script_at))]
fn script_at(alloc: Global, value: &Value) -> Result<Script, DecodeError>
    ensures own { IfOk result (λ s. AreOf s.library.value s.items.items) }
    ensures reads { Gives timed_script result (timed_script_at (view value.now)) }
{
    let root = shaped(alloc, &Place::Root, root_of(value))?;
    let version = version_at(alloc, &Place::Member(Member::Version), root.version)?;
    let library = library_of(alloc, version, &root)?;
    let schedule = items_of(alloc, version, &library, root.items)?;
    Ok(Script {
        version,
        library,
        items: schedule.units,
        clock: schedule.clock,
    })
}

/// Reads a script from its JSON value, however the value was written. The bodies of the script are checked against its
/// own library.
///
/// `Refused` has the first fault, in the order of the checks of `decode` after the JSON text. `Memory` means that
/// memory ran out.
pub fn decode_value(alloc: Global, value: &Value) -> Result<Script, DecodeError>
    ensures reads { Gives script result (decode (view value.now)) }
    ensures timed { Gives timed_script result (timed_script_at (view value.now)) }
    ensures own { IfOk result (λ s. AreOf s.library.value s.items.items) }
{
    script_at(alloc, value)
}

/// The script in the bytes, unless they are too many.
#[tactic(auto, unfolding(crate::specs::Timed::timed_script_of))]
fn script_in(alloc: Global, bytes: &[u8]) -> Result<Script, DecodeError>
    ensures timed { Gives timed_script result (timed_script_of bytes.now) }
    ensures own { IfOk result (λ s. AreOf s.library.value s.items.items) }
    ensures too_long { 1048576 < length bytes.now → result ≡ Err (DecodeError.Refused (Refusal.S5 Limit.Size)) }
{
    if bytes.len() > MAX_BYTES {
        return Err(DecodeError::Refused(Refusal::S5(Limit::Size)));
    }
    let value = json_at(alloc, bytes)?;
    script_at(alloc, &value)
}

/// Reads a script from its bytes. The bodies of the script are checked against its own library.
///
/// `Refused` has the first fault, in the order of the grammar's checks: the size, the JSON text, the root's members,
/// the version, the depth limit, the classes, the form and name of each rule, the other parts of each rule, and the
/// items. `Memory` means that memory ran out. More than 1,048,576 bytes are refused before any memory is allocated, so
/// with `Memory` the bytes are at most that many, and may or may not be a script.
pub fn decode(alloc: Global, bytes: &[u8]) -> Result<Script, DecodeError>
    ensures reads { Gives script result (script_of bytes.now) }
    ensures timed { Gives timed_script result (timed_script_of bytes.now) }
    ensures own { IfOk result (λ s. AreOf s.library.value s.items.items) }
    ensures too_long { 1048576 < length bytes.now → result ≡ Err (DecodeError.Refused (Refusal.S5 Limit.Size)) }
{
    script_in(alloc, bytes)
}
