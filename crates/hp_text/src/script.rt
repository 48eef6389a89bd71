//! Scripts.

ghost use Rattle.std.specs.Prelude.{◌≡◌, option_map};
ghost use Rattle.hp_model.specs.NotationTokens.{size};
ghost use Rattle.hp_model.specs.NotationPhrases as P;
ghost use Rattle.hp_model.specs.NotationScripts as N;
ghost use Rattle.hp_text.specs.Mapped.{node_view, tokens_view, Reads, Makes};
ghost use Rattle.hp_text.specs.Rows.{nodes_view};
ghost use Rattle.hp_text.specs.Scripts.{script_view, begins_part, phrase_of};

use crate::class::class;
use crate::fault::Stop;
use crate::item::{begins_item, end, item};
use crate::node::{Node, ScriptNode};
use crate::parts::natural;
use crate::rule::rule;
use crate::tokens::{Tokens, count, is_word, pass_word, place, skip};
use std::alloc::Global;

/// The first version in which a condition has `let`, and so no row that is called `let`.
const LET_FROM: i64 = 4;

/// Whether a condition may have a `let` in this version.
fn has_let(version: &Node) -> bool
    ensures { result ≡ N.has_let (N.integer_of (node_view version.now)) }
{
    match version {
        Node::Integer(_, number) => *number >= LET_FROM,
        _ => false,
    }
}

/// Reads `depth n`, if it is there.
fn depth(tokens: &mut Tokens<'_>) -> Result<Option<Node>, Stop>
    ensures { Reads (option_map node_view) result tokens.new (N.depth (tokens_view tokens.old)) }
{
    if !is_word("depth", tokens) {
        return Ok(None);
    }
    skip(tokens);
    Ok(Some(natural(tokens)?))
}

/// What a script has many of.
#[derive(Clone, Copy)]
pub(crate) enum Part {
    Class,
    /// A rule, and whether its condition may have a `let`.
    Rule(bool),
    Item,
}

/// Whether a part of this kind begins with the first token.
fn begins(part: Part, tokens: &Tokens<'_>) -> bool
    ensures { result ≡ P.begins (begins_part part) (tokens_view tokens.now) }
{
    match part {
        Part::Class => is_word("class", tokens),
        Part::Rule(_) => is_word("rule", tokens),
        Part::Item => begins_item(tokens),
    }
}

/// Reads a part of this kind.
fn read_part(alloc: Global, part: Part, tokens: &mut Tokens<'_>) -> Result<Node, Stop>
    ensures { Reads node_view result tokens.new (phrase_of part (tokens_view tokens.old)) }
{
    match part {
        Part::Class => class(alloc, tokens),
        Part::Rule(lets) => rule(alloc, lets, tokens),
        Part::Item => item(alloc, tokens),
    }
}

/// Reads the parts of this kind. There are no more of them than tokens.
fn repeated(alloc: Global, kind: Part, tokens: &mut Tokens<'_>) -> Result<Vec<Node>, Stop>
    ensures { Reads nodes_view result tokens.new
        (P.repeated (begins_part kind) (phrase_of kind) (size (tokens_view tokens.old)) (tokens_view tokens.old)) }
{
    let mut parts = Vec::new(alloc);
    let count = count(tokens);
    for done in 0..count {
        if !begins(kind, tokens) {
            return Ok(parts);
        }
        let part = read_part(alloc, kind, tokens)?;
        parts.push(part)?;
    }
    Ok(parts)
}

/// Reads the list of the parts of this kind.
fn all(alloc: Global, kind: Part, tokens: &mut Tokens<'_>) -> Result<Node, Stop>
    ensures { Reads node_view result tokens.new (N.all (begins_part kind) (phrase_of kind) (tokens_view tokens.old)) }
{
    let at = place(tokens);
    let parts = repeated(alloc, kind, tokens)?;
    Ok(Node::List(at, parts))
}

/// Reads a script and the end.
#[tactic(auto, unfolding(hp_model::specs::NotationScripts::script))]
pub(crate) fn script(alloc: Global, tokens: &mut Tokens<'_>) -> Result<ScriptNode, Stop>
    ensures { Makes script_view result (N.script (tokens_view tokens.old)) }
{
    let at = place(tokens);
    pass_word("version", tokens)?;
    let version = natural(tokens)?;
    let depth = depth(tokens)?;
    let classes = all(alloc, Part::Class, tokens)?;
    let rules = all(alloc, Part::Rule(has_let(&version)), tokens)?;
    let items = all(alloc, Part::Item, tokens)?;
    end(tokens)?;
    Ok(ScriptNode {
        at,
        version,
        depth,
        classes,
        rules,
        items,
    })
}
