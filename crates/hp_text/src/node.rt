//! Values with their places in a text.

ghost use Rattle.std.specs.Prelude.{◌≡◌, map, IfOk};
ghost use Rattle.hp_model.specs.NotationTree as T;
ghost use Rattle.hp_text.specs.Mapped.{node_view};

use std::alloc::{AllocError, Global};

/// A value as JSON has it, and the offset of each value within: how many bytes stand before it in the text.
///
/// A tag, as `"of"`, has the offset of its list. What isn't in the text, as a mode that is left out, has the offset of
/// the token that stands there.
#[derive(Debug, Drop)]
pub enum Node {
    /// A number.
    Integer(usize, i64),
    /// `true` or `false`.
    Truth(usize, bool),
    /// A text, a name or a tag.
    Text(usize, String),
    /// A list.
    List(usize, Vec<Node>),
}

/// A script as JSON has it, with the offset of each value within.
#[derive(Debug, Drop)]
pub struct ScriptNode {
    /// How many bytes stand before the script.
    pub at: usize,
    pub version: Node,
    pub depth: Option<Node>,
    pub classes: Node,
    pub rules: Node,
    pub items: Node,
}

/// The offset of a value: how many bytes stand before it in the text.
pub fn offset(node: &Node) -> usize
    ensures { result ≡ T.offset (node_view node.now) }
{
    match node {
        Node::Integer(at, _) => *at,
        Node::Truth(at, _) => *at,
        Node::Text(at, _) => *at,
        Node::List(at, _) => *at,
    }
}

/// A text, a name or a tag.
pub(crate) fn text_node(alloc: Global, at: usize, text: &str) -> Result<Node, AllocError>
    ensures { IfOk result (λ n. node_view n ≡ T.text at text.now) }
{
    Ok(Node::Text(at, String::from_str(alloc, text)?))
}

/// A list of a few values.
pub(crate) fn list_node<const N: usize>(
    alloc: Global,
    at: usize,
    nodes: [Node; N],
) -> Result<Node, AllocError>
    ensures { IfOk result (λ n. node_view n ≡ T.list at (T.nodes (map node_view nodes.entry))) }
{
    Ok(Node::List(at, Vec::from_array(alloc, nodes)?))
}
