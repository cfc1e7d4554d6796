//! Formulas of the tests, from the inside out.

use crate::problems::{ANN, HEADS};
use ep_dynamic::DynNode;
use ep_logic::{ActionId, AgentId, Agents, Boxed, List, OutOfMemory};
use std::alloc::Global;

#[derive(Clone, Copy)]
pub enum Layer {
    Not,
    Knows(AgentId),
    Common,
    After(u32),
}

fn one_more(alloc: Global, node: DynNode, layer: Layer) -> Result<DynNode, OutOfMemory> {
    let inner = Boxed::new(alloc, node)?;
    Ok(match layer {
        Layer::Not => DynNode::Not(inner),
        Layer::Knows(a) => DynNode::Knows(a, inner),
        Layer::Common => DynNode::Common(Agents::first(2), inner),
        Layer::After(n) => DynNode::After(ActionId { n }, inner),
    })
}

/// The formula under the layers, of which the first is the innermost.
pub fn under(alloc: Global, inner: DynNode, layers: &[Layer]) -> Result<DynNode, OutOfMemory> {
    let mut node = inner;
    for layer in layers {
        node = one_more(alloc, node, *layer)?;
    }
    Ok(node)
}

/// The formula under the layer so many times.
pub fn often(
    alloc: Global,
    inner: DynNode,
    layer: Layer,
    times: u32,
) -> Result<DynNode, OutOfMemory> {
    let mut node = inner;
    for _k in 0..times {
        node = one_more(alloc, node, layer)?;
    }
    Ok(node)
}

pub fn heads() -> DynNode {
    DynNode::Atom(HEADS)
}

/// That Ann knows which side is up.
pub fn ann_knows_whether(alloc: Global) -> Result<DynNode, OutOfMemory> {
    let mut parts = List::new(alloc);
    parts.push(under(alloc, heads(), &[Layer::Knows(ANN)])?)?;
    parts.push(under(alloc, heads(), &[Layer::Not, Layer::Knows(ANN)])?)?;
    Ok(DynNode::Or(parts))
}
