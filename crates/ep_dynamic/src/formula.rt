ghost use Rattle.std.specs.Prelude.{◌≡◌, ◌↔◌, ◌≤◌, suc, None, Some, if◌then◌else◌, nat_le, length, IsTrue};
ghost use Rattle.std.specs.List.{list_all};
ghost use Rattle.ep_logic.specs.declared.limits.TheConstants.{MOST_AGENTS};
ghost use Rattle.ep_dynamic.specs.Depths.{dynamic_depth};
ghost use Rattle.ep_dynamic.specs.DynamicFits.{fits_task};
ghost use Rattle.ep_dynamic.specs.DynamicLabels.{FitsTask};

use crate::node::DynNode;
use ep_logic::List;
use ep_problem::Problem;
use std::marker::Model;

/// The greatest depth of a formula that looks ahead.
pub const MOST_DYNAMIC_DEPTH: u32 = 64;

/// A tree of depth at most 64. Contracts see it as its root.
#[derive(Debug)]
pub struct DynFormula {
    node: DynNode,
}

impl Drop for DynFormula {
    fn drop(self) {
        let DynFormula { node: _node } = self;
    }
}

impl Model for DynFormula {
    ghost use Rattle.std.specs.Prelude.{◌≤◌};
    ghost use Rattle.std.specs.Coded.{codes};
    ghost use Rattle.ep_dynamic.specs.declared.node.DynNode.{DynNode};
    ghost use Rattle.ep_dynamic.specs.contracts.node.DynNode as e;
    ghost use Rattle.ep_dynamic.specs.declared.formula.TheConstants.{MOST_DYNAMIC_DEPTH};
    ghost use Rattle.ep_dynamic.specs.Depths.{dynamic_depth};

    ghost Value = { DynNode };

    ghost coded = { Prim.hlevel (codes, e.the_row.coded) };

    ghost view = { λ f. f.node };

    ghost invariant = { λ f. dynamic_depth f.node ≤ MOST_DYNAMIC_DEPTH };
}

impl DynFormula {
    ghost use Rattle.ep_dynamic.specs.declared.formula.TheConstants.{MOST_DYNAMIC_DEPTH};

    /// The formula of this tree, where its depth is at most 64. It takes no memory.
    pub fn new(node: DynNode) -> Option<DynFormula>
        ensures { result ≡ (if nat_le (dynamic_depth node) MOST_DYNAMIC_DEPTH then Some node else None) }
    {
        if is_within(&node, MOST_DYNAMIC_DEPTH) {
            Some(DynFormula { node })
        } else {
            None
        }
    }

    /// The root.
    pub fn node(&self) -> &DynNode
        ensures value { result.now ≡ self.now }
        ensures shallow { dynamic_depth self.now ≤ MOST_DYNAMIC_DEPTH }
    {
        &self.node
    }

    /// Whether every agent, atom and action of the formula is one of the problem. It takes no memory.
    pub fn fits_problem(&self, task: &Problem) -> bool
        ensures { IsTrue result ↔ FitsTask task.now self.now }
    {
        let state = task.initial();
        fits_node(state.agents(), state.atoms(), task.actions(), &self.node)
    }
}

// Whether the tree has at most so many levels.
#[cycle(within)]
fn is_within(node: &DynNode, depth: u32) -> bool
    ensures { result ≡ nat_le (dynamic_depth node.now) depth }
{
    if depth == 0 {
        return false;
    }
    match node {
        DynNode::True => true,
        DynNode::False => true,
        DynNode::Atom(_) => true,
        DynNode::Not(inner) => is_within(inner.get(), depth - 1),
        DynNode::And(parts) => are_within(parts, depth - 1),
        DynNode::Or(parts) => are_within(parts, depth - 1),
        DynNode::Knows(_, inner) => is_within(inner.get(), depth - 1),
        DynNode::Common(_, inner) => is_within(inner.get(), depth - 1),
        DynNode::After(_, inner) => is_within(inner.get(), depth - 1),
    }
}

#[cycle(within)]
fn are_within(parts: &List<DynNode>, depth: u32) -> bool
    ensures { result ≡ list_all (λ f. nat_le (dynamic_depth f) depth) parts.now }
{
    for part in parts.as_slice() {
        if !is_within(part, depth) {
            return false;
        }
    }
    true
}

#[cycle(fit)]
#[tactic(auto, using(crate::proofs::DynamicLemmas::fit_laws))]
fn fits_node(agents: u32, atoms: u32, actions: u32, node: &DynNode) -> bool
    requires { agents ≤ MOST_AGENTS }
    ensures { result ≡ fits_task agents atoms actions node.now }
{
    match node {
        DynNode::True | DynNode::False => true,
        DynNode::Atom(p) => p.n < atoms,
        DynNode::Not(inner) => fits_node(agents, atoms, actions, inner.get()),
        DynNode::And(parts) => fit_nodes(agents, atoms, actions, parts),
        DynNode::Or(parts) => fit_nodes(agents, atoms, actions, parts),
        DynNode::Knows(a, inner) => {
            a.n < agents && fits_node(agents, atoms, actions, inner.get())
        }
        DynNode::Common(group, inner) => {
            group.is_within(agents) && fits_node(agents, atoms, actions, inner.get())
        }
        DynNode::After(a, inner) => {
            a.n < actions && fits_node(agents, atoms, actions, inner.get())
        }
    }
}

#[cycle(fit)]
fn fit_nodes(agents: u32, atoms: u32, actions: u32, parts: &List<DynNode>) -> bool
    requires { agents ≤ MOST_AGENTS }
    ensures { result ≡ list_all (fits_task agents atoms actions) parts.now }
{
    for part in parts.as_slice() {
        if !fits_node(agents, atoms, actions, part) {
            return false;
        }
    }
    true
}
