// The parts of a goal.

ghost use Rattle.std.specs.Prelude.{◌≡◌, ◌<◌, ◌≤◌, ◌^◌, IfOk, IsTrue, length, map, sum};
ghost use Rattle.std.specs.List.{list_all};
ghost use Rattle.ep_logic.specs.declared.formula.TheConstants.{MOST_NODES};
ghost use Rattle.ep_logic.specs.Nodes.{is_formed, node_count};
ghost use Rattle.ep_search.specs.Conjuncts.{AreParts};

use ep_logic::{Formula, FormulaError, List, Node, OutOfMemory};
use std::alloc::Global;

// The parts of the goal, as formulas of their own.
pub fn goal_parts(alloc: Global, goal: &Formula) -> Result<List<Formula>, OutOfMemory>
    ensures value { IfOk result (AreParts goal.now) }
    ensures few { IfOk result (λ parts. length parts < 2 ^ 32) }
{
    if let Node::And(parts) = goal.node() {
        return copy_parts(alloc, parts);
    }
    let mut parts = List::new(alloc);
    parts.push(goal.copy(alloc)?)?;
    Ok(parts)
}

// The formula with this tree, which is a part of one and so within the limits. It recurses as deep as the tree.
#[cycle(copies)]
fn copy_part(alloc: Global, node: &Node) -> Result<Formula, OutOfMemory>
    requires formed { IsTrue (is_formed node.now) }
    requires small { node_count node.now ≤ MOST_NODES }
    ensures { IfOk result (λ f. f ≡ node.now) }
{
    match node {
        Node::True => Ok(Formula::truth(true)),
        Node::False => Ok(Formula::truth(false)),
        Node::Atom(a) => Ok(Formula::atom(*a)),
        Node::Not(inner) => built(Formula::not(alloc, copy_part(alloc, inner.get())?)),
        Node::And(parts) => built(Formula::and(alloc, copy_parts(alloc, parts)?)),
        Node::Or(parts) => built(Formula::or(alloc, copy_parts(alloc, parts)?)),
        Node::Knows(a, inner) => built(Formula::knows(alloc, *a, copy_part(alloc, inner.get())?)),
        Node::Common(group, inner) => {
            built(Formula::common(alloc, *group, copy_part(alloc, inner.get())?))
        }
    }
}

#[cycle(copies)]
fn copy_parts(alloc: Global, parts: &List<Node>) -> Result<List<Formula>, OutOfMemory>
    requires formed { IsTrue (list_all is_formed parts.now) }
    requires small { sum (map node_count parts.now) ≤ MOST_NODES }
    ensures value { IfOk result (λ copies. copies ≡ parts.now) }
    ensures few { length parts.now < 2 ^ 32 }
{
    let mut copies = List::new(alloc);
    for part in parts.as_slice() {
        copies.push(copy_part(alloc, part)?)?;
    }
    Ok(copies)
}

// A formula whose tree is within the limits is refused for want of memory alone.
fn built(made: Result<Formula, FormulaError>) -> Result<Formula, OutOfMemory>
    ensures { IfOk result (λ f. made ≡ Ok f) }
{
    match made {
        Ok(formula) => Ok(formula),
        Err(_error) => Err(OutOfMemory {}),
    }
}
