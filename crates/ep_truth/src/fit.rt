ghost use Rattle.std.specs.Prelude.{◌≡◌, ◌≤◌, ◌↔◌, IsTrue};
ghost use Rattle.std.specs.List.{list_all};
ghost use Rattle.ep_logic.specs.declared.limits.TheConstants.{MOST_AGENTS};
ghost use Rattle.ep_theory.specs.Fits.{Fits, fits_in};

use ep_kripke::State;
use ep_logic::{Formula, List, Node};

/// Whether every agent and atom of the formula is one of the state. It takes no memory.
pub fn fits(s: &State, f: &Formula) -> bool
    ensures { IsTrue result ↔ Fits s.now f.now }
{
    fits_node(s.agents(), s.atoms(), f.node())
}

#[cycle(fit)]
#[tactic(auto, using(crate::proofs::FitLemmas::fit_laws))]
fn fits_node(agents: u32, atoms: u32, node: &Node) -> bool
    requires { agents ≤ MOST_AGENTS }
    ensures { result ≡ fits_in agents atoms node.now }
{
    match node {
        Node::True | Node::False => true,
        Node::Atom(p) => p.n < atoms,
        Node::Not(inner) => fits_node(agents, atoms, inner.get()),
        Node::And(parts) => fit_nodes(agents, atoms, parts),
        Node::Or(parts) => fit_nodes(agents, atoms, parts),
        Node::Knows(a, inner) => a.n < agents && fits_node(agents, atoms, inner.get()),
        Node::Common(group, inner) => {
            group.is_within(agents) && fits_node(agents, atoms, inner.get())
        }
    }
}

#[cycle(fit)]
fn fit_nodes(agents: u32, atoms: u32, parts: &List<Node>) -> bool
    requires { agents ≤ MOST_AGENTS }
    ensures { result ≡ list_all (fits_in agents atoms) parts.now }
{
    for part in parts.as_slice() {
        if !fits_node(agents, atoms, part) {
            return false;
        }
    }
    true
}
