//! Trees of tasks, formulas and plan files, as they are written.
//! Each name, and each field `token`, keeps the number of its token.

use ep_base::{Boxed, List, Text};

/// A word that is not reserved.
#[derive(Drop)]
pub struct Name {
    pub token: u32,
    pub text: Text,
}

/// `s5` is whether the relations are to be equivalences, as `frames s5;` says. `types` is there where the part is written,
/// even if it is empty.
pub struct TaskTree {
    pub name: Name,
    pub s5: bool,
    pub types: Option<List<TypeTree>>,
    pub objects: List<ObjectTree>,
    pub fluents: List<FluentTree>,
    pub init: InitTree,
    pub schemas: List<SchemaTree>,
    pub goal: FormulaTree,
}

impl Drop for TaskTree {
    fn drop(self) {
        let TaskTree {
            name: _name,
            s5: _s5,
            types: _types,
            objects: _objects,
            fluents: _fluents,
            init: _init,
            schemas: _schemas,
            goal: _goal,
        } = self;
    }
}

#[derive(Drop)]
pub struct TypeTree {
    pub name: Name,
    pub parent: Name,
}

/// One or more objects of one type.
#[derive(Drop)]
pub struct ObjectTree {
    pub names: List<Name>,
    pub kind: Name,
}

/// A fluent with the types of its parameters.
#[derive(Drop)]
pub struct FluentTree {
    pub name: Name,
    pub kinds: List<Name>,
}

#[derive(Drop)]
pub struct AtomTree {
    pub name: Name,
    pub args: List<Name>,
}

/// `token` is the word `all`, or the opening brace.
#[derive(Drop)]
pub enum GroupTree {
    All { token: u32 },
    Members { token: u32, names: List<Name> },
}

#[derive(Drop)]
pub struct PairTree {
    pub from: Name,
    pub to: Name,
}

#[derive(Drop)]
pub enum PairsTree {
    All,
    Same,
    Listed(List<PairTree>),
}

#[derive(Drop)]
pub struct LinkTree {
    pub group: GroupTree,
    pub pairs: PairsTree,
}

#[derive(Drop)]
pub struct WorldTree {
    pub name: Name,
    pub atoms: List<AtomTree>,
}

#[derive(Drop)]
pub struct SeesTree {
    pub group: GroupTree,
    pub atoms: List<AtomTree>,
}

pub enum InitTree {
    Explicit {
        worlds: List<WorldTree>,
        designated: List<Name>,
        links: List<LinkTree>,
    },
    Lawful {
        vary: List<AtomTree>,
        facts: Option<List<AtomTree>>,
        law: FormulaTree,
        sees: List<SeesTree>,
        designated: FormulaTree,
    },
}

impl Drop for InitTree {
    fn drop(self) {
        match self {
            InitTree::Explicit {
                worlds: _worlds,
                designated: _designated,
                links: _links,
            } => {}
            InitTree::Lawful {
                vary: _vary,
                facts: _facts,
                law: _law,
                sees: _sees,
                designated: _designated,
            } => {}
        }
    }
}

#[derive(Drop)]
pub struct ParamTree {
    pub name: Name,
    pub kind: Name,
}

#[derive(Drop)]
pub struct SetTree {
    pub atom: AtomTree,
    pub value: FormulaTree,
}

pub struct EventTree {
    pub name: Name,
    pub pre: FormulaTree,
    pub sets: List<SetTree>,
}

impl Drop for EventTree {
    fn drop(self) {
        let EventTree {
            name: _name,
            pre: _pre,
            sets: _sets,
        } = self;
    }
}

pub enum BodyTree {
    Announce {
        what: FormulaTree,
    },
    Private {
        what: FormulaTree,
        group: GroupTree,
    },
    Sense {
        what: FormulaTree,
        group: GroupTree,
    },
    Assign {
        guard: FormulaTree,
        sets: List<SetTree>,
    },
    Events {
        events: List<EventTree>,
        designated: List<Name>,
        links: List<LinkTree>,
    },
}

impl Drop for BodyTree {
    fn drop(self) {
        match self {
            BodyTree::Announce { what: _what } => {}
            BodyTree::Private {
                what: _what,
                group: _group,
            } => {}
            BodyTree::Sense {
                what: _what,
                group: _group,
            } => {}
            BodyTree::Assign {
                guard: _guard,
                sets: _sets,
            } => {}
            BodyTree::Events {
                events: _events,
                designated: _designated,
                links: _links,
            } => {}
        }
    }
}

/// `distinct` is false where there is no parameter. `cost` is the stated cost, 1 to 100.
pub struct SchemaTree {
    pub name: Name,
    pub params: List<ParamTree>,
    pub distinct: bool,
    pub cost: Option<u32>,
    pub body: BodyTree,
}

impl Drop for SchemaTree {
    fn drop(self) {
        let SchemaTree {
            name: _name,
            params: _params,
            distinct: _distinct,
            cost: _cost,
            body: _body,
        } = self;
    }
}

/// `And` and `Or` have at least two parts. `token` is the formula's first token.
#[derive(Drop)]
pub enum FormulaTree {
    True {
        token: u32,
    },
    False {
        token: u32,
    },
    Atom {
        atom: AtomTree,
    },
    Not {
        token: u32,
        inner: Boxed<FormulaTree>,
    },
    Knows {
        token: u32,
        agent: Name,
        inner: Boxed<FormulaTree>,
    },
    Common {
        token: u32,
        group: GroupTree,
        inner: Boxed<FormulaTree>,
    },
    Forall {
        token: u32,
        params: List<ParamTree>,
        inner: Boxed<FormulaTree>,
    },
    Exists {
        token: u32,
        params: List<ParamTree>,
        inner: Boxed<FormulaTree>,
    },
    Equal {
        token: u32,
        left: Name,
        right: Name,
    },
    Paren {
        token: u32,
        inner: Boxed<FormulaTree>,
    },
    And {
        token: u32,
        parts: List<FormulaTree>,
    },
    Or {
        token: u32,
        parts: List<FormulaTree>,
    },
}

#[derive(Drop)]
pub struct CallTree {
    pub name: Name,
    pub args: List<Name>,
}

/// `cost` is the stated cost of the plan, which files of version 2 have, and `count` the stated number of calls; both are
/// below 10^9.
#[derive(Drop)]
pub struct PlanTree {
    pub task: Name,
    pub cost: Option<u32>,
    pub count: u32,
    pub calls: List<CallTree>,
}
