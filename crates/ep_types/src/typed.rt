//! Checked tasks.

ghost use Rattle.std.specs.Prelude.{◌≡◌, ◌<◌, ◌↔◌, length, position, slice_get, Some, IsTrue, IfOk, IfErr};
ghost use Rattle.ep_base.specs.Refusals.{Reports};
ghost use Rattle.ep_tree.specs.Grammar.{IsRead};
ghost use Rattle.ep_types.specs.Faults.{IsJudged, first_error};
ghost use Rattle.ep_types.specs.Names.{is_below, is_text, names_of, values_of, Reaches};
ghost use Rattle.ep_types.specs.Places.{closed};
ghost use Rattle.ep_types.specs.Tasks.{HasNoFault, declarations, task_uses};
ghost use Rattle.ep_types.specs.Uses.{formula_uses};

use crate::fault::TypeError;
use crate::scope::Declared;
use crate::task::{check_closed_formula, check_task};
use ep_base::List;
use ep_tree::{FormulaTree, TaskTree};
use std::alloc::Global;
use std::marker::Model;

/// A task with no fault, whose tree reads some tokens. Contracts see it as its tree.
pub struct Typed {
    tree: TaskTree,
    names: Declared,
}

impl Drop for Typed {
    fn drop(self) {
        let Typed {
            tree: _tree,
            names: _names,
        } = self;
    }
}

impl Model for Typed {
    ghost use Rattle.ep_tree.specs.declared.tree.TaskTree.{TaskTree};
    ghost use Rattle.ep_tree.specs.contracts.tree.TaskTree as trees;

    ghost Value = { TaskTree };

    ghost coded = { trees.the_row.coded };

    ghost use Rattle.std.specs.Prelude.{◌≡◌};
    ghost use Rattle.ep_tree.specs.Grammar.{IsRead};
    ghost use Rattle.ep_types.specs.Tasks.{HasNoFault, declarations};

    ghost view = { λ t. t.tree };

    ghost invariant = { λ t. (t.names ≡ declarations t.tree) × HasNoFault t.tree × IsRead t.tree };
}

impl Typed {
    /// What is known of every typed task. It does nothing: a proof calls it where the code asks nothing of the task.
    pub fn known(&self)
        ensures typed { HasNoFault self.now }
        ensures read { IsRead self.now }
    {
        let _tree = &self.tree;
    }

    /// The checked tree.
    pub fn tree(&self) -> &TaskTree
        ensures tree { result.now ≡ self.now }
        ensures typed { HasNoFault self.now }
        ensures read { IsRead self.now }
    {
        &self.tree
    }

    /// How many objects are declared.
    pub fn object_count(&self) -> usize
        ensures { result ≡ length (declarations self.now).objects }
    {
        self.names.objects.len()
    }

    /// The name of an object, by its number in order of declaration.
    pub fn object_name(&self, number: usize) -> &[u8]
        requires { number < length (declarations self.now).objects }
        ensures { slice_get (names_of (declarations self.now).objects) number ≡ Some result.now }
    {
        self.names.objects.name(number)
    }

    /// The declared type of an object.
    pub fn object_type(&self, number: usize) -> &[u8]
        requires { number < length (declarations self.now).objects }
        ensures { slice_get (values_of (declarations self.now).objects) number ≡ Some result.now }
    {
        self.names.objects.value(number).as_slice()
    }

    /// The number of the object with a name, by one look-up.
    pub fn find_object(&self, name: &[u8]) -> Option<usize>
        ensures { result ≡ position (is_text name.now) (names_of (declarations self.now).objects) }
    {
        self.names.objects.index(name)
    }

    /// The number of the fluent with a name, in order of declaration, by one look-up.
    pub fn find_fluent(&self, name: &[u8]) -> Option<usize>
        ensures { result ≡ position (is_text name.now) (names_of (declarations self.now).fluents) }
    {
        self.names.fluents.index(name)
    }

    /// The types of a fluent's parameters, by its number.
    pub fn fluent_types(&self, number: usize) -> &[List<u8>]
        requires { number < length (declarations self.now).fluents }
        ensures { slice_get (values_of (declarations self.now).fluents) number ≡ Some result.now }
    {
        self.names.fluents.value(number).as_slice()
    }

    /// Whether a type is another one or below it, which is whether it reaches it through parents.
    pub fn is_below(&self, kind: &[u8], above: &[u8]) -> bool
        ensures value { result ≡ is_below (declarations self.now).types kind.now above.now }
        ensures reaches { IsTrue result ↔ Reaches (declarations self.now).types kind.now above.now }
    {
        self.names.types.is_below(kind, above)
    }
}

/// Checks a task that is read: the answer is its tree with a look-up of its names, or its first fault in file order.
pub fn check(alloc: Global, tree: TaskTree) -> Result<Typed, TypeError>
    requires { IsRead tree }
    ensures tree { IfOk result (λ typed. typed ≡ tree) }
    ensures typed { IfOk result (λ _. HasNoFault tree) }
    ensures fault { IfErr result (Reports TypeError.OutOfMemory (first_error (task_uses tree))) }
{
    let names = check_task(alloc, &tree)?;
    Ok(Typed { tree, names })
}

/// Checks a formula by the names of a checked task, where no parameter is in force at its start.
pub fn check_formula(alloc: Global, typed: &Typed, f: &FormulaTree) -> Result<(), TypeError>
    ensures { IsJudged (formula_uses f.now (closed (declarations typed.now))) result }
{
    check_closed_formula(alloc, &typed.names, f)
}
