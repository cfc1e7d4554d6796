//! What the names of ground actions tell.

ghost use Rattle.std.specs.Prelude.{List};
ghost use Rattle.ep_binding.specs.Bindings.{IsApart};
ghost use Rattle.ep_tree.specs.declared.tree.SchemaTree.{SchemaTree};
ghost use Rattle.ep_types.specs.declared.scope.Declared.{Declared};
ghost use Rattle.ep_schema.specs.ActionNames.{AreNames, action_names};

/// Where the declared names differ and are plain, the printed names of ground actions differ.
pub fn action_names_differ()
    ensures { (d : Declared) (schemas : List SchemaTree) → AreNames d schemas → IsApart (action_names d schemas) }
{}
