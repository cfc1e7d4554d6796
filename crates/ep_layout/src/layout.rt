// Laws of the layout.

ghost use Rattle.std.specs.Prelude.{◌≡◌, List};
ghost use Rattle.ep_lex.specs.declared.token.Token.{Token};
ghost use Rattle.ep_lex.specs.Tokens.{AreTokens, spellings};
ghost use Rattle.ep_tree.specs.declared.tree.TaskTree.{TaskTree};
ghost use Rattle.ep_tree.specs.Bare.{bare_task};
ghost use Rattle.ep_tree.specs.Formed.{IsFormedTask};
ghost use Rattle.ep_tree.specs.Grammar.{tasks, spelling_of};
ghost use Rattle.ep_layout.specs.Layout.{layout_of, ReadsLayout};
ghost use Rattle.ep_tree.specs.Marks.{IsShallow};
ghost use Rattle.ep_tree.specs.Spelling.{task};

/// The layout of a well-formed task has tokens, which are those of the task.
pub fn layout_has_the_tokens()
    ensures some { (tree : TaskTree) → IsFormedTask tree → (ts : List Token) × AreTokens (layout_of tree) ts }
    ensures same { (tree : TaskTree) → IsFormedTask tree → (ts : List Token) → AreTokens (layout_of tree) ts →
        spellings (layout_of tree) ts ≡ spelling_of tasks tree }
{}

/// The layout of a well-formed task that is not nested too deep is read again, as the same task but for token numbers.
pub fn layout_is_read_again()
    ensures some { (tree : TaskTree) → IsFormedTask tree → IsShallow (task tree) → (found : TaskTree) × ReadsLayout tree found }
    ensures same { (tree found : TaskTree) → IsFormedTask tree → IsShallow (task tree) → ReadsLayout tree found →
        bare_task found ≡ bare_task tree }
{}
