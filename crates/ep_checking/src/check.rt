// `check FILE`.
ghost use Rattle.std.specs.Prelude.{◌≡◌, [], ◌∷◌, IfOk};
ghost use Rattle.ep_tree.specs.Formed.{IsFormedTask};
ghost use Rattle.ep_tree.specs.Marks.{IsShallow};
ghost use Rattle.ep_tree.specs.Spelling as spell;
ghost use Rattle.ep_checking.specs.Checking.{Checks, counts_of};
ghost use Rattle.ep_reading.specs.Fetches.{Fetches};
ghost use Rattle.ep_reading.specs.Run.{GoesOn};
ghost use Rattle.ep_reading.specs.Served.{TaskFile, answers};
ghost use Rattle.ep_reading.specs.Steps.{OnlyFile, Serves};
ghost use Rattle.ep_answer.specs.declared.cause.Subject.TheVariants.{Task as OfTask};

use ep_answer::{Answer, Counts, Stop};
use ep_base::OutOfMemory;
use ep_ground::Task;
use ep_io::Library;
use ep_layout::print_task;
use ep_reading::read_task_file;
use std::alloc::Global;

fn count_task(task: &Task) -> Counts
    ensures { result ≡ counts_of task.now }
{
    Counts {
        agents: task.agents(),
        objects: task.objects(),
        atoms: task.atoms(),
        actions: task.actions(),
        worlds: task.initial().worlds(),
    }
}

fn report_task(alloc: Global, task: &Task) -> Result<Answer, OutOfMemory>
    requires formed { IsFormedTask task.now.tree }
    requires shallow { IsShallow (spell.task task.now.tree) }
    ensures { IfOk result (λ answer. Checks task.now (answers answer)) }
{
    let counts = count_task(task);
    let layout = print_task(alloc, task.typed().tree())?;
    Ok(Answer::Checked { counts, layout })
}

/// The numbers of a task, and its layout.
pub fn check_task<L: Library>(alloc: Global, files: &mut L, file: &str) -> Result<Answer, Stop>
    ensures goes_on { GoesOn (L.library files.old) (L.library files.new) }
    ensures fetches { Fetches (file.now ∷ []) (L.library files.old) (L.library files.new) }
    ensures answer { Serves (λ held. TaskFile held file.now Checks) (OnlyFile OfTask file.now) ⊥ (L.library files.old) (L.library files.new) result }
{
    let task = read_task_file(alloc, files, file)?;
    let answer = report_task(alloc, &task)?;
    Ok(answer)
}
