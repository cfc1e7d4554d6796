// A task and two plans: both are read and run, and what they leave is compared.
ghost use Rattle.std.specs.Prelude.{◌∷◌, ◌++◌};
ghost use Rattle.ep_compare.specs.Comparing.{BothPlans, Compared, CompareWork, IsComparable, TaskAndPlans, TwoPlans};
ghost use Rattle.ep_reading.specs.Fetches.{Fetches, plan_files};
ghost use Rattle.ep_reading.specs.PlanFile.{PlanFile, Ran};
ghost use Rattle.ep_reading.specs.Run.{GoesOn};
ghost use Rattle.ep_reading.specs.Steps.{OnlyPlan, Serves};
ghost use Rattle.ep_answer.specs.declared.cause.Subject.TheVariants.{SecondPlan as OfSecond};
ghost use Rattle.ep_answer.specs.declared.run_stop.Whose.TheVariants.{Second};

use crate::comparison::Comparison;
use crate::states::compare_states;
use ep_answer::{Answer, Stop, Subject, Whose};
use ep_ground::Task;
use ep_io::Library;
use ep_kripke::State;
use ep_reading::{read_plan_file, read_task_file, run_to_end};
use std::alloc::Global;

// What the second plan leaves, compared with what the first one left.
#[tactic(auto, using(crate::proofs::CompareLemmas::comparable))]
fn compare_with_second<L: Library>(
    alloc: Global,
    files: &mut L,
    task: &Task,
    first: &State,
    word: &str,
    comparison: Comparison,
) -> Result<Answer, Stop>
    requires { IsComparable task.now first.now }
    ensures goes_on { GoesOn (L.library files.old) (L.library files.new) }
    ensures fetches { Fetches (plan_files word.now) (L.library files.old) (L.library files.new) }
    ensures answer { Serves (λ held. PlanFile held OfSecond word.now task.now (λ q. Ran Second task.now q (Compared comparison task.now first.now))) (OnlyPlan OfSecond word.now) ⊥ (L.library files.old) (L.library files.new) result }
{
    let plan = read_plan_file(alloc, files, Subject::SecondPlan, task, word)?;
    let second = run_to_end(alloc, task, Whose::Second, &plan)?;
    compare_states(alloc, task, first, &second, comparison)
}

// What the plans leave, compared.
#[tactic(auto, using(crate::proofs::CompareLemmas::comparable))]
fn compare_both<L: Library>(
    alloc: Global,
    files: &mut L,
    task: &Task,
    one: &str,
    two: &str,
    comparison: Comparison,
) -> Result<Answer, Stop>
    ensures goes_on { GoesOn (L.library files.old) (L.library files.new) }
    ensures fetches { Fetches (plan_files one.now ++ plan_files two.now) (L.library files.old) (L.library files.new) }
    ensures answer { Serves (λ held. TwoPlans held comparison one.now two.now task.now) (BothPlans one.now two.now) ⊥ (L.library files.old) (L.library files.new) result }
{
    let plan = read_plan_file(alloc, files, Subject::FirstPlan, task, one)?;
    let first = run_to_end(alloc, task, Whose::First, &plan)?;
    compare_with_second(alloc, files, task, &first, two, comparison)
}

/// Compares what the plans leave.
pub fn compare_plans<L: Library>(
    alloc: Global,
    files: &mut L,
    file: &str,
    one: &str,
    two: &str,
    comparison: Comparison,
) -> Result<Answer, Stop>
    ensures goes_on { GoesOn (L.library files.old) (L.library files.new) }
    ensures fetches { Fetches (file.now ∷ (plan_files one.now ++ plan_files two.now)) (L.library files.old) (L.library files.new) }
    ensures answer { Serves (λ held. CompareWork held comparison file.now one.now two.now) (TaskAndPlans file.now one.now two.now) ⊥ (L.library files.old) (L.library files.new) result }
{
    let task = read_task_file(alloc, files, file)?;
    compare_both(alloc, files, &task, one, two, comparison)
}
