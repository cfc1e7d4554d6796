// What an action adds to what a plan measures.

ghost use Rattle.std.specs.Prelude.{◌≡◌, ◌<◌, ◌≤◌, length};
ghost use Rattle.ep_bounds.specs.declared.bounds.TheConstants.{MOST_COST};
ghost use Rattle.ep_search.specs.Tolls.{toll_of};

use ep_bounds::Measure;
use ep_logic::ActionId;
use ep_problem::Problem;

pub fn toll(problem: &Problem, measure: Measure, a: ActionId) -> u32
    requires { a.n < length problem.now.actions }
    ensures value { result ≡ toll_of problem.now measure a }
    ensures some { 1 ≤ result }
    ensures most { result ≤ MOST_COST }
{
    match measure {
        Measure::Length => 1,
        Measure::Cost => problem.cost(a),
    }
}
