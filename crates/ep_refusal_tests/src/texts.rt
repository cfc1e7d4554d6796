// Texts of the coin, by their parts.

use std::alloc::Global;
use std::test::Fail;

/// The task whose objects, fluents, initial state and goal are written so.
pub fn task_of(alloc: Global, parts: [&str; 4]) -> Result<String, Fail> {
    let [objects, fluents, init, goal] = parts;
    Ok(format!(in alloc;
        "task coin;\nobjects {{ {objects} }}\nfluents {{ {fluents} }}\n{init}\ngoal {goal};\n"
    )?)
}

pub const PEOPLE: &str = "ann, bob : agent;";

/// Six lines, with tokens 17 to 36 where the parts before are those of the coin.
pub const INIT: &str = "init {
  world u { heads }
  world v { }
  designated { u }
  links all all;
}";
