//! The options of `plan`.

ghost use Rattle.std.specs.Prelude.{◌≡◌, ◌≢◌, ◌≤◌, ◌↔◌, ℕ, [], ◌∷◌, IsFalse, MatchOption, map, string_bytes};
ghost use Rattle.ep_words.specs.Options.{option_words, guide_word, IsInRange, IsNew, and_option, AreOptions, no_options, plan_of};
ghost use Rattle.ep_words.specs.declared.options.PlanOption.TheVariants.{Guide};
ghost use Rattle.ep_words.specs.declared.options.PlanOption as option;
ghost use Rattle.ep_words.specs.declared.options.Options as given;

use crate::command::Command;
use crate::number::read_number;
use ep_bounds::{Bounds, MOST_BOUND, MOST_STATES, MOST_WORLDS, Measure, Mode};

/// An option with its value.
#[derive(Clone, Copy)]
pub enum PlanOption {
    Depth(u32),
    Cost(u32),
    States(u32),
    Worlds(u32),
    Guide(u32),
    First,
}

/// The options that are given. A bound is one of the two measures, by `--depth` or by `--cost`.
#[derive(Clone, Copy)]
pub struct Options {
    pub bound: Option<(Measure, u32)>,
    pub states: Option<u32>,
    pub worlds: Option<u32>,
    pub guide: Option<u32>,
    pub mode: Mode,
}

fn read_guide(word: &str) -> Option<u32>
    ensures { MatchOption result ((n : ℕ) → n ≤ 2 → word.now ≢ guide_word n) (λ n. (word.now ≡ guide_word n) × IsInRange (Guide n)) }
{
    if word == "depth" {
        Some(0)
    } else if word == "unmet" {
        Some(1)
    } else if word == "worlds" {
        Some(2)
    } else {
        None
    }
}

// The option that two words write.
fn read_option(name: &str, value: &str) -> Option<PlanOption>
    ensures { MatchOption result
        ((o : option.PlanOption) → IsInRange o → option_words o ≢ name.now ∷ value.now ∷ [])
        (λ o. IsInRange o × (option_words o ≡ name.now ∷ value.now ∷ [])) }
{
    if name == "--depth" {
        read_number(value, 0, MOST_BOUND).map(PlanOption::Depth)
    } else if name == "--cost" {
        read_number(value, 0, MOST_BOUND).map(PlanOption::Cost)
    } else if name == "--states" {
        read_number(value, 1, MOST_STATES).map(PlanOption::States)
    } else if name == "--worlds" {
        read_number(value, 1, MOST_WORLDS).map(PlanOption::Worlds)
    } else if name == "--guide" {
        read_guide(value).map(PlanOption::Guide)
    } else if name == "--first" && value == "yes" {
        Some(PlanOption::First)
    } else {
        None
    }
}

impl Options {
    pub fn none() -> Options
        ensures { result ≡ no_options }
    {
        Options {
            bound: None,
            states: None,
            worlds: None,
            guide: None,
            mode: Mode::Prove,
        }
    }

    fn has(&self, option: PlanOption) -> bool
        ensures { IsFalse result ↔ IsNew option self.now }
    {
        match option {
            PlanOption::Depth(_) | PlanOption::Cost(_) => self.bound.is_some(),
            PlanOption::States(_) => self.states.is_some(),
            PlanOption::Worlds(_) => self.worlds.is_some(),
            PlanOption::Guide(_) => self.guide.is_some(),
            PlanOption::First => match self.mode {
                Mode::Prove => false,
                Mode::First => true,
            },
        }
    }

    fn and(self, option: PlanOption) -> Options
        ensures { result ≡ and_option self option }
    {
        match option {
            PlanOption::Depth(n) => Options {
                bound: Some((Measure::Length, n)),
                ..self
            },
            PlanOption::Cost(n) => Options {
                bound: Some((Measure::Cost, n)),
                ..self
            },
            PlanOption::States(n) => Options {
                states: Some(n),
                ..self
            },
            PlanOption::Worlds(n) => Options {
                worlds: Some(n),
                ..self
            },
            PlanOption::Guide(n) => Options {
                guide: Some(n),
                ..self
            },
            PlanOption::First => Options {
                mode: Mode::First,
                ..self
            },
        }
    }

    /// The command with these options.
    pub fn to_command(&self) -> Command
        ensures { result ≡ plan_of self.now }
    {
        let (measure, bound) = self.bound.unwrap_or((Measure::Length, 8));
        Command::Plan {
            bounds: Bounds {
                measure,
                bound,
                states: self.states.unwrap_or(1000),
                worlds: self.worlds.unwrap_or(256),
            },
            guide: self.guide.unwrap_or(0),
            mode: self.mode,
        }
    }
}

/// All options, where the words are those of further ones.
pub fn read_options(words: &[String], options: Options) -> Option<Options>
    ensures { MatchOption result
        ((all : given.Options) → AreOptions (map string_bytes words.now) options all → ⊥)
        (λ all. AreOptions (map string_bytes words.now) options all) }
{
    match words {
        [] => Some(options),
        [name, value, more @ ..] => {
            let option = read_option(name.as_str(), value.as_str())?;
            if options.has(option) {
                return None;
            }
            read_options(more, options.and(option))
        }
        _ => None,
    }
}
