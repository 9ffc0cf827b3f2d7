//! How plans of lists of different sizes compare.
ghost use Rattle.std.specs.Prelude.{◌≡◌, ◌<◌, ◌^◌, ◌++◌, OnOk, length};
ghost use Rattle.genetic_model.specs.Selection.{is_better_score};
ghost use Rattle.population.specs.inside.Scores.{scored};

use problem_data::NoMemory;
use std::marker::Model;

/// A plan's fitness, and the size of its own list.
#[derive(Drop)]
pub(crate) struct Score {
    fitness: u64,
    size: u32,
}

impl Model for Score {
    ghost use Rattle.genetic_model.specs.Selection.{Score as ScoreOf};

    ghost Value = { ScoreOf };

    ghost view = { λ a. record { fitness = a.fitness; size = a.size } };
}

impl Score {
    /// Whether it is better than another one: the fitness over the square of the size is lower.
    pub(crate) fn is_better(&self, other: &Score) -> bool
        ensures { result ≡ is_better_score self.now other.now }
    {
        let own = u128::from(self.fitness) * (u128::from(other.size) * u128::from(other.size));
        let others = u128::from(other.fitness) * (u128::from(self.size) * u128::from(self.size));
        own < others
    }
}

/// Adds the scores of a list's items, by their fitness. Condition: there are fewer than 2^32. Refused only where memory runs out.
pub(crate) fn push_scores(scores: &mut Vec<Score>, fitnesses: &[u64]) -> Result<(), NoMemory>
    requires { length fitnesses.now < 2 ^ 32 }
    ensures { OnOk result (scores.new.items ≡ scores.old.items ++ scored fitnesses.now) }
{
    let size = fitnesses.len() as u32;
    for fitness in fitnesses {
        scores.push(Score {
            fitness: *fitness,
            size,
        })?;
    }
    Ok(())
}
