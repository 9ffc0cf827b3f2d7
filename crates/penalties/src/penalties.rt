//! Penalties that follow how many plans are without an excess.
ghost use Rattle.std.specs.Prelude.{◌≡◌, ◌*◌};
ghost use Rattle.genetic_model.specs.Penalties.{boosted, first_penalties, registered};
ghost use Rattle.genetic_model.specs.Ranges.{IsFrom, IsPenaltyInRange};
ghost use Rattle.penalties.specs.Weighted.{AreWeightsWithin};

use crate::counts::Counts;
use crate::weighting::changed_weights;
use genetic_model::PenaltyParams;
use routing_model::{Assessment, Weights};
use std::marker::Model;

/// The weights of the three excesses, and how many of the plans that were registered since they last changed had no excess, of each kind.
#[derive(Debug, Drop)]
pub struct Penalties {
    params: PenaltyParams,
    weights: Weights,
    counts: Counts,
    registered: u64,
}

impl Model for Penalties {
    ghost use Rattle.genetic_model.specs.Penalties.{Penalties as PenaltiesState};
    ghost use Rattle.penalties.specs.inside.Counts.{ArePenalties, as_counts};

    ghost Value = { PenaltiesState };

    ghost view = { λ a. record { params = a.params; weights = a.weights; counts = as_counts a.counts; registered = a.registered } };

    ghost invariant = { λ a. ArePenalties a.params a.weights a.counts a.registered };
}

impl Penalties {
    /// The penalties as they begin: with the first weights, and nothing counted.
    ///
    /// Condition: the parameters are within their ranges: the first weights from 1 to 1,000,000, `increase` from 1000 to 10,000,
    /// `decrease` and `target` at most 1000 (all three per thousand), and `between` from 1 to 10,000.
    pub fn new(params: PenaltyParams) -> Penalties
        requires { IsPenaltyInRange params }
        ensures { result ≡ first_penalties params }
    {
        Penalties {
            params,
            weights: Weights {
                load: params.init_load,
                warp: params.init_warp,
                distance: params.init_distance,
            },
            counts: Counts::none(),
            registered: 0,
        }
    }

    /// Counts a plan that exceeds this. After every `between` plans each weight changes by how many of them had no excess of its kind,
    /// and the counts begin anew: it is raised by `increase` per thousand where they were fewer than the target, and else lowered by
    /// `decrease`, by 1 at least, within 1 to 1,000,000.
    pub fn register(&mut self, assessment: Assessment)
        ensures { self.new ≡ registered self.old assessment }
    {
        let counts = self.counts.with(assessment, self.registered);
        if self.registered + 1 == self.params.between {
            self.weights = changed_weights(self.params, counts, self.weights);
            self.counts = Counts::none();
            self.registered = 0;
        } else {
            self.counts = counts;
            self.registered += 1;
        }
    }

    /// The weights that hold, each from 1 to 1,000,000.
    pub fn weights(&self) -> Weights
        ensures weights { result ≡ self.now.weights }
        ensures within { AreWeightsWithin 1000000 result }
    {
        self.weights
    }

    /// The weights that hold, each times a factor. Condition: it is from 1 to 1,000.
    pub fn boosted(&self, factor: u64) -> Weights
        requires { IsFrom 1 1000 factor }
        ensures weights { result ≡ boosted factor self.now.weights }
        ensures within { AreWeightsWithin (1000000 * factor) result }
    {
        Weights {
            load: self.weights.load * factor,
            warp: self.weights.warp * factor,
            distance: self.weights.distance * factor,
        }
    }
}
