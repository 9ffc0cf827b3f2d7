//! How weights change.
ghost use Rattle.std.specs.Prelude.{◌≡◌, ◌≤◌};
ghost use Rattle.genetic_model.specs.Penalties.{changed_weight, changed_weights};
ghost use Rattle.genetic_model.specs.Ranges.{IsFrom, IsPenaltyInRange};
ghost use Rattle.penalties.specs.Weighted.{AreWeightsWithin};
ghost use Rattle.penalties.specs.inside.Counts.{AreCounts, as_counts};

use crate::counts::Counts;
use genetic_model::PenaltyParams;
use routing_model::Weights;

/// A weight after `between` plans of which so many had no excess of its kind: raised where they are fewer than the target, else lowered;
/// by 1 at least, and kept in 1 to 1,000,000.
fn changed_weight(params: PenaltyParams, feasible: u64, weight: u64) -> u64
    requires params { IsPenaltyInRange params }
    requires feasible { feasible ≤ 10000 }
    requires weight { IsFrom 1 1000000 weight }
    ensures changed { result ≡ changed_weight params feasible weight }
    ensures within { IsFrom 1 1000000 result }
{
    let changed = if feasible * 1000 < params.target * params.between {
        (weight * params.increase / 1000).max(weight + 1)
    } else {
        (weight * params.decrease / 1000).min(weight - 1)
    };
    changed.min(1000000).max(1)
}

/// The three weights after `between` plans with these counts.
pub(crate) fn changed_weights(params: PenaltyParams, counts: Counts, weights: Weights) -> Weights
    requires params { IsPenaltyInRange params }
    requires counts { AreCounts params.between counts }
    requires weights { AreWeightsWithin 1000000 weights }
    ensures changed { result ≡ changed_weights params (as_counts counts) weights }
    ensures within { AreWeightsWithin 1000000 result }
{
    Weights {
        load: changed_weight(params, counts.load, weights.load),
        warp: changed_weight(params, counts.warp, weights.warp),
        distance: changed_weight(params, counts.distance, weights.distance),
    }
}
