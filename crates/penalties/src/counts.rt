//! How many plans had no excess.
ghost use Rattle.std.specs.Prelude.{◌≡◌, ◌+◌, ◌<◌};
ghost use Rattle.std.specs.Ordering.{int_eq};
ghost use Rattle.genetic_model.specs.Penalties.{count_of, counted};
ghost use Rattle.penalties.specs.inside.Counts.{AreCounts, as_counts};

use routing_model::Assessment;

/// How many of the registered plans had no excess, of each kind.
#[derive(Clone, Copy, Debug, Drop)]
pub(crate) struct Counts {
    pub(crate) load: u64,
    pub(crate) warp: u64,
    pub(crate) distance: u64,
}

impl Counts {
    /// Nothing is counted yet.
    pub(crate) fn none() -> Counts
        ensures { AreCounts 0 result }
    {
        Counts {
            load: 0,
            warp: 0,
            distance: 0,
        }
    }

    /// With a plan that exceeds this counted.
    pub(crate) fn with(self, assessment: Assessment, registered: u64) -> Counts
        requires counts { AreCounts registered self }
        requires few { registered < 10000 }
        ensures counted { as_counts result ≡ counted (as_counts self) assessment }
        ensures counts { AreCounts (registered + 1) result }
    {
        Counts {
            load: self.load + u64::from(assessment.load == 0),
            warp: self.warp + u64::from(assessment.warp == 0),
            distance: self.distance + u64::from(assessment.distance == 0),
        }
    }
}
