//! What a plan costs by any weights.
ghost use Rattle.std.specs.Prelude.{◌≡◌, ℕ, ◌+◌, ◌*◌, ◌^◌, ◌<◌, ◌≤◌, ◌≤ℤ◌, List, IsTrue, length, pos, sum_by};
ghost use Rattle.problem_data.specs.declared.problem.Problem.{Problem};
ghost use Rattle.problem_data.specs.declared.visit.Visit.{Visit};
ghost use Rattle.problem_data.specs.Reads.{RoseAtMost};
ghost use Rattle.routing_model.specs.Cost.{solution_cost};
ghost use Rattle.routing_model.specs.Feasible.{assessment, is_feasible};
ghost use Rattle.routing_model.specs.Lawful.{is_lawful};
ghost use Rattle.routing_model.specs.Routes.{Routes};
ghost use Rattle.penalty_cost.specs.Plans.{IsDrivablePlan, IsWeighed, largest_weight};
ghost use Rattle.plan_fitness.specs.PlanCosts.{IsCostInRange, IsPlanCost, weightless};

use penalty_cost::{assess, solution_cost};
use problem_data::{ProblemData, Reads, Solution, Steps};
use routing_model::{Assessment, Weights};

/// What a plan costs but for its excesses, and what it exceeds: so what it costs by any weights.
#[derive(Clone, Copy, Debug)]
pub struct PlanCost {
    cost: u128,
    excess: Assessment,
}

/// What a plan costs but for its excesses. Condition: as of `plan_cost`.
fn plain_cost(given: &ProblemData, solution: &Solution, reads: &mut Steps<Reads>) -> u128
    requires { IsDrivablePlan given.now solution.now.routes }
    ensures cost { result ≡ solution_cost given.now weightless solution.now.routes }
    ensures range { result < 2 ^ 127 }
    ensures reads { RoseAtMost (sum_by (λ (visits : List Visit). length visits + 1) solution.now.routes) reads.old reads.new }
{
    let weightless = Weights {
        load: 0,
        warp: 0,
        distance: 0,
    };
    solution_cost(given, solution, weightless, reads) as u128
}

/// What a plan costs by any weights.
///
/// Conditions: there is one list for each vehicle, each names existing places, is tidy and has no more visits than a vehicle can have,
/// and no client stands twice. For each vehicle it reads at most two legs more than twice its visits.
pub fn plan_cost(given: &ProblemData, solution: &Solution, reads: &mut Steps<Reads>) -> PlanCost
    requires { IsDrivablePlan given.now solution.now.routes }
    ensures cost { IsPlanCost given.now solution.now.routes result }
    ensures reads { RoseAtMost (2 * sum_by (λ (visits : List Visit). length visits + 1) solution.now.routes) reads.old reads.new }
{
    PlanCost {
        cost: plain_cost(given, solution, reads),
        excess: assess(given, solution, reads),
    }
}

/// What an excess costs by its weight.
fn weighed(weight: u64, excess: i64) -> u128
    requires weight { weight ≤ largest_weight }
    requires excess { pos 0 ≤ℤ excess }
    ensures value { (n : ℕ) → excess ≡ pos n → result ≡ weight * n }
    ensures few { result ≤ 2 ^ 93 }
{
    u128::from(weight) * excess as u128
}

impl PlanCost {
    /// What the plan costs by these weights. Condition: no weight exceeds 10^9.
    pub fn weighed(self, weights: Weights) -> u128
        requires cost { IsCostInRange self }
        requires weights { IsWeighed weights }
        ensures { (p : Problem) (routes : Routes) → IsPlanCost p routes self → result ≡ solution_cost p weights routes }
    {
        self.cost
            + weighed(weights.load, self.excess.load)
            + weighed(weights.warp, self.excess.warp)
            + weighed(weights.distance, self.excess.distance)
    }

    /// What the plan costs by any weights where it exceeds nothing.
    pub fn unweighed(self) -> i128
        requires { IsCostInRange self }
        ensures { (p : Problem) (routes : Routes) (w : Weights) → IsPlanCost p routes self → IsTrue (is_feasible p routes) → result ≡ pos (solution_cost p w routes) }
    {
        self.cost as i128
    }

    /// Whether the plan exceeds nothing: where it is lawful, whether it is feasible.
    pub fn is_free_of_excess(self) -> bool
        ensures { (p : Problem) (routes : Routes) → IsPlanCost p routes self → IsTrue (is_lawful p routes) → result ≡ is_feasible p routes }
    {
        self.excess.load == 0 && self.excess.warp == 0 && self.excess.distance == 0
    }

    /// What the plan exceeds.
    pub fn excess(self) -> Assessment
        ensures { (p : Problem) (routes : Routes) → IsPlanCost p routes self → result ≡ assessment p routes }
    {
        self.excess
    }
}
