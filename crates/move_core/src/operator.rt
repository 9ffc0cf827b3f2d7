//! The trait of operators, and kits.
ghost use Rattle.std.specs.Prelude.{◌≡◌, ◌<◌, OnOk};
ghost use Rattle.problem_data.specs.declared.problem.Problem.{Problem};
ghost use Rattle.problem_data.specs.Places.{vehicle_count};
ghost use Rattle.problem_data.specs.Reads.{OneMore, RoseAtMost};
ghost use Rattle.routing_model.specs.declared.weights.Weights.{Weights};
ghost use Rattle.routing_model.specs.Routes.{Routes, list_at};
ghost use Rattle.search_model.specs.declared.kind.Kind.{Kind};
ghost use Rattle.search_model.specs.Search.{kind_of as kind_of_candidate};
ghost use Rattle.gain_model.specs.DescentReads.{changed_reads, prepare_reads};
ghost use Rattle.gain_model.specs.Operators.{FollowsChange, IsEvaluation};
ghost use Rattle.move_core.specs.declared.tally.Tally.{Tally};
ghost use Rattle.move_core.specs.Operators.{FitsSome, operator_reads};

use crate::search::Search;
use crate::tally::Tally;
use penalty_cost::Gain;
use problem_data::{NoMemory, Reads, Steps};
use search_model::{Candidate, Kind};

/// A kind of move, with whatever it remembers. A search tries each kind through this trait alone.
///
/// What an operator remembers is true of a problem, of lists and of weights: it fits them. One that remembers nothing fits all.
pub trait Operator: Drop {
    /// Its kind.
    ghost kind_of: { Self → Kind };

    /// Its tally.
    ghost tally_of: { Self → Tally };

    /// Which problem, lists and weights it fits as it is.
    ghost fits: { Self → Problem → Routes → Weights → Type 0 };

    /// Its kind. No call changes it.
    fn kind(&self) -> Kind
        ensures { result ≡ kind_of self.now };

    /// Makes it fit the search. Where memory runs out, it isn't known what it fits. It reads at most `prepare_reads` legs.
    fn prepare(&mut self, search: &Search<'_>, reads: &mut Steps<Reads>) -> Result<(), NoMemory>
        ensures fits { OnOk result (fits self.new search.now.problem search.now.routes search.now.weights) }
        ensures kind { kind_of self.new ≡ kind_of self.old }
        ensures tally { tally_of self.new ≡ tally_of self.old }
        ensures reads { RoseAtMost (prepare_reads search.now.problem search.now.routes (kind_of self.old)) reads.old reads.new };

    /// The gain of a candidate's move where the move applies and lowers the cost, and None exactly where it doesn't. The try is
    /// counted.
    ///
    /// Conditions: it fits the search, and the candidate is of its kind. It reads at most `operator_reads` legs.
    fn evaluate(
        &mut self,
        search: &Search<'_>,
        candidate: Candidate,
        reads: &mut Steps<Reads>,
    ) -> Option<Gain>
        requires fits { fits self.old search.now.problem search.now.routes search.now.weights }
        requires kind { kind_of_candidate candidate ≡ kind_of self.old }
        ensures answer { IsEvaluation search.now.problem search.now.weights search.now.routes candidate result }
        ensures fits { fits self.new search.now.problem search.now.routes search.now.weights }
        ensures kind { kind_of self.new ≡ kind_of self.old }
        ensures tried { OneMore (tally_of self.old).tried (tally_of self.new).tried }
        ensures applied { (tally_of self.new).applied ≡ (tally_of self.old).applied }
        ensures reads { RoseAtMost (operator_reads search.now.problem search.now.routes candidate) reads.old reads.new };

    /// Tells it of a vehicle's list: what it fitted it then fits with the present list in that vehicle's place.
    ///
    /// Conditions: the vehicle is in range, and it fits some lists, one for each vehicle, with the search's problem and weights. It
    /// reads at most `changed_reads` legs.
    fn changed(&mut self, search: &Search<'_>, vehicle: u32, reads: &mut Steps<Reads>)
        requires vehicle { vehicle < vehicle_count search.now.problem }
        requires some { FitsSome (fits self.old) search.now.problem search.now.weights }
        ensures fits { FollowsChange (fits self.old) (fits self.new) search.now.problem search.now.weights vehicle (list_at search.now.routes vehicle) }
        ensures kind { kind_of self.new ≡ kind_of self.old }
        ensures tally { tally_of self.new ≡ tally_of self.old }
        ensures reads { RoseAtMost (changed_reads search.now.problem search.now.routes (kind_of self.old) vehicle) reads.old reads.new };

    /// Counts an applied move of its own. What it fits stays.
    fn applied(&mut self)
        ensures fits { (p : Problem) (routes : Routes) (w : Weights) → fits self.old p routes w → fits self.new p routes w }
        ensures kind { kind_of self.new ≡ kind_of self.old }
        ensures tried { (tally_of self.new).tried ≡ (tally_of self.old).tried }
        ensures applied { OneMore (tally_of self.old).applied (tally_of self.new).applied };

    /// How many candidates it tried, and how many of its moves were applied.
    fn tally(&self) -> Tally
        ensures { result ≡ tally_of self.now };
}

/// Operators, one of each kind, in the order of the kinds.
pub type Kit = Vec<Box<dyn Operator + Send>>;
