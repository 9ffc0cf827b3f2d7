//! Where the selected vehicles of two plans begin.
ghost use Rattle.std.specs.Prelude.{◌≡◌, ℕ, ◌<◌, ◌≤◌, List, length, nat_lt};
ghost use Rattle.list_words.specs.Order.{lesser};
ghost use Rattle.problem_data.specs.Places.{place_count};
ghost use Rattle.genetic_model.specs.declared.starts.Starts.{Starts as StartsOf};
ghost use Rattle.genetic_model.specs.RouteSelection.{best_shift, difference_count, settled};
ghost use Rattle.route_rings.specs.Marks.{AreMarks};
ghost use Rattle.route_rings.specs.Selections.{AreRings, AreStarts, difference_of};
ghost use Rattle.route_rings.specs.inside.Measuring.{IsMeasured};

use crate::ring::Ring;
use crate::turning::{next, previous};
use genetic_model::{Starts, shifts_settle};
use problem_data::ProblemData;

/// Two plans' used vehicles in their orders, and how many neighbouring ones are selected of each.
#[derive(Clone, Copy)]
pub struct Rings<'s> {
    pub first: Ring<'s>,
    pub second: Ring<'s>,
    pub count: u32,
}

/// Starts, and how many clients are in just one of the selections that begin there.
#[derive(Clone, Copy)]
pub(crate) struct Measured {
    pub(crate) starts: Starts,
    pub(crate) difference: u32,
}

/// How many clients are marked in just one of two sets.
fn difference_count(given: &ProblemData, marks: &[bool], others: &[bool]) -> u32
    requires places { length marks.now ≡ place_count given.now }
    requires other_places { length others.now ≡ place_count given.now }
    ensures { (xs ys : List ℕ) → AreMarks marks.now xs → AreMarks others.now ys → result ≡ difference_count given.now xs ys }
{
    given.validity();
    let clients = given.client_places();
    let mut difference = 0;
    for place in clients.start..clients.end {
        let apart = marks[place as usize] != others[place as usize];
        difference += u32::from(apart);
    }
    difference
}

/// The better of some starts and others: those of less difference, the first on a tie.
fn better(best: Measured, other: Measured) -> Measured
    ensures { (f : StartsOf → ℕ) → IsMeasured f best → IsMeasured f other → (result.starts ≡ lesser f best.starts other.starts) × IsMeasured f result }
{
    if other.difference < best.difference {
        other
    } else {
        best
    }
}

impl Rings<'_> {
    /// Starts with their difference. `marks` and `others` have a mark for each place.
    fn measured(
        self,
        given: &ProblemData,
        starts: Starts,
        marks: &mut [bool],
        others: &mut [bool],
    ) -> Measured
        requires rings { AreRings given.now self }
        requires starts { AreStarts self starts }
        requires places { length marks.old ≡ place_count given.now }
        requires other_places { length others.old ≡ place_count given.now }
        ensures starts { result.starts ≡ starts }
        ensures measured { IsMeasured (difference_of given.now self.entry) result }
        ensures places { length marks.new ≡ length marks.old }
        ensures other_places { length others.new ≡ length others.old }
    {
        self.first.select(given, marks, starts.first, self.count);
        self.second.select(given, others, starts.second, self.count);
        Measured {
            starts,
            difference: difference_count(given, marks, others),
        }
    }

    /// The best of the four shifts of starts by one place, the first on a tie.
    fn best_shift(
        self,
        given: &ProblemData,
        starts: Starts,
        marks: &mut [bool],
        others: &mut [bool],
    ) -> Measured
        requires rings { AreRings given.now self }
        requires starts { AreStarts self starts }
        requires places { length marks.old ≡ place_count given.now }
        requires other_places { length others.old ≡ place_count given.now }
        ensures best { result.starts ≡ best_shift (difference_of given.now self.entry) (length self.entry.first.order.now) (length self.entry.second.order.now) starts }
        ensures measured { IsMeasured (difference_of given.now self.entry) result }
        ensures there { AreStarts self.entry result.starts }
        ensures places { length marks.new ≡ length marks.old }
        ensures other_places { length others.new ≡ length others.old }
    {
        let Starts { first, second } = starts;
        let ahead = Starts {
            first: next(first, self.first.size()),
            second,
        };
        let back = Starts {
            first: previous(first, self.first.size()),
            second,
        };
        let other_ahead = Starts {
            first,
            second: next(second, self.second.size()),
        };
        let other_back = Starts {
            first,
            second: previous(second, self.second.size()),
        };
        let mut best = self.measured(given, ahead, marks, others);
        best = better(best, self.measured(given, back, marks, others));
        best = better(best, self.measured(given, other_ahead, marks, others));
        better(best, self.measured(given, other_back, marks, others))
    }

    /// Moves starts by the best shift as long as the clients of the two selections then differ less (after Nagata and Kobayashi 2010).
    ///
    /// Conditions: the starts are places of the orders, and `marks` and `others` have a mark for each place.
    pub fn settled(
        self,
        given: &ProblemData,
        starts: Starts,
        marks: &mut [bool],
        others: &mut [bool],
    ) -> Starts
        requires rings { AreRings given.now self }
        requires starts { AreStarts self starts }
        requires places { length marks.old ≡ place_count given.now }
        requires other_places { length others.old ≡ place_count given.now }
        ensures settled { result ≡ settled (difference_of given.now self.entry) (length self.entry.first.order.now) (length self.entry.second.order.now) starts }
        ensures there { AreStarts self.entry result }
        ensures places { length marks.new ≡ length marks.old }
        ensures other_places { length others.new ≡ length others.old }
    {
        shifts_settle();
        let mut at = self.measured(given, starts, marks, others);
        loop {
            let best = self.best_shift(given, at.starts, marks, others);
            if best.difference >= at.difference {
                return at.starts;
            }
            at = best;
        }
    }
}
