//! Exchanges of two clients of different lists.
ghost use Rattle.std.specs.Prelude.{◌≡◌, ◌≢◌, ◌+◌, ◌-◌, ◌≤◌, IsTrue, None};
ghost use Rattle.std.specs.Option.{MatchOption};
ghost use Rattle.problem_data.specs.Places.{leg_distance};
ghost use Rattle.problem_data.specs.Reads.{RoseAtMost};
ghost use Rattle.search_model.specs.declared.candidate.Target.TheVariants.{After};
ghost use Rattle.search_model.specs.Edits.{piece};
ghost use Rattle.move_core.specs.Looks.{AreHopeless};
ghost use Rattle.exchange_screens.specs.Exchanges.{IsExchange};
ghost use Rattle.exchange_screens.specs.Trials.{IsAnswer};
ghost use Rattle.list_changes.specs.Bounds.{IsPaid};
ghost use Rattle.exchange_screens.specs.inside.Seats.{IsSeat, IsTaken, place_in};
ghost use Rattle.list_changes.specs.Layouts.{left_layout};

use crate::lent::{Lent, is_lent_dear, is_put_dear};
use crate::seat::{Seat, leg_to, paid_over, taken};
use list_changes::gap_of;
use move_core::Search;
use problem_data::{Reads, Steps};

/// A list with another list's piece of m from a client in the place of its own piece of n.
fn replaced(own: Seat, n: u32, paid: u64, other: Seat, m: u32, come: u32) -> Lent
    requires some { 1 ≤ own.place }
    requires fits { own.place - 1 + n ≤ own.size }
    requires other_some { 1 ≤ other.place }
    requires other_fits { other.place - 1 + m ≤ other.size }
    ensures { result ≡ record { seat = own; left = own.place - 1; right = own.place - 1 + n; first = other.place - 1; end = other.place - 1 + m; paid = paid; come = come } }
{
    let left = own.place - 1;
    let first = other.place - 1;
    Lent {
        seat: own,
        left,
        right: left + n,
        first,
        end: first + m,
        paid,
        come,
    }
}

/// Whether the piece of n from a client and the piece of m from another one, as far as they are there, surely change places for nothing.
/// At most two legs are read.
fn is_swap_hopeless(
    search: &Search<'_>,
    u: Seat,
    v: Seat,
    n: u32,
    m: u32,
    taken_u: Option<u64>,
    taken_v: Option<u64>,
    to_v: u32,
    to_u: u32,
    reads: &mut Steps<Reads>,
) -> bool
    requires u { IsSeat search.now u }
    requires v { IsSeat search.now v }
    requires apart { v.vehicle ≢ u.vehicle }
    requires exchange { IsExchange n m }
    requires other { 1 ≤ m }
    requires taken_u { MatchOption taken_u (piece search.now.routes n u.client ≡ None) (λ paid. IsTaken search.now u n paid) }
    requires taken_v { MatchOption taken_v (piece search.now.routes m v.client ≡ None) (λ paid. IsTaken search.now v m paid) }
    requires to_v { to_v ≡ leg_distance search.now.problem u.profile (place_in search.now u.vehicle (u.place - 1)) (place_in search.now v.vehicle v.place) }
    requires to_u { to_u ≡ leg_distance search.now.problem v.profile (place_in search.now v.vehicle (v.place - 1)) (place_in search.now u.vehicle u.place) }
    ensures hopeless { IsTrue result → IsAnswer search.now (record { n = n; m = m; client = u.client; target = After v.client }) None }
    ensures reads { RoseAtMost 2 reads.old reads.new }
{
    search.soundness();
    let Some(paid_u) = taken_u else {
        return true;
    };
    let Some(paid_v) = taken_v else {
        return true;
    };
    let one = replaced(u, n, paid_u, v, m, to_v);
    let two = replaced(v, m, paid_v, u, n, to_u);
    is_lent_dear(search, &one, &two, reads)
}

/// Whether the piece of n from a client, as far as it is there, surely goes behind another client for nothing. At most two legs are read.
fn is_put_hopeless(
    search: &Search<'_>,
    u: Seat,
    v: Seat,
    n: u32,
    taken_u: Option<u64>,
    paid: u64,
    come: u32,
    reads: &mut Steps<Reads>,
) -> bool
    requires u { IsSeat search.now u }
    requires v { IsSeat search.now v }
    requires apart { v.vehicle ≢ u.vehicle }
    requires some { 1 ≤ n }
    requires few { n ≤ 3 }
    requires taken_u { MatchOption taken_u (piece search.now.routes n u.client ≡ None) (λ goes. IsTaken search.now u n goes) }
    requires paid { IsPaid search.now v.vehicle (left_layout v.place v.place) paid }
    requires come { come ≡ leg_distance search.now.problem v.profile (place_in search.now v.vehicle v.place) (place_in search.now u.vehicle u.place) }
    ensures hopeless { IsTrue result → IsAnswer search.now (record { n = n; m = 0; client = u.client; target = After v.client }) None }
    ensures reads { RoseAtMost 2 reads.old reads.new }
{
    search.soundness();
    let Some(_) = taken_u else {
        return true;
    };
    let first = u.place - 1;
    let gap = gap_of(search.route(u.vehicle), first, first + n);
    let lent = Lent {
        seat: v,
        left: v.place,
        right: v.place,
        first,
        end: first + n,
        paid,
        come,
    };
    is_put_dear(search, &u, gap, &lent, reads)
}

/// Which exchanges of a client with one of another list surely give nothing. What they share is looked up once; at most 21 legs are read.
pub(crate) fn hopeless_across(
    search: &Search<'_>,
    u: Seat,
    v: Seat,
    reads: &mut Steps<Reads>,
) -> [bool; 9]
    requires u { IsSeat search.now u }
    requires v { IsSeat search.now v }
    requires apart { v.vehicle ≢ u.vehicle }
    ensures hopeless { AreHopeless search.now u.client v.client result }
    ensures reads { RoseAtMost 21 reads.old reads.new }
{
    let behind = leg_to(search, v, v.place, u, reads);
    let to_v = leg_to(search, u, u.place - 1, v, reads);
    let to_u = leg_to(search, v, v.place - 1, u, reads);
    let paid = paid_over(search, v, v.place, v.place);
    let u1 = taken(search, u, 1);
    let u2 = taken(search, u, 2);
    let u3 = taken(search, u, 3);
    let v1 = taken(search, v, 1);
    let v2 = taken(search, v, 2);
    let v3 = taken(search, v, 3);
    [
        is_put_hopeless(search, u, v, 1, u1, paid, behind, reads),
        is_put_hopeless(search, u, v, 2, u2, paid, behind, reads),
        is_put_hopeless(search, u, v, 3, u3, paid, behind, reads),
        is_swap_hopeless(search, u, v, 1, 1, u1, v1, to_v, to_u, reads),
        is_swap_hopeless(search, u, v, 2, 1, u2, v1, to_v, to_u, reads),
        is_swap_hopeless(search, u, v, 3, 1, u3, v1, to_v, to_u, reads),
        is_swap_hopeless(search, u, v, 2, 2, u2, v2, to_v, to_u, reads),
        is_swap_hopeless(search, u, v, 3, 2, u3, v2, to_v, to_u, reads),
        is_swap_hopeless(search, u, v, 3, 3, u3, v3, to_v, to_u, reads),
    ]
}
