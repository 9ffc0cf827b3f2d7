//! Segments of trips: what a run of a vehicle's stops adds up to, over reloads and releases.
ghost use Rattle.std.specs.Prelude.{◌≡◌, ◌≤◌};
ghost use Rattle.problem_data.specs.Limits.{largest};
ghost use Rattle.problem_data.specs.Valid.{IsValidClient, IsValidDepot, IsValidWindow};
ghost use Rattle.trips.specs.Conditions.{CanClose, CanMerge, IsSoundPiece, IsSoundRoute, IsSoundTrips};
ghost use Rattle.trips.specs.Merging.{client_piece, closed_trips, merged_trips, reload_split, stop_piece};
ghost use Rattle.trips.specs.inside.DepotStops.{StandsAtDepot};
ghost use Rattle.trips.specs.Standing.{ClosesRun, JoinsRuns, StandsForClient, StandsForEnd, StandsForReload, StandsForStart};

use crate::middle::Middle;
use crate::piece::Piece;
use problem_data::{Client, Depot, Window};
use segments::{DurationSegment, LoadSegment, Segment};

/// What a run of a vehicle's stops adds up to.
#[derive(Clone, Copy, Debug, PartialEq, Eq)]
pub enum TripSegment {
    /// No reload in it.
    Open(Piece),
    /// At least one reload in it.
    Split {
        /// Up to the arrival at the first reload.
        head: Piece,
        /// The whole trips between the first and the last reload.
        middle: Middle,
        /// From the departure of the last reload on.
        tail: Piece,
    },
}

/// What a whole route adds up to.
#[derive(Clone, Copy, Debug, PartialEq, Eq)]
pub struct RouteSegment {
    /// The drive of its stops.
    pub duration: DurationSegment,
    /// What its trips' loads exceed the capacity by, added up, from 0 to 10^16.
    pub excess: i64,
}

impl TripSegment {
    /// The segment of a client alone. Condition: its quantities are at most 10^12, and its window opens no later than it closes.
    pub fn client(client: &Client) -> TripSegment
        requires { IsValidClient client.now }
        ensures value { result ≡ TripSegment.Open (client_piece client.now) }
        ensures sound { IsSoundTrips result }
        ensures stands { StandsForClient client.now result }
    {
        let window = client.window;
        TripSegment::Open(Piece {
            duration: DurationSegment::stop(window.early, window.late, client.service),
            load: LoadSegment::client(client.delivery, client.pickup),
            release: client.release as i64,
        })
    }

    /// The segment of the departure from a depot alone, in the window in which the vehicle may start there.
    ///
    /// Condition: the times are at most 10^12, and the window opens no later than it closes.
    pub fn departure(depot: &Depot, window: Window) -> TripSegment
        requires depot { IsValidDepot depot.now }
        requires window { IsValidWindow window }
        ensures value { result ≡ TripSegment.Open (stop_piece window depot.now.service) }
        ensures sound { IsSoundTrips result }
        ensures stands { StandsForStart depot.now window result }
    {
        TripSegment::Open(stop_piece(window, depot.service))
    }

    /// The segment of the arrival at a depot alone, in the window in which the vehicle may end there.
    ///
    /// Condition: the window opens no later than it closes, and closes at 10^12 at the latest.
    pub fn arrival(window: Window) -> TripSegment
        requires { IsValidWindow window }
        ensures value { result ≡ TripSegment.Open (stop_piece window 0) }
        ensures sound { IsSoundTrips result }
        ensures stands { StandsForEnd window result }
    {
        TripSegment::Open(stop_piece(window, 0))
    }

    /// The segment of a reload alone: an arrival and a departure. Condition: the depot's times are at most 10^12, and its window
    /// opens no later than it closes.
    pub fn reload(depot: &Depot) -> TripSegment
        requires { IsValidDepot depot.now }
        ensures value { result ≡ reload_split depot.now }
        ensures sound { IsSoundTrips result }
        ensures stands { StandsForReload depot.now result }
    {
        TripSegment::Split {
            head: stop_piece(depot.window, 0),
            middle: Middle::none(),
            tail: stop_piece(depot.window, depot.service),
        }
    }

    /// The segment of both, `right` behind `self`, with a leg of duration `travel` between them: 0 where one of them has no stops.
    /// Where both have reloads, the trip between the last of `self` and the first of `right` is closed, for this capacity.
    ///
    /// Condition: each segment inside is sound, releases are at most 10^12, and what they add up to is at most 10^16.
    #[inline(always)]
    pub fn merge(self, right: TripSegment, travel: i64, capacity: u64) -> TripSegment
        requires { CanMerge self right travel capacity }
        ensures value { result ≡ merged_trips self right travel capacity }
        ensures sound { IsSoundTrips result }
        ensures joins { JoinsRuns self right travel capacity result }
    {
        match (self, right) {
            (TripSegment::Open(left), TripSegment::Open(right)) => {
                TripSegment::Open(left.merge(right, travel))
            }
            (TripSegment::Open(left), TripSegment::Split { head, middle, tail }) => {
                TripSegment::Split {
                    head: left.merge(head, travel),
                    middle,
                    tail,
                }
            }
            (TripSegment::Split { head, middle, tail }, TripSegment::Open(right)) => {
                TripSegment::Split {
                    head,
                    middle,
                    tail: tail.merge(right, travel),
                }
            }
            (
                TripSegment::Split {
                    head,
                    middle: before,
                    tail,
                },
                TripSegment::Split {
                    head: next,
                    middle: behind,
                    tail: last,
                },
            ) => {
                let trip = tail.merge(next, travel).close(capacity);
                TripSegment::Split {
                    head,
                    middle: before.merge(trip).merge(behind),
                    tail: last,
                }
            }
        }
    }

    /// The segment of a whole route, from its start to its end, for a vehicle of this capacity.
    ///
    /// Condition: each segment inside is sound, releases are at most 10^12, and what they add up to is at most 10^16.
    pub fn close(self, capacity: u64) -> RouteSegment
        requires { CanClose self capacity }
        ensures value { result ≡ closed_trips self capacity }
        ensures sound { IsSoundRoute result }
        ensures closes { ClosesRun self capacity result }
    {
        let trips = match self {
            TripSegment::Open(piece) => piece.close(capacity),
            TripSegment::Split { head, middle, tail } => head
                .close(capacity)
                .merge(middle)
                .merge(tail.close(capacity)),
        };
        RouteSegment {
            duration: trips.duration,
            excess: trips.excess,
        }
    }
}

/// A stop without a client.
fn stop_piece(window: Window, service: u64) -> Piece
    requires window { IsValidWindow window }
    requires service { service ≤ largest }
    ensures value { result ≡ stop_piece window service }
    ensures sound { IsSoundPiece result }
    ensures stands { StandsAtDepot window service result }
{
    Piece {
        duration: DurationSegment::stop(window.early, window.late, service),
        load: LoadSegment::empty(),
        release: 0,
    }
}
