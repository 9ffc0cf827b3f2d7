//! Visits, and lists of them.
ghost use Rattle.std.specs.Prelude.{◌≡◌};
ghost use Rattle.problem_data.specs.Visits.{is_client, is_used, place_of};

/// One visit of a vehicle, between its start and its end.
#[derive(Clone, Copy, Debug, PartialEq, Eq)]
pub enum Visit {
    /// A client, by the number of its place.
    Client(u32),
    /// A reload at a depot, by the number of the depot's place.
    Reload(u32),
}

impl Visit {
    /// The number of its place.
    pub fn place(self) -> u32
        ensures { result ≡ place_of self }
    {
        match self {
            Visit::Client(place) => place,
            Visit::Reload(depot) => depot,
        }
    }

    /// Whether it is a client's.
    pub fn is_client(self) -> bool
        ensures { result ≡ is_client self }
    {
        matches!(self, Visit::Client(_))
    }
}

/// Whether a vehicle with this list is used: it visits a client.
pub fn is_used(visits: &[Visit]) -> bool
    ensures { result ≡ is_used visits.now }
{
    visits.iter().any(|visit| visit.is_client())
}
