//! Lists that contracts see as lists.
ghost use Rattle.std.specs.Prelude.{◌≡◌, IfOk};

use crate::memory::NoMemory;
use crate::problem::{Client, Depot, Place, Profile, VehicleType};
use crate::visit::Visit;
use std::alloc::Global;
use std::marker::Model;

/// A list: a `Vec` that contracts see as the list of its items.
#[derive(Debug, Drop)]
pub struct ListOf<T> {
    items: Vec<T>,
}

impl<T> Model for ListOf<T> {
    ghost use Rattle.std.specs.Prelude.{List};
    ghost use Rattle.std.specs.Coded.{coded_list};

    ghost Value = { List T };

    ghost coded = { coded_list T.code };

    ghost view = { λ it. it.items.items };
}

impl<T> ListOf<T> {
    /// The list of these items; takes no memory.
    pub fn from_vec(items: Vec<T>) -> ListOf<T>
        ensures { result ≡ items.items }
    {
        ListOf { items }
    }

    /// The items, in order.
    pub fn items(&self) -> &[T]
        ensures { result.now ≡ self.now }
    {
        self.items.as_slice()
    }
}

impl<T: Copy> ListOf<T> {
    /// An equal list. Refused only where memory runs out.
    pub fn copy(&self, alloc: Global) -> Result<ListOf<T>, NoMemory>
        ensures { IfOk result (λ copied. copied ≡ self.now) }
    {
        let items = Vec::from_slice(alloc, self.items.as_slice())?;
        Ok(ListOf { items })
    }
}

/// The visits of one vehicle, in order.
pub type VisitList = ListOf<Visit>;

/// One visit list per vehicle.
pub type RouteList = ListOf<VisitList>;

/// Place numbers.
pub type PlaceList = ListOf<u32>;

/// The groups, each a list of clients' places.
pub type GroupList = ListOf<PlaceList>;

/// The places by number.
pub type PlaceTable = ListOf<Place>;

/// The depots, by place.
pub type DepotList = ListOf<Depot>;

/// The clients, in the order of their places.
pub type ClientList = ListOf<Client>;

/// The vehicle types.
pub type TypeList = ListOf<VehicleType>;

/// The profiles.
pub type ProfileList = ListOf<Profile>;

/// The bytes of a text.
pub type Text = ListOf<u8>;
