//! Neighbour lists, as they are looked up.
ghost use Rattle.std.specs.Prelude.{◌≡◌};
ghost use Rattle.search_model.specs.Neighbours.{near_list};

use std::marker::Model;

/// The neighbour list of each place. Contracts see the lists.
#[derive(Drop)]
pub struct Neighbours {
    pub(crate) lists: Vec<Vec<u32>>,
}

impl Model for Neighbours {
    ghost use Rattle.std.specs.Prelude.{ℕ, List, map};

    ghost Value = { List (List ℕ) };

    ghost view = { λ a. map (λ list. list.items) a.lists.items };
}

impl Neighbours {
    /// A client's neighbours, the nearest first. Takes no memory.
    pub fn of(&self, client: u32) -> &[u32]
        ensures { result.now ≡ near_list self.now client }
    {
        match self.lists.get(client as usize) {
            Some(list) => list.as_slice(),
            None => &[],
        }
    }
}
