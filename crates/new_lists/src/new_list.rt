//! New lists, by parts of a plan's lists.
ghost use Rattle.std.specs.Prelude.{◌≡◌};
ghost use Rattle.gain_model.specs.declared.part.Part.TheVariants.{Run};
ghost use Rattle.new_lists.specs.NewLists.{list_with_part};

use gain_model::Part;

/// A vehicle's new list: its own first visits, up to `left`, three parts of a plan, and its own last visits, from `right` on. Positions
/// are from 0. A run without visits is no part.
#[derive(Clone, Copy)]
pub struct NewList {
    pub vehicle: u32,
    pub left: u32,
    pub one: Part,
    pub two: Part,
    pub three: Part,
    pub right: u32,
}

impl NewList {
    /// A vehicle's new list with one part: its own first visits, up to `left`, the part, and its own last visits, from `right` on.
    pub fn with_part(vehicle: u32, left: u32, part: Part, right: u32) -> NewList
        ensures { result ≡ list_with_part vehicle left part right }
    {
        NewList {
            vehicle,
            left,
            one: part,
            two: nothing(vehicle),
            three: nothing(vehicle),
            right,
        }
    }
}

/// No visits of a vehicle's list.
pub fn nothing(vehicle: u32) -> Part
    ensures { result ≡ Run vehicle 0 0 }
{
    Part::Run {
        vehicle,
        first: 0,
        end: 0,
    }
}

/// New lists of one vehicle, or of two.
#[derive(Clone, Copy)]
pub enum NewLists {
    One(NewList),
    Two(NewList, NewList),
}
