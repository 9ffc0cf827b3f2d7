//! One look at a client and a neighbour, in the place of the nine exchanges' own screens.
ghost use Rattle.std.specs.Prelude.{◌≡◌, IfSome};
ghost use Rattle.problem_data.specs.Reads.{RoseAtMost};
ghost use Rattle.move_core.specs.Looks.{AreHopeless};
ghost use Rattle.move_core.specs.Operators.{look_reads};

use crate::across::hopeless_across;
use crate::seat::seat_of;
use crate::within::hopeless_within;
use move_core::Search;
use problem_data::{Reads, Steps};

/// Which exchanges of a client behind a neighbour surely give nothing. None where one of them isn't visited. At most 24 legs are read.
fn hopeless(
    search: &Search<'_>,
    client: u32,
    neighbour: u32,
    reads: &mut Steps<Reads>,
) -> Option<[bool; 9]>
    ensures hopeless { IfSome result (λ marks. AreHopeless search.now client neighbour marks) }
    ensures reads { RoseAtMost look_reads reads.old reads.new }
{
    let u = seat_of(search, client)?;
    let v = seat_of(search, neighbour)?;
    if v.vehicle == u.vehicle {
        Some(hopeless_within(search, client, neighbour, reads))
    } else {
        Some(hopeless_across(search, u, v, reads))
    }
}

/// Looks at a client and a neighbour, and notes in the search which exchanges of the client behind the neighbour surely give nothing:
/// those that don't apply, and those whose new lists surely cost no less, by the distances alone or with the excess loads. At most 24
/// legs are read. Where one of the two isn't visited nothing is noted.
pub fn look(search: &mut Search<'_>, client: u32, neighbour: u32, reads: &mut Steps<Reads>)
    ensures same { search.new ≡ search.old }
    ensures reads { RoseAtMost look_reads reads.old reads.new }
{
    if let Some(marks) = hopeless(search, client, neighbour, reads) {
        search.note_hopeless(client, neighbour, marks);
    }
}
