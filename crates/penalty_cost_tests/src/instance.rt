//! The instance of the test.
ghost use Rattle.std.specs.Prelude.{◌≡◌, IfOk, length};
ghost use Rattle.problem_data.specs.Places.{vehicle_count};

use problem_data::ProblemData;
use std::alloc::Global;
use std::process::Abort;
use std::test::Fail;
use vrp_num::Rounding;
use vrplib_read::read_instance;

/// A client at (3, 4) from the depot.
const ONE_CLIENT: &str =
    "DIMENSION : 2\nEDGE_WEIGHT_TYPE : EUC_2D\nNODE_COORD_SECTION\n1 0 0\n2 3 4\nDEPOT_SECTION\n1\n-1\nEOF\n";

/// The instance above, which has one depot, one client and one vehicle.
pub(crate) fn one_client(rt: &impl Abort, alloc: Global) -> Result<ProblemData, Fail>
    ensures depots { IfOk result (λ given. length given.depots ≡ 1) }
    ensures clients { IfOk result (λ given. length given.clients ≡ 1) }
    ensures vehicles { IfOk result (λ given. vehicle_count given ≡ 1) }
{
    let problem = read_instance(alloc, ONE_CLIENT.as_bytes(), Rounding::Round)?;
    let given = ProblemData::new(alloc, problem)?;
    assert_eq!(rt; given.problem().depots.items().len(), 1);
    assert_eq!(rt; given.problem().clients.items().len(), 1);
    assert_eq!(rt; given.vehicles(), 1);
    Ok(given)
}
