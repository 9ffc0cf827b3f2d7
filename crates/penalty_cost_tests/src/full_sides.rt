//! A test of sides that are full.
ghost use Rattle.std.specs.Prelude.{◌≡◌, ◌+◌, ◌<◌, All, IsTrue, false, length};
ghost use Rattle.problem_data.specs.Places.{is_client_place};
ghost use Rattle.route_cache.specs.Routes.{ViewState};

use crate::instance::one_client;
use penalty_cost::{Full, Proposal, Side};
use problem_data::{ProblemData, Steps};
use route_cache::{Route, client_view};
use std::test::Fail;

/// Adds the view of a client to the first side, which has room for it.
fn push_client<'r>(proposal: &mut Proposal<'r>, given: &'r ProblemData)
    requires problem { proposal.old.problem ≡ given.now }
    requires client { IsTrue (is_client_place given.now 1) }
    requires room { length proposal.old.first.views < 8 }
    requires goes_on { All (λ (v : ViewState). v.ends ≡ false) proposal.old.first.views }
    ensures problem { proposal.new.problem ≡ given.now }
    ensures count { length proposal.new.first.views ≡ length proposal.old.first.views + 1 }
    ensures goes_on { All (λ (v : ViewState). v.ends ≡ false) proposal.new.first.views }
{
    let view = client_view(given, 1);
    let Ok(()) = proposal.push(Side::First, view) else {
        unreachable!()
    };
}

/// Eight views have room on a side, and a ninth is refused.
#[test]
fn a_ninth_view_is_refused(rt: HostRuntime) -> Result<(), Fail> {
    let alloc = rt.alloc();
    let mut reads = Steps::new(&rt);
    let given = one_client(&rt, alloc)?;
    let route = Route::new(alloc, &given, 0, &mut reads)?;
    let mut proposal = Proposal::one(&route);
    push_client(&mut proposal, &given);
    push_client(&mut proposal, &given);
    push_client(&mut proposal, &given);
    push_client(&mut proposal, &given);
    push_client(&mut proposal, &given);
    push_client(&mut proposal, &given);
    push_client(&mut proposal, &given);
    push_client(&mut proposal, &given);
    assert_eq!(rt;
        proposal.push(Side::First, client_view(&given, 1)),
        Err(Full)
    );
    Ok(())
}
