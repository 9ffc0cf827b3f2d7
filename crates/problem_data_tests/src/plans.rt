//! Tests of plans and visits.
use problem_data::{RouteList, Solution, Visit, VisitList, is_used};
use std::test::Fail;

#[test]
fn copies_a_solution(rt: HostRuntime) -> Result<(), Fail> {
    let alloc = rt.alloc();
    let visits = [Visit::Client(2), Visit::Reload(0), Visit::Client(1)].to_vec(alloc)?;
    let mut routes = Vec::new(alloc);
    routes.push(VisitList::from_vec(visits))?;
    let plan = Solution {
        routes: RouteList::from_vec(routes),
    };
    let copied = plan.copy(alloc)?;
    assert_eq!(rt; copied.routes.items().len(), 1);
    let first = copied.routes.items()[0].items();
    assert_eq!(rt;
        first,
        [Visit::Client(2), Visit::Reload(0), Visit::Client(1)].as_slice()
    );
    Ok(())
}

#[test]
fn a_list_of_reloads_is_unused(rt: HostRuntime) {
    assert_eq!(rt; Visit::Client(3).place(), 3);
    assert_eq!(rt; Visit::Reload(0).place(), 0);
    assert_eq!(rt; is_used(&[]), false);
    assert_eq!(rt; is_used(&[Visit::Reload(0)]), false);
    assert_eq!(rt; is_used(&[Visit::Reload(0), Visit::Client(3)]), true);
}
