//! Tests of trip segments.
use problem_data::{Client, Depot, Window};
use segments::DurationSegment;
use std::test::Fail;
use trips::TripSegment;

/// A depot that is open from 0 to 100, two clients, the second of which has a release of 30, and legs of 5 between all of them: the
/// list visits the first client, reloads, and visits the second.
#[test]
fn two_trips_are_closed(rt: HostRuntime) -> Result<(), Fail> {
    let times = Window {
        early: 0,
        late: 100,
    };
    let depot = Depot {
        window: times,
        service: 0,
    };
    let early = Client {
        delivery: 0,
        pickup: 0,
        window: Window { early: 0, late: 10 },
        service: 0,
        release: 0,
        prize: 7,
        group: None,
    };
    let late = Client {
        delivery: 0,
        pickup: 0,
        window: times,
        service: 0,
        release: 30,
        prize: 0,
        group: None,
    };
    let start = TripSegment::departure(&depot, times);
    let first = start.merge(TripSegment::client(&early), 5, 10);
    let second = first.merge(TripSegment::reload(&depot), 5, 10);
    let third = second.merge(TripSegment::client(&late), 5, 10);
    let all = third.merge(TripSegment::arrival(times), 5, 10);
    let route = all.close(10);
    let wanted = DurationSegment {
        duration: 35,
        warp: 0,
        earliest: 5,
        latest: 5,
    };
    assert_eq!(rt; route.duration, wanted);
    assert_eq!(rt; route.excess, 0);
    assert_eq!(rt; route.duration.at_start(0).duration, 40);
    Ok(())
}
