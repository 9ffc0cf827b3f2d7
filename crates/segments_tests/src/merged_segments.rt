//! Tests of segments.
use segments::{DistanceSegment, Drive, DurationSegment, LoadSegment, Segment};
use std::test::Fail;

fn duration_segment(duration: i64, warp: i64, earliest: i64, latest: i64) -> DurationSegment {
    DurationSegment {
        duration,
        warp,
        earliest,
        latest,
    }
}

#[test]
fn drives_one_stop_after_the_other(rt: HostRuntime) -> Result<(), Fail> {
    let first = DurationSegment::stop(0, 10, 5);
    let waits = first.merge(DurationSegment::stop(30, 40, 5), 10);
    let warps = first.merge(DurationSegment::stop(0, 12, 5), 10);
    let released = waits.released(20);
    let rows = [
        (waits, duration_segment(25, 0, 10, 10)),
        (warps, duration_segment(20, 3, 0, 0)),
        (released, duration_segment(25, 10, 20, 20)),
    ];
    for (found, wanted) in rows {
        assert_eq!(rt; found, wanted);
    }
    assert_eq!(rt;
        warps.at_start(4),
        Drive {
            duration: 20,
            warp: 7
        }
    );
    assert_eq!(rt; (waits.least_duration(), released.least_warp()), (25, 10));
    Ok(())
}

#[test]
fn drives_two_trips(rt: HostRuntime) -> Result<(), Fail> {
    let depot = DurationSegment::stop(0, 100, 0);
    let first = depot
        .merge(DurationSegment::stop(0, 10, 0), 5)
        .merge(depot, 5);
    let second = depot.merge(depot, 5).merge(depot, 5).released(30);
    let both = first.merge(second, 0).merge(DurationSegment::empty(), 0);
    assert_eq!(rt; both, duration_segment(35, 0, 5, 5));
    assert_eq!(rt; both.at_start(0).duration, 40);
    Ok(())
}

#[test]
fn adds_loads_and_distances(rt: HostRuntime) -> Result<(), Fail> {
    let delivery = LoadSegment::client(4, 0);
    let pickup = LoadSegment::client(0, 6);
    let rows = [
        (delivery.merge(pickup, 0).load, 6),
        (pickup.merge(delivery, 0).load, 10),
    ];
    for (found, wanted) in rows {
        assert_eq!(rt; found, wanted);
    }
    let none = DistanceSegment::empty();
    assert_eq!(rt; none.merge(none, 7).merge(none, 8).distance, 15);
    Ok(())
}
