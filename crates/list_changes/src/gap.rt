//! What is left of a list where a piece is taken out.
ghost use Rattle.std.specs.Prelude.{◌≡◌, ◌<◌, ◌≤◌, length};
ghost use Rattle.route_cache.specs.Gaps.{visit_before};
ghost use Rattle.list_changes.specs.Gaps.{IsGap};
ghost use Rattle.list_changes.specs.Layouts.{left_layout};

use crate::layout::{Layout, NOTHING};
use problem_data::Visit;
use route_cache::Route;
use trips::{Joint, tidy_joint};

/// The first visits of a list, up to a position from 0, and the last ones, from another position on.
#[derive(Clone, Copy)]
pub struct Gap {
    pub left: u32,
    pub right: u32,
}

impl Gap {
    /// The list without what is between.
    pub fn layout(self) -> Layout
        ensures { result ≡ left_layout self.left self.right }
    {
        Layout {
            left: self.left,
            one: NOTHING,
            two: NOTHING,
            three: NOTHING,
            right: self.right,
        }
    }
}

/// What is left of a route's list without the visits from one position up to another one, so that it is tidy: the visits before and
/// behind them, but for a reload that would follow no client or that no visit would follow.
pub fn gap_of(route: &Route<'_>, first: u32, end: u32) -> Gap
    requires in_order { first < end }
    requires in_list { end ≤ length route.now.visits }
    ensures { IsGap route.now.visits first end result }
{
    let visits = route.visits();
    let behind = visits.get(end as usize).copied();
    match tidy_joint(before(visits, first), behind) {
        Joint::Keep => Gap {
            left: first,
            right: end,
        },
        Joint::DropLeft => Gap {
            left: first.saturating_sub(1),
            right: end,
        },
        Joint::DropRight => Gap {
            left: first,
            right: end + 1,
        },
    }
}

/// The visit before a position.
fn before(visits: &[Visit], position: u32) -> Option<Visit>
    requires { position ≤ length visits.now }
    ensures { result ≡ visit_before visits.now position }
{
    if position == 0 {
        None
    } else {
        Some(visits[position as usize - 1])
    }
}
