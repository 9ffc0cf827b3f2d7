//! What is left out where two visits come to stand side by side.
ghost use Rattle.std.specs.Prelude.{◌≡◌};
ghost use Rattle.trips.specs.Joints.{joint_of};

use problem_data::Visit;

/// What is left out where two visits come to stand side by side.
#[derive(Clone, Copy, Debug, PartialEq, Eq)]
pub enum Joint {
    /// Nothing.
    Keep,
    /// The left visit, a reload behind which nothing comes.
    DropLeft,
    /// The right visit, a reload that doesn't stand behind a client.
    DropRight,
}

/// Which of two visits that come to stand side by side is a reload that isn't tidy: one that doesn't stand behind a client, or else
/// one behind which nothing comes. `None` is the start on the left, and the end on the right.
pub fn tidy_joint(left: Option<Visit>, right: Option<Visit>) -> Joint
    ensures { result ≡ joint_of left right }
{
    match (left, right) {
        (Some(Visit::Client(_)), Some(Visit::Reload(_))) => Joint::Keep,
        (_, Some(Visit::Reload(_))) => Joint::DropRight,
        (Some(Visit::Reload(_)), None) => Joint::DropLeft,
        _ => Joint::Keep,
    }
}
