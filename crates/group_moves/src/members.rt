//! Which clients of groups are visited, and which clients have to be.
ghost use Rattle.std.specs.Prelude.{◌≡◌, ◌<◌, IsTrue, length};
ghost use Rattle.problem_data.specs.Places.{client_at, group_at, is_client_place};
ghost use Rattle.routing_model.proofs.GroupChanges.{lets_in, lets_out};
ghost use Rattle.group_moves.specs.inside.Groups.{are_unvisited, lets_stand_for};

use move_core::Search;

/// Whether a place is a client's.
pub(crate) fn is_client(search: &Search<'_>, place: u32) -> bool
    ensures { result ≡ is_client_place search.now.problem place }
{
    search.data().client_places().contains(&place)
}

/// Whether a client may be visited, too: no member of its group is visited. Condition: it isn't visited.
pub(crate) fn may_come(search: &Search<'_>, client: u32) -> bool
    requires { IsTrue (is_client_place search.now.problem client) }
    ensures { result ≡ lets_in search.now.problem search.now.routes (client_at search.now.problem client).group }
{
    match search.data().client(client).group {
        None => true,
        Some(group) => is_unvisited(search, members(search, group)),
    }
}

/// The members of a group.
fn members<'s>(search: &'s Search<'_>, group: u32) -> &'s [u32]
    requires { group < length search.now.problem.groups }
    ensures { result.now ≡ group_at search.now.problem group }
{
    let groups = search.data().problem().groups.items();
    groups[group as usize].items()
}

/// Whether none of some clients is visited.
fn is_unvisited(search: &Search<'_>, members: &[u32]) -> bool
    ensures { result ≡ are_unvisited search.now.routes members.now }
{
    for member in members {
        if search.position(*member).is_some() {
            return false;
        }
    }
    true
}

/// Whether a visited client needn't be: neither it nor its group is required.
pub(crate) fn may_go(search: &Search<'_>, client: u32) -> bool
    requires { IsTrue (is_client_place search.now.problem client) }
    ensures { result ≡ lets_out search.now.problem client (client_at search.now.problem client).group }
{
    let visited = search.data().client(client);
    match visited.group {
        None => visited.prize != 0,
        Some(group) => !search.is_required_group(group),
    }
}

/// Whether a client may be visited in the place of another one: they are of one group, or the one may come and the other go.
pub(crate) fn may_stand_for(search: &Search<'_>, client: u32, other: u32) -> bool
    requires client { IsTrue (is_client_place search.now.problem client) }
    requires other { IsTrue (is_client_place search.now.problem other) }
    ensures { result ≡ lets_stand_for search.now.problem search.now.routes client other }
{
    let group = search.data().client(client).group;
    if group.is_some() && group == search.data().client(other).group {
        return true;
    }
    may_come(search, client) && may_go(search, other)
}
