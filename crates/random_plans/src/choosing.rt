//! Which clients a random plan visits: they are decided on one by one, in a random order.
ghost use Rattle.std.specs.Prelude.{◌≡◌, ◌+◌, ◌<◌, true, All, IfOk, OnOk, IsTrue, length, slice_index, take};
ghost use Rattle.std.specs.List.{slice_set};
ghost use Rattle.problem_data.specs.Places.{is_client_place};
ghost use Rattle.problem_data.specs.Valid.{IsValid};
ghost use Rattle.routing_model.specs.Lawful.{is_required_group};
ghost use Rattle.random_model.specs.RandomSolution as model;
ghost use Rattle.random_plans.specs.inside.Choices.{choice_by_group, group_marks, is_taken, meaning, state_past};

use problem_data::{NoMemory, ProblemData};
use std::alloc::Global;
use vrp_num::Xor128;

/// How it is decided whether a client is chosen.
enum Choice {
    Chosen,
    PassedOver,
    ByDraw,
}

/// Whether all members of a group have the prize 0.
fn is_group_required(given: &ProblemData, members: &[u32]) -> bool
    requires { All (λ place. IsTrue (is_client_place given.now place)) members.now }
    ensures { result ≡ is_required_group given.now members.now }
{
    for place in members {
        if given.client(*place).prize != 0 {
            return false;
        }
    }
    true
}

/// How it is decided for a member of a group, which is then marked as met.
fn choice_in_group(given: &ProblemData, group: u32, marks: &mut Vec<bool>) -> Choice
    requires group { group < length given.now.groups }
    requires marks { length marks.old.items ≡ length given.now.groups }
    ensures choice { meaning result ≡ choice_by_group given.now marks.old.items group }
    ensures marks { marks.new.items ≡ slice_set marks.old.items group true }
{
    if marks[group as usize] {
        return Choice::PassedOver;
    }
    marks[group as usize] = true;
    let members = given.problem().groups.items()[group as usize].items();
    if is_group_required(given, members) {
        Choice::Chosen
    } else {
        Choice::ByDraw
    }
}

/// How it is decided for the client at a position of the order; its group is then marked as met.
fn choice_at(given: &ProblemData, order: &[u32], at: usize, marks: &mut Vec<bool>) -> Choice
    requires valid { IsValid given.now }
    requires at { at < length order.now }
    requires clients { All (λ place. IsTrue (is_client_place given.now place)) order.now }
    requires marks { marks.old.items ≡ group_marks given.now (take at order.now) }
    ensures choice { meaning result ≡ model.choice_of given.now (take at order.now) (slice_index order.now at) }
    ensures marks { marks.new.items ≡ group_marks given.now (take (at + 1) order.now) }
{
    let client = given.client(order[at]);
    match client.group {
        Some(group) => choice_in_group(given, group, marks),
        None => {
            if client.prize == 0 {
                Choice::Chosen
            } else {
                Choice::ByDraw
            }
        }
    }
}

/// Whether the client is chosen: where a draw decides, a draw below 2 that is 1 chooses it.
fn is_chosen(choice: Choice, generator: &mut Xor128) -> bool
    ensures chosen { result ≡ is_taken (meaning choice) generator.old }
    ensures state { generator.new ≡ state_past (meaning choice) generator.old }
{
    match choice {
        Choice::Chosen => true,
        Choice::PassedOver => false,
        Choice::ByDraw => generator.below(2) == 1,
    }
}

/// The clients that a walk over the order chooses, in order.
pub(crate) fn chosen_clients(
    alloc: Global,
    given: &ProblemData,
    order: &[u32],
    generator: &mut Xor128,
) -> Result<Vec<u32>, NoMemory>
    requires { All (λ place. IsTrue (is_client_place given.now place)) order.now }
    ensures chosen { IfOk result (λ r. r.items ≡ (model.walk given.now order.now generator.old).picked) }
    ensures state { OnOk result (generator.new ≡ (model.walk given.now order.now generator.old).state) }
{
    let mut marks = vec![in alloc; false; given.problem().groups.items().len()]?;
    let mut chosen = Vec::new(alloc);
    for (at, place) in order.iter().enumerate() {
        let choice = choice_at(given, order, at, &mut marks);
        if is_chosen(choice, generator) {
            chosen.push(*place)?;
        }
    }
    Ok(chosen)
}
