//! What a search keeps of its problem.
ghost use Rattle.std.specs.Prelude.{◌≡◌, IfOk, map};
ghost use Rattle.routing_model.specs.Lawful.{is_required_group};
ghost use Rattle.plan_tables.specs.Tables.{HasProblemTables, some_type_reloads};

use penalty_cost::is_required_group;
use problem_data::{NoMemory, ProblemData};
use std::alloc::Global;

/// What a search asks often of its problem.
#[derive(Drop)]
pub struct ProblemTables {
    /// Whether each group is required.
    pub required: Vec<bool>,
    /// Whether vehicles of some type may reload.
    pub reload_types: bool,
}

/// Whether each group is required.
fn required_groups(alloc: Global, given: &ProblemData) -> Result<Vec<bool>, NoMemory>
    ensures { IfOk result (λ required. required.items ≡ map (is_required_group given.now) given.now.groups) }
{
    let groups = given.problem().groups.items();
    let mut required = Vec::new(alloc);
    for members in groups {
        required.push(is_required_group(given, members.items()))?;
    }
    Ok(required)
}

/// Whether vehicles of some type may reload.
fn has_reload_types(given: &ProblemData) -> bool
    ensures { result ≡ some_type_reloads given.now }
{
    let types = given.problem().types.items();
    types.iter().any(|vehicle_type| 0 < vehicle_type.reloads)
}

impl ProblemTables {
    /// The tables of a problem. Refused only where memory runs out.
    pub fn new(alloc: Global, given: &ProblemData) -> Result<ProblemTables, NoMemory>
        ensures { IfOk result (λ tables. HasProblemTables given.now tables) }
    {
        Ok(ProblemTables {
            required: required_groups(alloc, given)?,
            reload_types: has_reload_types(given),
        })
    }
}
