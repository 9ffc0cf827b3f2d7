//! What the questions are about.
use batch_run::Files;
use plan_texts::plan_of;
use problem_data::{NoMemory, ProblemData, Solution};
use std::alloc::Global;
use vrp_num::Rounding;
use vrplib_read::read_instance;

/// The longest instance.
const LARGEST_FILE: u64 = 64 << 20;

/// A problem and a plan.
#[derive(Drop)]
pub(crate) struct Session {
    pub(crate) given: ProblemData,
    pub(crate) plan: Solution,
}

impl Session {
    /// The problem of an instance file, with a plan of no lists; none where it can't be read.
    pub(crate) fn of_file<F: Files>(
        alloc: Global,
        files: &mut F,
        name: &str,
    ) -> Result<Option<Session>, NoMemory> {
        let Ok(bytes) = files.load(name, LARGEST_FILE) else {
            return Ok(None);
        };
        let Ok(problem) = read_instance(alloc, bytes.as_slice(), Rounding::Round) else {
            return Ok(None);
        };
        let given = ProblemData::new(alloc, problem)?;
        let Some(plan) = plan_of(alloc, 0, "")? else {
            return Ok(None);
        };
        Ok(Some(Session { given, plan }))
    }
}
