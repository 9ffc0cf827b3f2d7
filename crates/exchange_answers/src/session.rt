//! What the questions are about.
use batch_run::Files;
use plan_texts::plan_of;
use problem_data::{NoMemory, ProblemData, Solution};
use std::alloc::Global;
use std::mem;
use vrp_num::{Rounding, Xor128};
use vrplib_read::read_instance;

/// The longest instance.
const LARGEST_FILE: u64 = 64 << 20;

/// A problem, two plans and a generator.
#[derive(Drop)]
pub(crate) struct Session {
    pub(crate) given: ProblemData,
    pub(crate) plan: Solution,
    pub(crate) other: Solution,
    pub(crate) generator: Xor128,
}

impl Session {
    /// The problem of an instance file, with two plans of no visits and the generator of seed 1; none where it can't be read.
    pub(crate) fn of_file<F: Files>(
        alloc: Global,
        files: &mut F,
        name: &str,
    ) -> Result<Option<Session>, NoMemory> {
        let Ok(bytes) = files.load(name, LARGEST_FILE) else {
            return Ok(None);
        };
        let Ok(problem) = read_instance(alloc, bytes.as_slice(), Rounding::Round) else {
            return Ok(None);
        };
        let given = ProblemData::new(alloc, problem)?;
        let vehicles = given.vehicles();
        let Some(plan) = plan_of(alloc, vehicles, "")? else {
            return Ok(None);
        };
        let Some(other) = plan_of(alloc, vehicles, "")? else {
            return Ok(None);
        };
        Ok(Some(Session {
            given,
            plan,
            other,
            generator: Xor128::seeded(1),
        }))
    }

    /// Takes the plan of a text, if it is one.
    pub(crate) fn take_plan(&mut self, alloc: Global, text: &str) -> Result<bool, NoMemory> {
        match plan_of(alloc, self.given.vehicles(), text)? {
            Some(plan) => {
                self.plan = plan;
                Ok(true)
            }
            None => Ok(false),
        }
    }

    /// Swaps the two plans.
    pub(crate) fn swap(&mut self) {
        mem::swap(&mut self.plan, &mut self.other);
    }
}
