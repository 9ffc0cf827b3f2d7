//! Reloads that aren't tidy are left out.
ghost use Rattle.std.specs.Prelude.{◌≡◌, IfOk};
ghost use Rattle.routing_model.specs.Tidy.{tidied};
ghost use Rattle.exchange_children.specs.inside.Tidying.{stays};

use problem_data::{NoMemory, Visit, is_used};
use std::alloc::Global;

/// Whether a visit stays in a tidied list, by whether a client stands directly before it and by what comes after it.
fn stays(behind_client: bool, visit: Visit, rest: &[Visit]) -> bool
    ensures { result ≡ stays behind_client visit rest.now }
{
    visit.is_client() || (behind_client && is_used(rest))
}

/// A list without its reloads that aren't tidy: those that don't stand directly behind a client, and those with no client after them.
pub(crate) fn tidied(alloc: Global, visits: &[Visit]) -> Result<Vec<Visit>, NoMemory>
    ensures { IfOk result (λ r. r.items ≡ tidied visits.now) }
{
    let mut list = Vec::new(alloc);
    let mut behind_client = false;
    for (at, visit) in visits.iter().enumerate() {
        if stays(behind_client, *visit, &visits[at + 1..]) {
            list.push(*visit)?;
        }
        behind_client = visit.is_client();
    }
    Ok(list)
}
