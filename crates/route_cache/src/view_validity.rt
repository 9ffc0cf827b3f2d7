//! What holds of each view.
ghost use Rattle.route_cache.specs.Lending.{IsLendable};

use crate::view::View;

impl<'r> View<'r> {
    /// Says what holds of each view, and does nothing.
    pub fn validity(&self)
        ensures { IsLendable self.now }
    {
        self.given.validity();
    }
}
