//! Tables of pieces: what a route keeps of its beginnings, or of its endings.
ghost use Rattle.std.specs.Prelude.{◌≡◌, ◌<◌, ◌++◌, [], ◌∷◌, IfOk, OnOk, length, slice_index_or};
ghost use Rattle.trips.specs.declared.piece.Piece.{Piece};
ghost use Rattle.route_cache.specs.inside.Shapes.{back, front, grown_middles, grown_outer, head_of, middle_of, no_trip, shaped, tail_of};

use problem_data::{NoMemory, Visit};
use segments::{DurationSegment, Segment};
use smallvec::SmallVec;
use std::alloc::Global;
use trips::{Middle, Piece, TripSegment};

/// What is kept of all runs that begin with the start, or of all that end with the end.
#[derive(Drop)]
pub struct PieceTable {
    /// For each number of visits, the piece of the trip that goes on there.
    pub pieces: Vec<Piece>,
    /// For each number of reloads but 0, the whole trips between both ends of the run.
    pub middles: SmallVec<Middle, 4>,
    /// The piece at the other end of each run with a reload.
    pub outer: Piece,
}

impl PieceTable {
    /// The table of the start alone, or of the end alone, with room for so many pieces.
    pub(crate) fn new(alloc: Global, room: usize, piece: Piece) -> Result<PieceTable, NoMemory>
        ensures pieces { IfOk result (λ r. r.pieces.items ≡ piece ∷ []) }
        ensures middles { IfOk result (λ r. r.middles.items ≡ no_trip ∷ []) }
        ensures outer { IfOk result (λ r. r.outer ≡ piece) }
    {
        let mut pieces = Vec::with_capacity(alloc, room)?;
        pieces.push(piece)?;
        let mut middles = SmallVec::new(alloc);
        middles.push(nothing())?;
        Ok(PieceTable {
            pieces,
            middles,
            outer: piece,
        })
    }

    /// One visit more: the piece of the trip that goes on there, and at a reload what else has become known.
    #[inline(always)]
    pub(crate) fn push(
        &mut self,
        visit: Visit,
        inner: Piece,
        middle: Middle,
        outer: Piece,
    ) -> Result<(), NoMemory>
        ensures pieces { OnOk result (self.new.pieces.items ≡ self.old.pieces.items ++ inner ∷ []) }
        ensures middles { OnOk result (self.new.middles.items ≡ grown_middles visit self.old.middles.items middle) }
        ensures outer { OnOk result (self.new.outer ≡ grown_outer visit self.old.outer outer) }
    {
        self.pieces.push(inner)?;
        match visit {
            Visit::Client(_) => {}
            Visit::Reload(_) => {
                self.middles.push(middle)?;
                self.outer = outer;
            }
        }
        Ok(())
    }

    /// The segment of the start with so many visits, among which there are so many reloads.
    pub(crate) fn from_front(&self, count: usize, reloads: u32) -> TripSegment
        requires piece { count < length self.now.pieces.items }
        requires trip { reloads < length self.now.middles.items }
        ensures { (none : Piece) → result ≡ shaped front self.now.outer self.now.middles.items reloads (slice_index_or self.now.pieces.items count none) }
    {
        let tail = self.pieces[count];
        if reloads == 0 {
            return TripSegment::Open(tail);
        }
        TripSegment::Split {
            head: self.outer,
            middle: self.middles.as_slice()[reloads as usize],
            tail,
        }
    }

    /// The segment of so many visits with the end, among which there are so many reloads.
    pub(crate) fn from_back(&self, count: usize, reloads: u32) -> TripSegment
        requires piece { count < length self.now.pieces.items }
        requires trip { reloads < length self.now.middles.items }
        ensures { (none : Piece) → result ≡ shaped back self.now.outer self.now.middles.items reloads (slice_index_or self.now.pieces.items count none) }
    {
        let head = self.pieces[count];
        if reloads == 0 {
            return TripSegment::Open(head);
        }
        TripSegment::Split {
            head,
            middle: self.middles.as_slice()[reloads as usize],
            tail: self.outer,
        }
    }
}

/// No trip.
fn nothing() -> Middle
    ensures { result ≡ no_trip }
{
    Middle {
        duration: DurationSegment::empty(),
        excess: 0,
    }
}

/// The first piece.
pub(crate) fn head_of(trips: TripSegment) -> Piece
    ensures { result ≡ head_of trips }
{
    match trips {
        TripSegment::Open(piece) => piece,
        TripSegment::Split { head, .. } => head,
    }
}

/// The last piece.
pub(crate) fn tail_of(trips: TripSegment) -> Piece
    ensures { result ≡ tail_of trips }
{
    match trips {
        TripSegment::Open(piece) => piece,
        TripSegment::Split { tail, .. } => tail,
    }
}

/// The whole trips between both.
pub(crate) fn middle_of(trips: TripSegment) -> Middle
    ensures { result ≡ middle_of trips }
{
    match trips {
        TripSegment::Open(_) => nothing(),
        TripSegment::Split { middle, .. } => middle,
    }
}
