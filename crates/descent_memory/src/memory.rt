//! What a descent remembers of its turns and of its moves.
ghost use Rattle.std.specs.Prelude.{◌≡◌, ℕ, ◌+◌, ◌<◌, ◌≤◌, ◌&&◌, List, length, replicate, nat_lt, slice_index, slice_set, IfOk, Option};
ghost use Rattle.problem_data.specs.Reads.{OneMore};
ghost use Rattle.descent_memory.specs.Memories.{last_count};
ghost use Rattle.descent_memory.specs.Pairs.{pairs_before};
ghost use Rattle.descent_memory.specs.Touching.{renewed, touched_by, touched_clients, touched_with};

use crate::pairs::pairs_of;
use problem_data::{NoMemory, Visit};
use std::alloc::Global;
use std::marker::Model;

/// When each client and each pair of vehicles had its last turn, and what was touched since.
///
/// The clock tells how many moves were taken. The moment of a client or a pair is one more than the clock was as its last finished
/// turn began, and 0 where it has had none; a last touch is what the clock became by the move. So a part is untouched since a moment
/// where its last touch is less.
#[derive(Drop)]
pub struct Memory {
    clock: u64,
    tried: u64,
    moments: Vec<u64>,
    pairs: Vec<u64>,
    clients: Vec<u64>,
    types: Vec<u64>,
    lists: Vec<u64>,
    unused: Vec<Option<u32>>,
}

impl Model for Memory {
    ghost use Rattle.std.specs.Prelude.{};
    ghost use Rattle.descent_memory.specs.Memories.{MemoryState};

    ghost Value = { MemoryState };

    ghost view = { λ a. record { clock = a.clock; tried = a.tried; moments = record { clients = a.moments.items; pairs = a.pairs.items }; touches = record { clients = a.clients.items; types = a.types.items; lists = a.lists.items }; unused = a.unused.items } };
}

/// Touches the clients of a list as the clock comes to a number.
fn touch_clients(clients: &mut [u64], visits: &[Visit], clock: u64)
    ensures { clients.new ≡ touched_clients clock visits.now clients.old }
{
    for visit in visits {
        touch_visit(clients, visit, clock);
    }
}

/// Touches the client of a visit, if it is one.
fn touch_visit(clients: &mut [u64], visit: &Visit, clock: u64)
    ensures { clients.new ≡ touched_by clock visit.now clients.old }
{
    if let Visit::Client(place) = visit {
        let place = *place as usize;
        if place < clients.len() {
            clients[place] = clock;
        }
    }
}

impl Memory {
    /// Nothing is remembered of some places and vehicles. Takes the least unused vehicle of each type. Refused only where memory runs
    /// out.
    pub fn new(
        alloc: Global,
        places: u32,
        vehicles: u32,
        unused: Vec<Option<u32>>,
    ) -> Result<Memory, NoMemory>
        ensures { IfOk result (λ m. m ≡ record { clock = 0; tried = 0; moments = record { clients = replicate places 0; pairs = replicate (pairs_before vehicles vehicles) 0 }; touches = record { clients = replicate places 0; types = replicate (length unused.items) 0; lists = replicate vehicles 0 }; unused = unused.items }) }
    {
        let moments = vec![in alloc; 0u64; places as usize]?;
        let pairs = vec![in alloc; 0u64; pairs_of(vehicles)]?;
        let clients = vec![in alloc; 0u64; places as usize]?;
        let types = vec![in alloc; 0u64; unused.len()]?;
        let lists = vec![in alloc; 0u64; vehicles as usize]?;
        Ok(Memory {
            clock: 0,
            tried: 0,
            moments,
            pairs,
            clients,
            types,
            lists,
            unused,
        })
    }

    /// How many moves were taken, unless the count stands at its last value.
    pub fn clock(&self) -> u64
        ensures { result ≡ self.now.clock }
    {
        self.clock
    }

    /// How many candidates were tried, unless the count stands at its last value.
    pub fn tried(&self) -> u64
        ensures { result ≡ self.now.tried }
    {
        self.tried
    }

    /// Counts a try.
    pub fn count(&mut self)
        ensures same { self.new ≡ record self.old { tried = self.new.tried } }
        ensures one { OneMore self.old.tried self.new.tried }
    {
        self.tried = self.tried.saturating_add(1);
    }

    /// The moment of a turn that begins now. It is that of no turn where the clock stands at its last value.
    pub fn moment(&self) -> u64
        ensures most { result ≤ self.now.clock + 1 }
        ensures next { self.now.clock < last_count → result ≡ self.now.clock + 1 }
    {
        if self.clock < u64::MAX {
            self.clock + 1
        } else {
            0
        }
    }

    /// Ends a client's turn that began at a moment. Condition: the client's place is in range.
    pub fn finish(&mut self, client: u32, moment: u64)
        requires { client < length self.old.moments.clients }
        ensures { self.new ≡ record self.old { moments = record self.old.moments { clients = slice_set self.old.moments.clients client moment } } }
    {
        self.moments[client as usize] = moment;
    }

    /// Ends the turn, that began at a moment, of the pair of vehicles at a place. Condition: the place is in range.
    pub fn finish_pair(&mut self, place: usize, moment: u64)
        requires { place < length self.old.moments.pairs }
        ensures { self.new ≡ record self.old { moments = record self.old.moments { pairs = slice_set self.old.moments.pairs place moment } } }
    {
        self.pairs[place] = moment;
    }

    /// Whether a client was untouched since its moment. Condition: the client's place is in range.
    pub fn is_client_untouched(&self, client: u32) -> bool
        requires moment { client < length self.now.moments.clients }
        requires client { client < length self.now.touches.clients }
        ensures { result ≡ nat_lt (slice_index self.now.touches.clients client) (slice_index self.now.moments.clients client) }
    {
        self.clients[client as usize] < self.moments[client as usize]
    }

    /// Whether neither a client nor a neighbour was touched since the client's moment. Condition: both places are in range.
    pub fn is_neighbour_untouched(&self, client: u32, neighbour: u32) -> bool
        requires moment { client < length self.now.moments.clients }
        requires client { client < length self.now.touches.clients }
        requires neighbour { neighbour < length self.now.touches.clients }
        ensures { result ≡ (nat_lt (slice_index self.now.touches.clients client) (slice_index self.now.moments.clients client) && nat_lt (slice_index self.now.touches.clients neighbour) (slice_index self.now.moments.clients client)) }
    {
        let moment = self.moments[client as usize];
        self.clients[client as usize] < moment && self.clients[neighbour as usize] < moment
    }

    /// Whether neither a client nor the least unused vehicle of a type was touched since the client's moment. Condition: both are in
    /// range.
    pub fn is_type_untouched(&self, client: u32, vehicle_type: u32) -> bool
        requires moment { client < length self.now.moments.clients }
        requires client { client < length self.now.touches.clients }
        requires vehicle_type { vehicle_type < length self.now.touches.types }
        ensures { result ≡ (nat_lt (slice_index self.now.touches.clients client) (slice_index self.now.moments.clients client) && nat_lt (slice_index self.now.touches.types vehicle_type) (slice_index self.now.moments.clients client)) }
    {
        let moment = self.moments[client as usize];
        self.clients[client as usize] < moment && self.types[vehicle_type as usize] < moment
    }

    /// Whether neither the list of a vehicle nor that of another was touched since the moment of the pair at a place. Condition: all
    /// are in range.
    pub fn are_lists_untouched(&self, place: usize, first: u32, second: u32) -> bool
        requires moment { place < length self.now.moments.pairs }
        requires first { first < length self.now.touches.lists }
        requires second { second < length self.now.touches.lists }
        ensures { result ≡ (nat_lt (slice_index self.now.touches.lists first) (slice_index self.now.moments.pairs place) && nat_lt (slice_index self.now.touches.lists second) (slice_index self.now.moments.pairs place)) }
    {
        let moment = self.pairs[place];
        self.lists[first as usize] < moment && self.lists[second as usize] < moment
    }

    /// Whether neither the least unused vehicle of a type nor that of another was touched since the moment of the pair at a place.
    /// Condition: all are in range.
    pub fn are_types_untouched(&self, place: usize, first: u32, second: u32) -> bool
        requires moment { place < length self.now.moments.pairs }
        requires first { first < length self.now.touches.types }
        requires second { second < length self.now.touches.types }
        ensures { result ≡ (nat_lt (slice_index self.now.touches.types first) (slice_index self.now.moments.pairs place) && nat_lt (slice_index self.now.touches.types second) (slice_index self.now.moments.pairs place)) }
    {
        let moment = self.pairs[place];
        self.types[first as usize] < moment && self.types[second as usize] < moment
    }

    /// Counts a move that is taken.
    pub fn tick(&mut self)
        ensures same { self.new ≡ record self.old { clock = self.new.clock } }
        ensures one { OneMore self.old.clock self.new.clock }
    {
        self.clock = self.clock.saturating_add(1);
    }

    /// Touches the list of a vehicle, which has some visits, and its clients. Condition: the vehicle is in range.
    pub fn touch(&mut self, vehicle: u32, visits: &[Visit])
        requires { vehicle < length self.old.touches.lists }
        ensures { self.new ≡ touched_with vehicle visits.now self.old }
    {
        touch_clients(&mut self.clients, visits, self.clock);
        self.lists[vehicle as usize] = self.clock;
    }

    /// How many vehicle types there are.
    pub fn types(&self) -> usize
        ensures { result ≡ length self.now.unused }
    {
        self.unused.len()
    }

    /// Tells it of a type's least unused vehicle, which is touched where it isn't the one that was. Condition: the type is in range.
    pub fn renew(&mut self, vehicle_type: usize, vehicle: Option<u32>)
        requires unused { vehicle_type < length self.old.unused }
        requires types { vehicle_type < length self.old.touches.types }
        ensures { self.new ≡ renewed vehicle_type vehicle self.old }
    {
        if self.unused[vehicle_type] != vehicle {
            self.unused[vehicle_type] = vehicle;
            self.types[vehicle_type] = self.clock;
        }
    }
}
