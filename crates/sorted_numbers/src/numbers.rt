//! Numbers in ascending order.
ghost use Rattle.std.specs.Prelude.{◌≡◌, ◌*◌, ◌<◌, ◌≤◌, ◌^◌, [], Contains, IfOk, length, nat_lt, sum, take};
ghost use Rattle.list_words.specs.Order.{put_in_order};
ghost use Rattle.sorted_numbers.specs.inside.Places.{IsPlaceFor};

use problem_data::NoMemory;
use std::alloc::Global;
use std::marker::Model;

/// The most numbers that there is room for.
pub const MOST_NUMBERS: usize = 400;

/// Numbers in ascending order, equal ones as often as they were put in. Room for [`MOST_NUMBERS`] is taken once. Contracts see the list.
#[derive(Drop)]
pub struct SortedNumbers {
    numbers: Vec<u32>,
}

impl Model for SortedNumbers {
    ghost use Rattle.std.specs.Prelude.{◌≤◌, ℕ, List, length, vec_capacity};
    ghost use Rattle.std.specs.List.Sorted.{IsNonDecreasing};

    ghost Value = { List ℕ };

    ghost view = { λ a. a.numbers.items };

    ghost invariant = { λ a. IsNonDecreasing a.numbers.items × (length a.numbers.items ≤ 400) × (400 ≤ vec_capacity a.numbers) };
}

impl SortedNumbers {
    /// No numbers yet. Refused only where memory runs out.
    pub fn with_room(alloc: Global) -> Result<SortedNumbers, NoMemory>
        ensures { IfOk result (λ r. r ≡ []) }
    {
        Ok(SortedNumbers {
            numbers: Vec::with_capacity(alloc, MOST_NUMBERS)?,
        })
    }

    /// The numbers, in ascending order.
    pub fn as_slice(&self) -> &[u32]
        ensures numbers { result.now ≡ self.now }
        ensures few { length result.now ≤ MOST_NUMBERS }
    {
        self.numbers.as_slice()
    }

    /// A place at which a number can be put in: none before it is greater, and none from it on is less.
    fn place_for(&self, number: u32) -> usize
        ensures { IsPlaceFor self.now number result }
    {
        match self.numbers.binary_search(&number) {
            Ok(at) => at,
            Err(at) => at,
        }
    }

    /// Puts a number in. Condition: there is room. Takes no memory.
    pub fn insert(&mut self, number: u32)
        requires { length self.old < MOST_NUMBERS }
        ensures { self.new ≡ put_in_order nat_lt number self.old }
    {
        let at = self.place_for(number);
        self.numbers.insert(at, number).unwrap();
    }

    /// Takes a number out, once. Condition: it is there.
    pub fn remove(&mut self, number: u32)
        requires { Contains self.old number }
        ensures { self.old ≡ put_in_order nat_lt number self.new }
    {
        if let Ok(at) = self.numbers.binary_search(&number) {
            self.numbers.remove(at);
        }
    }

    /// The sum of the least numbers, of so many of them, or of all where there are fewer.
    pub fn least_sum(&self, count: u32) -> u64
        ensures sum { result ≡ sum (take count self.now) }
        ensures bound { result ≤ MOST_NUMBERS * 2 ^ 32 }
    {
        let count = self.numbers.len().min(count as usize);
        let mut sum = 0;
        for number in &self.numbers[..count] {
            sum += u64::from(*number);
        }
        sum
    }
}
