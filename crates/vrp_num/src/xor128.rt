//! Random words.
ghost use Rattle.std.specs.Prelude.{◌≡◌, ◌<◌, ◌≤◌};
ghost use Rattle.vrp_num.specs.Words.{State, next_state, next_word, drawn, seeded};

use std::marker::Model;

/// The generator xor128 of random words (Marsaglia, "Xorshift RNGs", 2003), whose state is four words of 32 bits.
///
/// From one state it gives the same words on every machine. It is for search, and not for secrets.
#[derive(Debug, Drop)]
pub struct Xor128 {
    x: u32,
    y: u32,
    z: u32,
    w: u32,
}

impl Model for Xor128 {
    ghost use Rattle.vrp_num.specs.Words.{State};

    ghost Value = { State };

    ghost view = { λ g. record { x = g.x; y = g.y; z = g.z; w = g.w } };
}

impl Xor128 {
    /// The generator that `seed` starts: the seed is the state's word w, and x, y and z are 521288629, 362436069 and 123456789.
    pub fn seeded(seed: u32) -> Xor128
        ensures { result ≡ seeded seed }
    {
        Xor128::with_state(521288629, 362436069, 123456789, seed)
    }

    /// The generator in the state of these four words. From four zeros each word is 0.
    pub fn with_state(x: u32, y: u32, z: u32, w: u32) -> Xor128
        ensures { result ≡ record { x = x; y = y; z = z; w = w } }
    {
        Xor128 { x, y, z, w }
    }

    /// The next word, from 0 to 2^32 - 1, and the generator goes on to the next state: with t = x ^ (x << 11), the words x, y and z
    /// become y, z and w, and w becomes w ^ (w >> 19) ^ t ^ (t >> 8), which is the answer.
    pub fn next(&mut self) -> u32
        ensures word { result ≡ next_word self.old }
        ensures state { self.new ≡ next_state self.old }
    {
        let t = self.x ^ (self.x << 11);
        self.x = self.y;
        self.y = self.z;
        self.z = self.w;
        self.w = self.w ^ (self.w >> 19) ^ t ^ (t >> 8);
        self.w
    }

    /// A draw from 0 to `n` - 1, which takes one word: the next word modulo `n`. `n` is at least 1.
    ///
    /// Small numbers come a little more often where `n` does not divide 2^32.
    pub fn below(&mut self, n: u32) -> u32
        requires { 1 ≤ n }
        ensures drawn { result ≡ drawn n self.old }
        ensures state { self.new ≡ next_state self.old }
    {
        self.next() % n
    }
}
