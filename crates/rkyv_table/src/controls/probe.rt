//! The probe sequence of a hash, which is rkyv's triangular probing.
//!
//! The steps of the sequence grow by 16 each, modulo a power of two. Indices
//! from the probe capacity on are skipped.
ghost use Rattle.std.specs.Prelude.{List, ℕ, ◌%◌, ◌/◌, ◌<◌, ◌^◌, ◌≡◌, ◌≤◌};
ghost use Rattle.std.specs.Iterator.{YieldsFirst, item_count};
ghost use Rattle.rkyv_table.specs.{IsProbe, control_count, strides, strides_from};

use crate::controls::numbers;
use std::marker::Model;

/// The indices at which the remaining strides of a hash begin, in order.
#[derive(Drop)]
pub struct Probe {
    cap: usize,
    start: usize,
    // The last considered index of the sequence, or the start if there is none.
    pos: usize,
    // The distance of the next index from that one: 16 times the number of considered indices.
    step: usize,
}

impl Model for Probe {
    ghost Value = { List ℕ };

    ghost view = { λ p. strides_from p.cap p.start (p.step / 16) };

    ghost invariant = { λ p. IsProbe p.cap p.start p.pos p.step };
}

impl Probe {
    /// Returns the probe sequence of a hash in a table of `cap` buckets.
    #[inline]
    pub fn new(hash: u64, cap: usize) -> Probe
        requires some { 0 < cap }
        requires fits { control_count cap ≤ 2 ^ 63 }
        ensures { result ≡ strides hash cap }
    {
        Probe::starting_at(numbers::start(hash, cap), cap)
    }

    /// Returns the probe sequence of each hash that is `start` modulo `cap`.
    #[inline]
    pub fn starting_at(start: usize, cap: usize) -> Probe
        requires begun { start < cap }
        requires fits { control_count cap ≤ 2 ^ 63 }
        ensures { (hash : ℕ) → start ≡ hash % cap → result ≡ strides hash cap }
    {
        Probe {
            cap,
            start,
            pos: start,
            step: 0,
        }
    }
}

impl Iterator for Probe {
    type Item = usize;

    ghost next_gives = { YieldsFirst (λ p. p) };

    ghost remaining = { item_count (λ p. p) };

    // The first index doesn't need the modulus.
    #[inline]
    fn next(&mut self) -> Option<usize> {
        if self.step == 0 {
            self.step = 16;
            return Some(self.start);
        }
        let limit = numbers::probe_capacity(self.cap);
        let modulus = numbers::modulus(self.cap);
        while self.step < modulus {
            self.pos = (self.pos + self.step) & (modulus - 1);
            self.step += 16;
            if self.pos < limit {
                return Some(self.pos);
            }
        }
        None
    }
}
