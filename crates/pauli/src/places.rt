// Sets of places.
ghost use Rattle.std.specs.Prelude.{◌≡◌, ◌+◌, ◌%◌, ◌^◌, ◌<◌, ◌≤◌, ◌==◌, bit_or};
ghost use Rattle.std.specs.Iterator.{YieldsFirstBy, item_count};
ghost use Rattle.binar.specs.Row.{◌⊕◌, bit, dot, weight};
ghost use Rattle.pauli.specs.PlaceSet.{set_in};
ghost use Rattle.pauli.specs.Sets.{members};

use crate::support::Place;
use std::marker::Model;
use std::ops::{BitOr, BitXor};

// A set of at most 128 places: place p is bit p % 64 of low, or of high from 64 on.
#[derive(Clone, Copy)]
pub struct Places {
    pub low: u64,
    pub high: u64,
}

impl Places {
    pub fn none() -> Places
        ensures { set_in result ≡ 0 }
    {
        Places { low: 0, high: 0 }
    }

    // Whether the place is in the set.
    pub fn contains(self, p: Place) -> bool
        requires { p.0 < 128 }
        ensures { result ≡ (bit (set_in self) p.0 == 1) }
    {
        let i = p.0;
        if i < 64 {
            return (self.low >> i) % 2 == 1;
        }
        (self.high >> (i - 64)) % 2 == 1
    }

    // The places of the set, rising.
    pub fn iter(self) -> PlacesIter
        ensures { result ≡ members (set_in self) }
    {
        PlacesIter { left: self }
    }

    // 1 where the two sets share an odd number of places, else 0. It is a number, since callers add it or multiply by it: a branch
    // would be guessed wrong half of the time.
    pub fn dot(self, other: Places) -> u64
        ensures { (result ≡ dot (set_in self) (set_in other)) × (result < 2) }
    {
        let shared = (self.low & other.low) ^ (self.high & other.high);
        (u64::count_ones(shared) % 2) as u64
    }

    pub fn weight(self) -> usize
        ensures { (result ≡ weight (set_in self)) × (result ≤ 128) }
    {
        (u64::count_ones(self.low) as usize) + (u64::count_ones(self.high) as usize)
    }

    pub fn is_zero(self) -> bool
        ensures { result ≡ (set_in self == 0) }
    {
        (self.low | self.high) == 0
    }
}

// The places in one of the two sets and not in the other.
impl BitXor for Places {
    type Output = Places;

    ghost bitxor_gives = { λ s t r. set_in r ≡ set_in s ⊕ set_in t };

    fn bitxor(self, other: Places) -> Places {
        Places {
            low: self.low ^ other.low,
            high: self.high ^ other.high,
        }
    }
}

// The places in either set.
impl BitOr for Places {
    type Output = Places;

    ghost bitor_gives = { λ s t r. set_in r ≡ bit_or (set_in s) (set_in t) };

    fn bitor(self, other: Places) -> Places {
        Places {
            low: self.low | other.low,
            high: self.high | other.high,
        }
    }
}

// Hands out the places of a set, rising.
#[derive(Drop)]
pub struct PlacesIter {
    // those that are still to come
    left: Places,
}

impl Model for PlacesIter {
    ghost use Rattle.std.specs.Prelude.{ℕ, List};
    ghost use Rattle.pauli.specs.PlaceSet.{set_in};
    ghost use Rattle.pauli.specs.Sets.{members};

    ghost Value = { List ℕ };

    ghost view = { λ s. members (set_in s.left) };
}

impl Iterator for PlacesIter {
    type Item = Place;

    ghost next_gives = { YieldsFirstBy (λ p. p.0) (λ rest. rest) };

    ghost remaining = { item_count (λ rest. rest) };

    fn next(&mut self) -> Option<Place> {
        let low = self.left.low;
        if low != 0 {
            self.left.low = low & (low - 1);
            return Some(Place(u64::trailing_zeros(low) as usize));
        }
        let high = self.left.high;
        if high != 0 {
            self.left.high = high & (high - 1);
            return Some(Place(64 + (u64::trailing_zeros(high) as usize)));
        }
        None
    }
}
