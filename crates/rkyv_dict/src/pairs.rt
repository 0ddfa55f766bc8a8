//! The list of the pairs that a script puts.
ghost use Rattle.rkyv_dict.specs.{kind_of_pairs, list_len, no_pairs, pairs_of, take_pairs};
ghost use Rattle.rkyv_dict.specs.{with_numbers, with_texts};
ghost use Rattle.std.specs.Prelude.{◌≡◌, ◌≤◌, ℕ, IfErr, OnErr, OnOk};

use crate::form::Kind;
use std::alloc::{AllocError, Global};

/// Pairs of keys and values of one kind, in insertion order.
#[derive(Drop)]
pub enum PairList<'a> {
    /// The pairs of a map of integers.
    Numbers(Vec<(u32, u32)>),
    /// The pairs of a map of strings.
    Texts(Vec<(&'a str, &'a str)>),
}

impl<'a> PairList<'a> {
    /// Returns an empty list of the kind.
    pub fn new(alloc: Global, kind: Kind) -> PairList<'a>
        ensures { pairs_of result ≡ no_pairs kind }
    {
        match kind {
            Kind::Num => PairList::Numbers(Vec::new(alloc)),
            Kind::Text => PairList::Texts(Vec::new(alloc)),
        }
    }

    /// Returns the kind of the pairs.
    pub fn kind(&self) -> Kind
        ensures { result ≡ kind_of_pairs (pairs_of self.now) }
    {
        match self {
            PairList::Numbers(_) => Kind::Num,
            PairList::Texts(_) => Kind::Text,
        }
    }

    /// Returns the number of pairs.
    pub fn len(&self) -> usize
        ensures { result ≡ list_len self.now }
    {
        match self {
            PairList::Numbers(pairs) => pairs.len(),
            PairList::Texts(pairs) => pairs.len(),
        }
    }

    /// Appends a pair to a list of integers, and leaves a list of strings unchanged.
    ///
    /// After `AllocError`, the pairs are unchanged.
    pub fn put_numbers(&mut self, key: u32, value: u32) -> Result<(), AllocError>
        ensures added { OnOk result
            (pairs_of self.new ≡ with_numbers (pairs_of self.old) key value) }
        ensures unchanged { IfErr result (λ _. pairs_of self.new ≡ pairs_of self.old) }
        ensures numbers { OnErr result (kind_of_pairs (pairs_of self.old) ≡ Kind.Num) }
        ensures kept { list_len self.old ≤ list_len self.new }
        ensures first { (n : ℕ) → n ≤ list_len self.old
            → take_pairs n (pairs_of self.new) ≡ take_pairs n (pairs_of self.old) }
    {
        match self {
            PairList::Numbers(pairs) => Ok(pairs.push((key, value))?),
            PairList::Texts(_) => Ok(()),
        }
    }

    /// Appends a pair to a list of strings, and leaves a list of integers unchanged.
    ///
    /// After `AllocError`, the pairs are unchanged.
    pub fn put_texts(&mut self, key: &'a str, value: &'a str) -> Result<(), AllocError>
        ensures added { OnOk result
            (pairs_of self.new ≡ with_texts (pairs_of self.old) key.now value.now) }
        ensures unchanged { IfErr result (λ _. pairs_of self.new ≡ pairs_of self.old) }
        ensures texts { OnErr result (kind_of_pairs (pairs_of self.old) ≡ Kind.Text) }
        ensures kept { list_len self.old ≤ list_len self.new }
        ensures first { (n : ℕ) → n ≤ list_len self.old
            → take_pairs n (pairs_of self.new) ≡ take_pairs n (pairs_of self.old) }
    {
        match self {
            PairList::Numbers(_) => Ok(()),
            PairList::Texts(pairs) => Ok(pairs.push((key, value))?),
        }
    }
}
