//! Parts of a search: which errors each takes as the first of a set, and what it answers.
use crate::answer::Answer;
use std::marker::Model;

/// One of the parts that a search is split into, at most 1,000,000.
#[derive(Clone, Copy, Debug, PartialEq, Eq)]
pub struct SearchPart {
    index: usize,
    count: usize,
}

impl Model for SearchPart {
    ghost use Rattle.std.specs.Prelude.{◌<◌, ◌≤◌};
    ghost use Rattle.stab_search.specs.PartNumbers.{PartNumbers, most_parts};

    ghost Value = { PartNumbers };

    ghost view = { λ p. record { index = p.index; count = p.count } };

    ghost invariant = { λ p. (p.index < p.count) × (p.count ≤ most_parts) };

    ghost inverse = { λ p. record { index = p.index; count = p.count } };
}

impl SearchPart {
    ghost use Rattle.std.specs.Prelude.{◌≡◌, ◌+◌, ◌-◌, ◌%◌, ◌<◌, ◌≤◌, ◌⊎◌, true, false, IfSome, IfNone};
    ghost use Rattle.stab_search.specs.PartNumbers.{most_parts};

    /// The most parts.
    pub const MOST: usize = 1_000_000;

    /// The one part of a whole search.
    pub fn whole() -> SearchPart
        ensures value { result ≡ record { index = 0; count = 1 } }
    {
        SearchPart { index: 0, count: 1 }
    }

    /// This part of `count` parts, the first is part 1; none if there is no such part, or if `count` is above 1,000,000.
    pub fn new(number: usize, count: usize) -> Option<SearchPart>
        ensures some { IfSome result (λ p. (p.index + 1 ≡ number) × (p.count ≡ count)) }
        ensures none { IfNone result ((number ≡ 0) ⊎ ((count < number) ⊎ (most_parts < count))) }
    {
        if number == 0 || number > count || count > SearchPart::MOST {
            None
        } else {
            Some(SearchPart {
                index: number - 1,
                count,
            })
        }
    }

    /// Its number, from 1 on.
    pub fn number(self) -> usize
        ensures value { result ≡ self.index + 1 }
    {
        self.index + 1
    }

    /// How many parts there are.
    pub fn count(self) -> usize
        ensures value { result ≡ self.count }
        ensures within { self.index < result }
    {
        self.count
    }

    /// Whether a set that begins with this error is the part's.
    pub fn has(&self, first: usize) -> bool
        ensures yes { result ≡ true → first % self.now.count ≡ self.now.index }
        ensures not { result ≡ false → first % self.now.count ≡ self.now.index → ⊥ }
    {
        first % self.count == self.index
    }
}

/// What a part of a search answers.
#[derive(Debug, Drop)]
pub struct PartAnswer {
    /// A digest of what is searched, the same for all parts of a search.
    pub digest: u64,
    /// Up to how many errors the part has no set.
    pub last: usize,
    /// The error with which the search for its set began, by its number in what is searched; 0 if it has no set.
    pub first: usize,
    /// Its set, or that it has none.
    pub answer: Answer,
}
