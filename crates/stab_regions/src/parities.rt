use stab_parities::merge_into;
use std::alloc::{AllocError, Global};
use std::marker::Model;

/// Some of a circuit's parities, each by its number, in increasing order.
#[derive(Drop)]
pub struct Parities {
    numbers: Vec<u32>,
}

impl Model for Parities {
    ghost use Rattle.std.specs.Prelude.{ℕ, List};
    ghost use Rattle.stab_parities.specs.Ascending.{IsAscending};

    ghost Value = { List ℕ };

    ghost view = { λ p. p.numbers.items };

    ghost invariant = { λ p. IsAscending p.numbers.items };
}

impl Parities {
    ghost use Rattle.std.specs.Prelude.{◌≡◌, ℕ, false, [], ◌∷◌, nat_eq, length, IfOk};
    ghost use Rattle.stab_gates.specs.Letters.{◌⊕◌};
    ghost use Rattle.stab_parities.specs.Ascending.{IsAscending};
    ghost use Rattle.stab_parities.specs.OddNumbers.{odd};

    /// None, which takes no memory.
    pub fn none(alloc: Global) -> Parities
        ensures value { result ≡ [] }
    {
        Parities {
            numbers: Vec::new(alloc),
        }
    }

    /// This one alone.
    pub fn one(alloc: Global, number: u32) -> Result<Parities, AllocError>
        ensures value { IfOk result (λ p. p ≡ number ∷ []) }
    {
        let mut numbers = Vec::with_capacity(alloc, 1)?;
        numbers.push(number)?;
        Ok(Parities { numbers })
    }

    /// Their numbers.
    pub fn numbers(&self) -> &[u32]
        ensures value { result.now ≡ self.now }
        ensures ascending { IsAscending self.now }
    {
        self.numbers.as_slice()
    }

    /// Whether there are none.
    pub fn is_empty(&self) -> bool
        ensures value { result ≡ nat_eq (length self.now) 0 }
    {
        self.numbers.is_empty()
    }

    /// The same again.
    pub fn copy(&self, alloc: Global) -> Result<Parities, AllocError>
        ensures value { IfOk result (λ p. p ≡ self.now) }
    {
        let mut numbers = Vec::with_capacity(alloc, self.numbers.len())?;
        numbers.extend_from_slice(self.numbers.as_slice())?;
        Ok(Parities { numbers })
    }

    /// Those that are among these or among the others, and not among both.
    pub fn merged(&self, alloc: Global, others: &Parities) -> Result<Parities, AllocError>
        ensures odd { IfOk result (λ p. (i : ℕ) → odd i p ≡ odd i self.now ⊕ odd i others.now) }
    {
        let most = self.numbers.len() + others.numbers.len();
        let mut numbers = Vec::with_capacity(alloc, most)?;
        merge_into(
            &mut numbers,
            self.numbers.as_slice(),
            others.numbers.as_slice(),
        )?;
        Ok(Parities { numbers })
    }

    /// The same of these themselves, which takes no memory if there are no others.
    pub fn with(self, alloc: Global, others: &Parities) -> Result<Parities, AllocError>
        ensures odd { IfOk result (λ p. (i : ℕ) → odd i p ≡ odd i self ⊕ odd i others.now) }
    {
        if others.is_empty() {
            return Ok(self);
        }
        self.merged(alloc, others)
    }
}
