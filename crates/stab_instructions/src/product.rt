ghost use Rattle.std.specs.Prelude.{◌≡◌, IfOk};

use crate::axis::Axis;
use crate::range::Qubit;
use crate::sequence::Sequence;
use std::alloc::{AllocError, Global};
use std::marker::Model;

/// A letter on a qubit, and whether it inverts the recorded bit of its product.
#[derive(Clone, Copy, Debug, PartialEq, Eq)]
pub struct Factor {
    pub letter: Axis,
    pub qubit: Qubit,
    pub inverted: bool,
}

/// A product of letters on different qubits, which is measured as a whole.
pub struct Product {
    factors: Sequence<Factor>,
}

// Written out, so that a proof sees the drop of a value as one call, and not one for each of its parts.
impl Drop for Product {
    fn drop(self) {
        let Product { factors: _ } = self;
    }
}

impl Model for Product {
    ghost use Rattle.std.specs.Prelude.{◌≡◌, List, false};
    ghost use Rattle.stab_instructions.specs.declared.product.Factor.{Factor};
    ghost use Rattle.stab_instructions.specs.Products.{names_twice};

    ghost Value = { List Factor };

    ghost view = { λ p. p.factors };

    ghost invariant = { λ p. names_twice p.factors ≡ false };
}

impl Product {
    ghost use Rattle.std.specs.Prelude.{◌≡◌, false, IfOk};
    ghost use Rattle.stab_instructions.specs.Products.{names_twice};

    /// The product of these factors, which are on different qubits.
    pub fn new(factors: Sequence<Factor>) -> Product
        requires different { names_twice factors ≡ false }
        ensures value { result ≡ factors }
    {
        Product { factors }
    }

    /// The factors.
    pub fn as_slice(&self) -> &[Factor]
        ensures value { result.now ≡ self.now }
        ensures different { names_twice self.now ≡ false }
    {
        self.factors.as_slice()
    }

    /// A copy.
    pub fn copy(&self, alloc: Global) -> Result<Product, AllocError>
        ensures ok { IfOk result (λ p. p ≡ self.now) }
    {
        let factors = self.factors.copy(alloc)?;
        Ok(Product { factors })
    }
}

/// A copy of products.
pub(crate) fn copied_products(
    alloc: Global,
    products: &Sequence<Product>,
) -> Result<Sequence<Product>, AllocError>
    ensures ok { IfOk result (λ s. s ≡ products.now) }
{
    let mut all = Vec::new(alloc);
    for product in products.as_slice() {
        all.push(product.copy(alloc)?)?;
    }
    Ok(Sequence::of(all))
}
