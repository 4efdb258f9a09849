use crate::coordinates::Coordinates;
use crate::range::Lookbacks;
use crate::sequence::Sequence;
use std::alloc::{AllocError, Global};
use std::marker::Model;

/// Targets and the coordinates before them.
///
/// Both are long, so they are in an allocation of their own, and instructions stay small.
#[derive(Drop)]
pub struct Located<T> {
    parts: Box<Parts<T>>,
}

#[derive(Drop)]
struct Parts<T> {
    coordinates: Coordinates,
    targets: T,
}

impl<T> Model for Located<T> {
    ghost use Rattle.std.specs.Prelude.{ℕ, List};

    ghost Value = { List (List ℕ) × T };

    ghost view = { λ l. (l.parts.value.coordinates, l.parts.value.targets) };
}

impl<T> Located<T> {
    ghost use Rattle.std.specs.Prelude.{◌≡◌};

    /// The coordinates.
    pub(crate) fn coordinates(&self) -> &Coordinates
        ensures value { result.now ≡ self.now.0 }
    {
        &self.parts.coordinates
    }

    /// The targets.
    pub fn targets(&self) -> &T
        ensures value { result.now ≡ self.now.1 }
    {
        &self.parts.targets
    }
}

impl<T: Drop> Located<T> {
    ghost use Rattle.std.specs.Prelude.{◌≡◌, IfOk};

    /// Targets after coordinates.
    pub fn new(
        alloc: Global,
        coordinates: Coordinates,
        targets: T,
    ) -> Result<Located<T>, AllocError>
        ensures ok { IfOk result (λ l. l ≡ (coordinates, targets)) }
    {
        let parts = Box::new(
            alloc,
            Parts {
                coordinates,
                targets,
            },
        )?;
        Ok(Located { parts })
    }
}

impl<T: Copy> Located<Sequence<T>> {
    ghost use Rattle.std.specs.Prelude.{◌≡◌, IfOk};

    /// A copy.
    pub fn copy(&self, alloc: Global) -> Result<Located<Sequence<T>>, AllocError>
        ensures ok { IfOk result (λ l. l ≡ self.now) }
    {
        let coordinates = self.coordinates().copy(alloc)?;
        let targets = self.targets().copy(alloc)?;
        Located::new(alloc, coordinates, targets)
    }
}

impl Located<Lookbacks> {
    ghost use Rattle.std.specs.Prelude.{◌≡◌, IfOk};

    /// A copy.
    pub fn copy(&self, alloc: Global) -> Result<Located<Lookbacks>, AllocError>
        ensures ok { IfOk result (λ l. l ≡ self.now) }
    {
        let coordinates = self.coordinates().copy(alloc)?;
        let targets = self.targets().copy(alloc)?;
        Located::new(alloc, coordinates, targets)
    }
}
