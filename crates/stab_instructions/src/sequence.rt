ghost use Rattle.std.specs.Prelude.{◌≡◌, List, [], IfOk};

use std::alloc::{AllocError, Global};
use std::marker::Model;

/// A list that contracts see as such. A single element takes no memory: most instructions of texts in which no line comes again have one.
#[derive(Drop)]
pub struct Sequence<T> {
    elements: Elements<T>,
}

/// How they are stored.
#[derive(Drop)]
enum Elements<T> {
    One([T; 1]),
    List(Vec<T>),
}

impl<T> Model for Sequence<T> {
    ghost use Rattle.std.specs.Prelude.{List};
    ghost use Rattle.stab_instructions.specs.inner.Sequences.{elements_shown};

    ghost Value = { List T };

    ghost view = { λ s. elements_shown s.elements };
}

impl<T> Sequence<T> {
    /// The empty sequence, which takes no memory.
    pub fn new(alloc: Global) -> Sequence<T>
        ensures value { result ≡ [] }
    {
        Sequence {
            elements: Elements::List(Vec::new(alloc)),
        }
    }

    /// The elements, in order.
    pub fn as_slice(&self) -> &[T]
        ensures value { result.now ≡ self.now }
    {
        match &self.elements {
            Elements::One(element) => element.as_slice(),
            Elements::List(list) => list.as_slice(),
        }
    }
}

impl Sequence<u8> {
    ghost use Rattle.std.specs.Prelude.{◌≡◌, IfOk};

    /// A copy of the bytes.
    pub fn of_bytes(alloc: Global, bytes: &[u8]) -> Result<Sequence<u8>, AllocError>
        ensures ok { IfOk result (λ s. s ≡ bytes.now) }
    {
        let list = Vec::from_slice(alloc, bytes)?;
        Ok(Sequence::of(list))
    }
}

impl<T: Copy> Sequence<T> {
    ghost use Rattle.std.specs.Prelude.{◌≡◌, IfOk};

    /// A copy.
    pub fn copy(&self, alloc: Global) -> Result<Sequence<T>, AllocError>
        ensures ok { IfOk result (λ s. s ≡ self.now) }
    {
        match &self.elements {
            Elements::One(element) => Ok(Sequence {
                elements: Elements::One(*element),
            }),
            Elements::List(list) => {
                let copy = Vec::from_slice(alloc, list.as_slice())?;
                Ok(Sequence {
                    elements: Elements::List(copy),
                })
            }
        }
    }
}

impl<T: Drop> Sequence<T> {
    ghost use Rattle.std.specs.Prelude.{◌≡◌};

    /// The elements of a vector.
    pub fn of(mut list: Vec<T>) -> Sequence<T>
        ensures value { result ≡ list.items }
    {
        if list.len() != 1 {
            return Sequence {
                elements: Elements::List(list),
            };
        }
        match list.pop() {
            Some(element) => Sequence {
                elements: Elements::One([element]),
            },
            None => Sequence {
                elements: Elements::List(list),
            },
        }
    }
}
