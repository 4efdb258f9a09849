//! Texts that are gathered up to a limit.
ghost use Rattle.std.specs.Prelude.{◌≡◌, ℕ, List, [], Option, Some, None, IfErr, OnOk, MatchOption, if◌then◌else◌};
ghost use Rattle.stab_script.specs.ScriptWords.{more, is_nothing as nothing};
ghost use Rattle.stab_io.specs.Refusals.{whole};
ghost use Rattle.stab_io.specs.declared.refusal.Refusal.TheVariants.{OutOfMemory};

use stab_io::Fault;
use std::alloc::Global;
use std::marker::Model;

/// A text that is gathered up to a limit. Contracts see its bytes, or None if it went over; from
/// then on it takes no memory.
#[derive(Drop)]
pub(crate) struct Gathered {
    bytes: Vec<u8>,
    over: bool,
}

impl Model for Gathered {
    ghost Value = { Option (List ℕ) };

    ghost view = { λ g. if g.over then None else Some g.bytes.items };
}

impl Gathered {
    /// No bytes yet.
    pub(crate) fn new(alloc: Global) -> Gathered
        ensures empty { result ≡ Some [] }
    {
        Gathered {
            bytes: Vec::new(alloc),
            over: false,
        }
    }

    /// A text that is within its limit.
    pub(crate) fn of(bytes: Vec<u8>) -> Gathered
        ensures value { result ≡ Some bytes.items }
    {
        Gathered { bytes, over: false }
    }

    /// Lets go of the text, and keeps its room.
    pub(crate) fn clear(&mut self)
        ensures empty { self.new ≡ Some [] }
    {
        self.bytes.clear();
        self.over = false;
    }

    /// Lets go of the text as of one over its limit.
    pub(crate) fn give_up(&mut self)
        ensures none { self.new ≡ None }
    {
        self.over = true;
    }

    /// Puts bytes after the text, if there is room for them; fault `OutOfMemory` alone.
    pub(crate) fn add(&mut self, limit: usize, bytes: &[u8]) -> Result<(), Fault>
        ensures adds { OnOk result (self.new ≡ more limit self.old bytes.now) }
        ensures err { IfErr result (λ f. f ≡ whole OutOfMemory) }
    {
        if !self.over {
            if bytes.len() <= limit.saturating_sub(self.bytes.len()) {
                self.bytes.extend_from_slice(bytes)?;
            } else {
                self.over = true;
            }
        }
        Ok(())
    }

    /// The bytes, if they are within the limit.
    pub(crate) fn text(&self) -> Option<&[u8]>
        ensures value { MatchOption result (self.now ≡ None) (λ t. self.now ≡ Some t.now) }
    {
        if self.over {
            None
        } else {
            Some(self.bytes.as_slice())
        }
    }

    /// The bytes, if they are within the limit.
    pub(crate) fn into_text(self) -> Option<Vec<u8>>
        ensures value { MatchOption result (self ≡ None) (λ t. self ≡ Some t.items) }
    {
        if self.over { None } else { Some(self.bytes) }
    }

    /// Whether nothing was gathered.
    pub(crate) fn is_nothing(&self) -> bool
        ensures value { result ≡ nothing self.now }
    {
        !self.over && self.bytes.is_empty()
    }
}
