ghost use Rattle.std.specs.Prelude.{◌≡◌, ◌≤◌, length, IfOk};
ghost use Rattle.stab_items.specs.Circuits.{most_bytes};
ghost use Rattle.stab_items.specs.Items.{listed, depth};
ghost use Rattle.stab_circuit.specs.inner.Readers.{ReadsItems, reading, line_fault};

use crate::known_lines::KnownLines;
use crate::reader::CircuitReader;
use crate::stretches::{Run, Stretch, Stretches, Taken};
use stab_io::{Fault, Refusal};
use stab_items::{Item, push_copies};
use std::alloc::Global;

/// How many items of the outermost list make a stretch.
const FULL: usize = 256;

impl CircuitReader {
    ghost use Rattle.std.specs.Prelude.{◌≡◌, ◌≤◌, ◌<◌, ◌+◌, ◌∷◌, ◌++◌, ◌⊎◌, [], false, length, None, OnOk, IfOk, IfErr, MatchOption};
    ghost use Rattle.std.specs.Option.{option_copied};
    ghost use Rattle.std.specs.List.{Contains};
    ghost use Rattle.stab_io.specs.declared.refusal.Refusal.TheVariants.{OutOfMemory};
    ghost use Rattle.stab_items.specs.Items.{listed, join};
    ghost use Rattle.stab_circuit.specs.inner.KnownLines.{IsCut};
    ghost use Rattle.stab_circuit.specs.inner.Readers.{progress_of, IsShallowProgress};
    ghost use Rattle.stab_circuit.specs.inner.Stretches.{read_outside, items_of, IsLineStretch, AreLineStretches, KeepsStretches, IsLineRun, RunsOn, TakesLines, IsShorter};

    /// Takes the lines that a text begins with: those of a known stretch, or else the first alone.
    fn take_next<'a>(
        &mut self,
        single: bool,
        line: u64,
        text: &'a [u8],
        known: &mut KnownLines<'a>,
        stretches: &mut Stretches<'a>,
    ) -> Result<Taken<'a>, Refusal>
        requires few { line + length text.now ≤ 16777217 }
        requires shallow { IsShallowProgress (progress_of self.old) }
        requires stretches { AreLineStretches self.old.outer.items stretches.old }
        requires run { IsLineRun self.old.outer.items (progress_of self.old) line text.now stretches.old.run }
        ensures gives { TakesLines single line text.entry.now (progress_of self.old) (progress_of self.new) result }
        ensures shorter { IfOk result (λ taken. IsShorter text.entry.now taken) }
        ensures shallow { OnOk result (IsShallowProgress (progress_of self.new)) }
        ensures stretches { OnOk result (AreLineStretches self.new.outer.items stretches.new) }
        ensures run { IfOk result (λ taken. RunsOn self.new.outer.items (progress_of self.new) (line + taken.lines) (option_copied taken.after) stretches.new.run) }
    {
        match self.known_stretch(single, text, stretches) {
            Some((stretch, after)) => self.take_stretch(line, text, stretch, after, stretches),
            None => self.take_one(single, line, text, known, stretches),
        }
    }

    /// The known stretch that a text begins with, and the lines after it, if there are any. None is looked
    /// for in a block, or if only one item is read.
    fn known_stretch<'a>(
        &self,
        single: bool,
        text: &'a [u8],
        stretches: &mut Stretches<'a>,
    ) -> Option<(Stretch<'a>, Option<&'a [u8]>)>
        ensures all { stretches.new.all.items ≡ stretches.old.all.items }
        ensures run { stretches.new.run ≡ stretches.old.run }
        ensures known { MatchOption result (Unit {0}) (λ p. Contains stretches.old.all.items p.0) }
        ensures front { MatchOption result (Unit {0}) (λ p. IsCut text.now p.0.bytes.now (option_copied p.1)) }
        ensures several { MatchOption result (Unit {0}) (λ _. single ≡ false) }
        ensures outside { MatchOption result (Unit {0}) (λ _. length self.now.open_blocks.items ≡ 0) }
    {
        if single || !self.open_blocks.is_empty() {
            return None;
        }
        stretches.find(self.items.is_empty(), text)
    }

    /// Takes the lines of a known stretch, with which a text begins.
    fn take_stretch<'a>(
        &mut self,
        line: u64,
        text: &'a [u8],
        stretch: Stretch<'a>,
        after: Option<&'a [u8]>,
        stretches: &mut Stretches<'a>,
    ) -> Result<Taken<'a>, Refusal>
        requires outside { length self.old.open_blocks.items ≡ 0 }
        requires shallow { IsShallowProgress (progress_of self.old) }
        requires known { IsLineStretch self.old.outer.items stretch }
        requires front { IsCut text.now stretch.bytes.now (option_copied after) }
        requires stretches { AreLineStretches self.old.outer.items stretches.old }
        requires run { IsLineRun self.old.outer.items (progress_of self.old) line text.now stretches.old.run }
        ensures gives { TakesLines false line text.entry.now (progress_of self.old) (progress_of self.new) result }
        ensures shorter { IfOk result (λ taken. IsShorter text.entry.now taken) }
        ensures shallow { OnOk result (IsShallowProgress (progress_of self.new)) }
        ensures stretches { OnOk result (AreLineStretches self.new.outer.items stretches.new) }
        ensures run { OnOk result (stretches.new.run ≡ None) }
    {
        self.leave_items(line, text, stretches)?;
        self.push_copy(stretch, stretches)?;
        Ok(Taken {
            lines: stretch.lines,
            after,
        })
    }

    /// Sees that all items are of a stretch or of none.
    fn leave_items<'a>(
        &mut self,
        line: u64,
        rest: &'a [u8],
        stretches: &mut Stretches<'a>,
    ) -> Result<(), Refusal>
        requires outside { length self.old.open_blocks.items ≡ 0 }
        requires stretches { AreLineStretches self.old.outer.items stretches.old }
        requires run { IsLineRun self.old.outer.items (progress_of self.old) line rest.now stretches.old.run }
        ensures same { OnOk result (progress_of self.new ≡ progress_of self.old) }
        ensures outside { OnOk result (length self.new.open_blocks.items ≡ 0) }
        ensures none { OnOk result (self.new.items.items ≡ []) }
        ensures preserved { OnOk result (KeepsStretches self.old.outer.items self.new.outer.items) }
        ensures stretches { OnOk result (AreLineStretches self.new.outer.items stretches.new) }
        ensures fault { IfErr result (λ r. r ≡ OutOfMemory) }
    {
        if self.items.is_empty() {
            return Ok(());
        }
        // A copy comes next, and perhaps no line is read by itself any more.
        self.cut(line, rest, stretches)
    }

    /// Puts the items that were read after the first of the outermost list, and remembers their lines,
    /// which end before this line, with which the rest begins.
    fn cut<'a>(
        &mut self,
        line: u64,
        rest: &'a [u8],
        stretches: &mut Stretches<'a>,
    ) -> Result<(), Refusal>
        requires outside { length self.old.open_blocks.items ≡ 0 }
        requires stretches { AreLineStretches self.old.outer.items stretches.old }
        requires run { IsLineRun self.old.outer.items (progress_of self.old) line rest.now stretches.old.run }
        ensures same { OnOk result (progress_of self.new ≡ progress_of self.old) }
        ensures outside { OnOk result (length self.new.open_blocks.items ≡ 0) }
        ensures none { OnOk result (self.new.items.items ≡ []) }
        ensures preserved { OnOk result (KeepsStretches self.old.outer.items self.new.outer.items) }
        ensures stretches { OnOk result (AreLineStretches self.new.outer.items stretches.new) }
        ensures run { OnOk result (stretches.new.run ≡ None) }
        ensures fault { IfErr result (λ r. r ≡ OutOfMemory) }
    {
        let first = self.outer.len();
        self.outer.append(&mut self.items)?;
        stretches.end_run(self.outer.as_slice(), first, line, rest)?;
        Ok(())
    }

    /// Puts copies of the items of a stretch after the others, and remembers them as a stretch.
    fn push_copy<'a>(
        &mut self,
        stretch: Stretch<'a>,
        stretches: &mut Stretches<'a>,
    ) -> Result<(), Refusal>
        requires outside { length self.old.open_blocks.items ≡ 0 }
        requires none { self.old.items.items ≡ [] }
        requires known { IsLineStretch self.old.outer.items stretch }
        requires stretches { AreLineStretches self.old.outer.items stretches.old }
        ensures same { OnOk result (progress_of self.new ≡ read_outside (join (progress_of self.old).now (listed (items_of stretch.entry self.old.outer.items)))) }
        ensures stretches { OnOk result (AreLineStretches self.new.outer.items stretches.new) }
        ensures run { OnOk result (stretches.new.run ≡ None) }
        ensures fault { IfErr result (λ r. r ≡ OutOfMemory) }
    {
        let first = self.outer.len();
        push_copies(
            self.alloc,
            &mut self.outer,
            stretch.first,
            stretch.following,
        )?;
        stretches.run = None;
        let following = self.outer.len();
        stretches.remember(Stretch {
            first,
            following,
            ..stretch
        })?;
        Ok(())
    }

    /// Takes the first line of a text.
    fn take_one<'a>(
        &mut self,
        single: bool,
        line: u64,
        text: &'a [u8],
        known: &mut KnownLines<'a>,
        stretches: &mut Stretches<'a>,
    ) -> Result<Taken<'a>, Refusal>
        requires few { line + length text.now ≤ 16777217 }
        requires shallow { IsShallowProgress (progress_of self.old) }
        requires stretches { AreLineStretches self.old.outer.items stretches.old }
        requires run { IsLineRun self.old.outer.items (progress_of self.old) line text.now stretches.old.run }
        ensures gives { TakesLines single line text.entry.now (progress_of self.old) (progress_of self.new) result }
        ensures shorter { IfOk result (λ taken. IsShorter text.entry.now taken) }
        ensures shallow { OnOk result (IsShallowProgress (progress_of self.new)) }
        ensures stretches { OnOk result (AreLineStretches self.new.outer.items stretches.new) }
        ensures run { IfOk result (λ taken. RunsOn self.new.outer.items (progress_of self.new) (line + taken.lines) (option_copied taken.after) stretches.new.run) }
    {
        let run = self.run_at(line, text, stretches);
        let after = self.take_first(single, line, text, known)?;
        self.keep_run(single, run, stretches);
        self.settle(line + 1, after, stretches)?;
        Ok(Taken { lines: 1, after })
    }

    /// The run that goes on or begins with this line, with which a text begins.
    fn run_at<'a>(&self, line: u64, text: &'a [u8], stretches: &Stretches<'a>) -> Option<Run<'a>>
        requires run { IsLineRun self.now.outer.items (progress_of self.now) line text.now stretches.now.run }
        ensures run { IsLineRun self.now.outer.items (progress_of self.now) line text.entry.now result }
    {
        if self.items.is_empty() && self.open_blocks.is_empty() {
            Some(Run {
                front: text,
                from: line,
            })
        } else {
            stretches.run
        }
    }

    /// Keeps a run that goes on after a line, if no block is open after it.
    fn keep_run<'a>(&self, single: bool, run: Option<Run<'a>>, stretches: &mut Stretches<'a>)
        ensures all { stretches.new.all.items ≡ stretches.old.all.items }
        ensures run { (stretches.new.run ≡ None) ⊎ ((stretches.new.run ≡ run.entry) × (single ≡ false) × (length self.now.open_blocks.items ≡ 0)) }
    {
        stretches.run = if single || !self.open_blocks.is_empty() {
            None
        } else {
            run
        };
    }

    /// Makes a stretch of the items that were read, if there are enough.
    fn settle<'a>(
        &mut self,
        line: u64,
        after: Option<&'a [u8]>,
        stretches: &mut Stretches<'a>,
    ) -> Result<(), Refusal>
        requires stretches { AreLineStretches self.old.outer.items stretches.old }
        requires run { RunsOn self.old.outer.items (progress_of self.old) line (option_copied after) stretches.old.run }
        ensures same { OnOk result (progress_of self.new ≡ progress_of self.old) }
        ensures stretches { OnOk result (AreLineStretches self.new.outer.items stretches.new) }
        ensures run { OnOk result (RunsOn self.new.outer.items (progress_of self.new) line (option_copied after.entry) stretches.new.run) }
        ensures fault { IfErr result (λ r. r ≡ OutOfMemory) }
    {
        match after {
            Some(rest) if self.items.len() >= FULL && self.open_blocks.is_empty() => {
                self.cut(line, rest, stretches)
            }
            _ => Ok(()),
        }
    }
}

/// The fault of a refusal at a line; lack of memory has no line.
fn fault_at(refusal: Refusal, line: u64) -> Fault
    ensures value { result ≡ line_fault line refusal }
{
    match refusal {
        Refusal::OutOfMemory => Fault::whole(refusal),
        _ => Fault { refusal, line },
    }
}

/// The items that a text stands for, perhaps as one item's text.
#[tactic(auto, using(crate::proofs::ReaderLemmas::finished_shallow))]
pub fn read_lines(alloc: Global, single: bool, text: &[u8]) -> Result<Vec<Item>, Fault>
    requires small { length text.now ≤ most_bytes }
    ensures gives { ReadsItems result (reading single text.now) }
    ensures shallow { IfOk result (λ v. depth (listed v.items) ≤ 16) }
{
    let mut reader = CircuitReader::new(alloc);
    let mut known = KnownLines::new(alloc, single);
    let mut stretches = Stretches::new(alloc);
    let mut rest = text;
    let mut line = 1;
    'lines: loop {
        match reader.take_next(single, line, rest, &mut known, &mut stretches) {
            Err(refusal) => return Err(fault_at(refusal, line)),
            Ok(Taken { lines, after }) => match after {
                None => return reader.finish(),
                Some(next) => {
                    line += lines;
                    rest = next;
                }
            },
        }
    }
}
