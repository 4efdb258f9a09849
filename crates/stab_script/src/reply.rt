//! Replies to requests, gathered before they are written.
ghost use Rattle.std.specs.Prelude.{◌≡◌, ◌≤◌, ◌++◌, IfOk, IfErr, OnOk, Ok, codes, length, map};
ghost use Rattle.stab_io.specs.Devices.{WritesAll};
ghost use Rattle.stab_pauli.specs.Texts.{pauli_text};
ghost use Rattle.stab_io.specs.Refusals.{whole};
ghost use Rattle.stab_io.specs.declared.refusal.Refusal.TheVariants.{OutOfMemory};
ghost use Rattle.stab_items.specs.Items.{before, done};
ghost use Rattle.stab_items.specs.Views.{circuit_items};
ghost use Rattle.stab_items.specs.Prints.{printed};
ghost use Rattle.stab_results.specs.Formats.{f01_bytes, dets_bytes, detector_bits_of};
ghost use Rattle.stab_report.specs.FaultLines.{refused_text};
ghost use Rattle.stab_report.specs.Rows.{lines_of};
ghost use Rattle.stab_script.specs.Changes.{counted_line, entries_line};
ghost use Rattle.stab_script.specs.ItemCounts.{counts_line, two_numbers};
ghost use Rattle.stab_script.specs.CountedReplies.{greeting as greeting_of, lines_in, made_text, numbers_line, reply_text};
ghost use Rattle.stab_script.specs.Signs.{sign_line};
ghost use Rattle.stab_report.specs.Texts.{texts_joined};
ghost use Rattle.stab_script.specs.Replies.{ReplyBytes, no_reply, reply_output};

use stab_circuit::{Circuit, Item, write_circuit};
use stab_io::{DeviceFault, Fault, Output, Refusal, write_all};
use stab_items::write_one_item;
use stab_pauli::Pauli;
use stab_report::write_texts;
use stab_results::{Format, Kinds, write_shot};
use std::alloc::Global;
use std::marker::Model;

/// The numbers of a session: of its qubits, and of the steps, records, detectors and observables of its
/// run.
#[derive(Clone, Copy)]
pub struct SessionNumbers {
    pub qubits: usize,
    pub steps: usize,
    pub records: usize,
    pub detectors: usize,
    pub observables: usize,
}

/// The numbers of some steps, and of the records, detectors and coins that they make.
#[derive(Clone, Copy)]
pub(crate) struct StepCounts {
    pub(crate) steps: usize,
    pub(crate) records: usize,
    pub(crate) detectors: usize,
    pub(crate) coins: usize,
}

/// A reply while it is gathered: an output in memory that grows, and fails if memory is refused.
/// Contracts see it as the output that it is.
///
/// A fault of the calls that make one or append to it is `OutOfMemory` alone.
pub struct Reply {
    bytes: Vec<u8>,
    flushes: u64,
    failures: u64,
}

// Written out, so that a proof sees the drop of a value as one call, and not one for each of its parts.
impl Drop for Reply {
    fn drop(self) {
        let Reply {
            bytes: _,
            flushes: _,
            failures: _,
        } = self;
    }
}

impl Model for Reply {
    ghost Value = { ReplyBytes };

    ghost view = { λ r. record { written = r.bytes.items; flushes = r.flushes; failures = r.failures } };
}

impl Output for Reply {
    ghost seen = { reply_output };

    fn write(&mut self, bytes: &[u8]) -> Result<usize, DeviceFault> {
        if self.bytes.extend_from_slice(bytes).is_err() {
            self.failures = self.failures.saturating_add(1);
            return Err(DeviceFault);
        }
        Ok(bytes.len())
    }

    fn flush(&mut self) -> Result<(), DeviceFault> {
        self.flushes = self.flushes.saturating_add(1);
        Ok(())
    }
}

/// How many lines a text has: one for each line feed.
fn count_lines(text: &[u8]) -> usize
    ensures value { result ≡ lines_in text.now }
{
    text.iter().filter(|b| **b == b'\n').count()
}

impl Reply {
    /// A reply of no bytes yet.
    pub fn new(alloc: Global) -> Reply
        ensures empty { result ≡ no_reply }
    {
        Reply {
            bytes: Vec::new(alloc),
            flushes: 0,
            failures: 0,
        }
    }

    /// The bytes.
    pub(crate) fn bytes(&self) -> &[u8]
        ensures value { result.now ≡ self.now.written }
    {
        self.bytes.as_slice()
    }

    /// The reply of this text.
    fn of(alloc: Global, texts: &[&[u8]]) -> Result<Reply, Fault>
        ensures written { IfOk result (λ r. r.written ≡ texts_joined (map (λ t. t.now) texts.now)) }
        ensures err { IfErr result (λ f. f ≡ whole OutOfMemory) }
    {
        let mut reply = Reply::new(alloc);
        match write_texts(&mut reply, texts) {
            Ok(()) => Ok(reply),
            Err(_) => Err(Fault::whole(Refusal::OutOfMemory)),
        }
    }

    /// The reply to an edit that was made.
    pub fn ok(alloc: Global, counted: bool) -> Result<Reply, Fault>
        ensures written { IfOk result (λ r. r.written ≡ made_text counted) }
        ensures err { IfErr result (λ f. f ≡ whole OutOfMemory) }
    {
        if counted {
            Reply::of(alloc, &[b"ok 0\n"])
        } else {
            Reply::of(alloc, &[b"ok\n"])
        }
    }

    /// The reply that is no refusal with this text: a counted one says first how many lines it has.
    #[tactic(auto, using(crate::proofs::CountedReplyLaws::reported_text))]
    pub fn reported(self, alloc: Global, counted: bool) -> Result<Reply, Fault>
        ensures written { IfOk result (λ r. r.written ≡ reply_text counted self.written) }
        ensures err { IfErr result (λ f. f ≡ whole OutOfMemory) }
    {
        if !counted {
            return Ok(self);
        }
        let mut number = itoa::Buffer::new();
        let number = number.format(count_lines(self.bytes())).as_bytes();
        Reply::of(alloc, &[b"ok ", number, b"\n", self.bytes()])
    }

    /// The first line of a counted script's replies, which no other has.
    #[tactic(auto, using(crate::proofs::CountedReplyLaws::greeting_text))]
    pub fn greeting(alloc: Global, counted: bool, numbers: SessionNumbers) -> Result<Reply, Fault>
        ensures written { IfOk result (λ r. r.written ≡ greeting_of counted numbers) }
        ensures err { IfErr result (λ f. f ≡ whole OutOfMemory) }
    {
        if !counted {
            return Ok(Reply::new(alloc));
        }
        let line = Reply::numbers(alloc, numbers)?;
        Reply::of(alloc, &[b"ready 1 ", line.bytes()])
    }

    /// A line of numbers.
    pub fn numbers(alloc: Global, numbers: SessionNumbers) -> Result<Reply, Fault>
        ensures written { IfOk result (λ r. r.written ≡ numbers_line numbers) }
        ensures err { IfErr result (λ f. f ≡ whole OutOfMemory) }
    {
        let mut qubits = itoa::Buffer::new();
        let mut steps = itoa::Buffer::new();
        let mut records = itoa::Buffer::new();
        let mut detectors = itoa::Buffer::new();
        let mut observables = itoa::Buffer::new();
        Reply::of(
            alloc,
            &[
                qubits.format(numbers.qubits).as_bytes(),
                b" ",
                steps.format(numbers.steps).as_bytes(),
                b" ",
                records.format(numbers.records).as_bytes(),
                b" ",
                detectors.format(numbers.detectors).as_bytes(),
                b" ",
                observables.format(numbers.observables).as_bytes(),
                b"\n",
            ],
        )
    }

    /// Appends two numbers with a space between them, and a text after them.
    #[tactic(auto, using(crate::proofs::CountedReplyLaws::two_numbers_text))]
    fn add_numbers(&mut self, first: usize, second: usize, following: &[u8]) -> Result<(), Fault>
        ensures written { OnOk result (self.new.written ≡ self.old.written ++ two_numbers first second following.now) }
        ensures err { IfErr result (λ f. f ≡ whole OutOfMemory) }
    {
        let mut before = itoa::Buffer::new();
        let mut after = itoa::Buffer::new();
        let before = before.format(first).as_bytes();
        let after = after.format(second).as_bytes();
        match write_texts(self, &[before, b" ", after, following]) {
            Ok(()) => Ok(()),
            Err(_) => Err(Fault::whole(Refusal::OutOfMemory)),
        }
    }

    /// The line of the steps before an item and of those at it.
    pub(crate) fn counts(alloc: Global, before: StepCounts, own: StepCounts) -> Result<Reply, Fault>
        ensures written { IfOk result (λ r. r.written ≡ counts_line before own) }
        ensures err { IfErr result (λ f. f ≡ whole OutOfMemory) }
    {
        let mut reply = Reply::new(alloc);
        reply.add_numbers(before.steps, own.steps, b" ")?;
        reply.add_numbers(before.records, own.records, b" ")?;
        reply.add_numbers(before.detectors, own.detectors, b" ")?;
        reply.add_numbers(before.coins, own.coins, b"\n")?;
        Ok(reply)
    }

    /// The line of a sign.
    pub fn sign(alloc: Global, sign: Option<bool>) -> Result<Reply, Fault>
        ensures written { IfOk result (λ r. r.written ≡ sign_line sign) }
        ensures err { IfErr result (λ f. f ≡ whole OutOfMemory) }
    {
        match sign {
            None => Reply::of(alloc, &[b"0\n"]),
            Some(false) => Reply::of(alloc, &[b"+\n"]),
            Some(true) => Reply::of(alloc, &[b"-\n"]),
        }
    }

    /// The text of an item.
    pub fn item(alloc: Global, item: &Item) -> Result<Reply, Fault>
        ensures written { IfOk result (λ r. r.written ≡ printed (before item.now done)) }
        ensures err { IfErr result (λ f. f ≡ whole OutOfMemory) }
    {
        let mut reply = Reply::new(alloc);
        match write_one_item(&mut reply, item) {
            Ok(()) => Ok(reply),
            Err(_) => Err(Fault::whole(Refusal::OutOfMemory)),
        }
    }

    /// A shot as `dets` has it.
    fn dets(alloc: Global, kinds: Kinds, bits: &[bool]) -> Result<Reply, Fault>
        requires within { detector_bits_of kinds ≤ length bits.now }
        ensures written { IfOk result (λ r. r.written ≡ dets_bytes kinds bits.now) }
        ensures err { IfErr result (λ f. f ≡ whole OutOfMemory) }
    {
        let mut reply = Reply::new(alloc);
        match write_shot(&mut reply, Format::Dets, kinds, bits) {
            Ok(()) => Ok(reply),
            Err(_) => Err(Fault::whole(Refusal::OutOfMemory)),
        }
    }

    /// A line of the entries of 1 bits.
    #[tactic(auto, using(crate::proofs::CountedReplyLaws::one_text_joined, crate::proofs::CountedReplyLaws::no_entry, crate::proofs::CountedReplyLaws::some_entry))]
    pub fn entries(alloc: Global, kinds: Kinds, bits: &[bool]) -> Result<Reply, Fault>
        requires within { detector_bits_of kinds ≤ length bits.now }
        ensures written { IfOk result (λ r. r.written ≡ entries_line kinds bits.now) }
        ensures err { IfErr result (λ f. f ≡ whole OutOfMemory) }
    {
        let shot = Reply::dets(alloc, kinds, bits)?;
        // After `shot`, a space comes before each entry, and a line end alone if there is none.
        let following = shot.bytes().split_at(4).1;
        if following.len() == 1 {
            Reply::of(alloc, &[following])
        } else {
            Reply::of(alloc, &[following.split_at(1).1])
        }
    }

    /// Appends a line of two numbers of bits, if these differ.
    #[tactic(auto, using(crate::proofs::CountedReplyLaws::nothing_after))]
    pub fn add_count(&mut self, name: &[u8], old: &[bool], new: &[bool]) -> Result<(), Fault>
        ensures written { OnOk result (self.new.written ≡ self.old.written ++ counted_line name.now old.now new.now) }
        ensures err { IfErr result (λ f. f ≡ whole OutOfMemory) }
    {
        if old.len() == new.len() {
            return Ok(());
        }
        let mut before = itoa::Buffer::new();
        let mut after = itoa::Buffer::new();
        let before = before.format(old.len()).as_bytes();
        let after = after.format(new.len()).as_bytes();
        match write_texts(self, &[name, b" ", before, b" ", after, b"\n"]) {
            Ok(()) => Ok(()),
            Err(_) => Err(Fault::whole(Refusal::OutOfMemory)),
        }
    }

    /// The reply to a line that is refused.
    pub fn refusal(alloc: Global, refusal: Refusal) -> Result<Reply, Fault>
        ensures written { IfOk result (λ r. r.written ≡ refused_text refusal) }
        ensures err { IfErr result (λ f. f ≡ whole OutOfMemory) }
    {
        let mut number = itoa::Buffer::new();
        let number = number.format(refusal.number()).as_bytes();
        let name = refusal.name().as_bytes();
        Reply::of(alloc, &[b"refused ", number, b" ", name, b"\n"])
    }

    /// Bits as in the format 01.
    pub fn bits(alloc: Global, bits: &[bool]) -> Result<Reply, Fault>
        ensures written { IfOk result (λ r. r.written ≡ f01_bytes bits.now) }
        ensures err { IfErr result (λ f. f ≡ whole OutOfMemory) }
    {
        let mut reply = Reply::new(alloc);
        match write_shot(&mut reply, Format::F01, Kinds::Measurements, bits) {
            Ok(()) => Ok(reply),
            Err(_) => Err(Fault::whole(Refusal::OutOfMemory)),
        }
    }

    /// The printed circuit.
    pub fn circuit(alloc: Global, circuit: &Circuit) -> Result<Reply, Fault>
        ensures written { IfOk result (λ r. r.written ≡ printed (circuit_items circuit.now)) }
        ensures err { IfErr result (λ f. f ≡ whole OutOfMemory) }
    {
        let mut reply = Reply::new(alloc);
        match write_circuit(&mut reply, circuit) {
            Ok(()) => Ok(reply),
            Err(_) => Err(Fault::whole(Refusal::OutOfMemory)),
        }
    }

    /// Rows, one a line.
    pub fn rows(alloc: Global, rows: &[Pauli]) -> Result<Reply, Fault>
        ensures written { IfOk result (λ r. r.written ≡ lines_of rows.now) }
        ensures err { IfErr result (λ f. f ≡ whole OutOfMemory) }
    {
        let mut reply = Reply::new(alloc);
        for row in rows {
            reply.add_row(row)?;
        }
        Ok(reply)
    }

    /// Puts a row after the reply, with its line end.
    fn add_row(&mut self, row: &Pauli) -> Result<(), Fault>
        ensures written { OnOk result (self.new.written ≡ self.old.written ++ (pauli_text row.now ++ codes "\n")) }
        ensures err { IfErr result (λ f. f ≡ whole OutOfMemory) }
    {
        match self.write_row(row) {
            Ok(()) => Ok(()),
            Err(_) => Err(Fault::whole(Refusal::OutOfMemory)),
        }
    }

    fn write_row(&mut self, row: &Pauli) -> Result<(), Refusal>
        ensures writes { WritesAll (reply_output self.old) (reply_output self.new) (pauli_text row.now ++ codes "\n") result }
    {
        row.write_text(self)?;
        write_all(self, b"\n")
    }
}

/// A reply that only lack of memory refuses; refusal `OutOfMemory` alone.
pub fn memory(reply: Result<Reply, Fault>) -> Result<Reply, Refusal>
    requires err { IfErr reply (λ f. f ≡ whole OutOfMemory) }
    ensures same { IfOk result (λ r. reply ≡ Ok r) }
    ensures ok { IfOk reply (λ r. result ≡ Ok r) }
    ensures err { IfErr result (λ r. r ≡ OutOfMemory) }
{
    match reply {
        Ok(reply) => Ok(reply),
        Err(fault) => Err(fault.refusal),
    }
}
