//! The editor: takes the bytes of a script as they come, and writes each reply in one go.
ghost use Rattle.std.specs.Prelude.{◌≡◌, ◌+◌, ◌<◌, ◌^◌, ◌∷◌, ◌||◌, [], false, length, IfOk, IfErr, OnOk};
ghost use Rattle.stab_io.specs.Refusals.{whole};
ghost use Rattle.stab_io.specs.declared.refusal.Refusal.TheVariants.{OutOfMemory};
ghost use Rattle.stab_script.specs.Scripts.{Environment, Held, IsAnswer, empty_reader, read_byte, read, read_end};
ghost use Rattle.stab_script.specs.Requests.{request_asked, asked_if_any, opened_in};
ghost use Rattle.stab_script.specs.Editors.{AnswersRequests, Finishes, progress};

use crate::reader::ScriptReader;
use crate::reply::Reply;
use crate::request::Request;
use stab_io::{Fault, Output, write_all};
use stab_report::finish;
use std::alloc::Global;

/// The answer to a request: its reply, and whether a line was refused.
#[derive(Drop)]
pub struct Answered {
    pub reply: Reply,
    pub refused: bool,
}

/// What answers requests: it keeps the items of a circuit and the bits at a bookmark, and edits and shows them.
pub trait Answer: Drop {
    // What answers are made by, besides what is held.
    ghost environment: { Self → Environment };

    // What is held now.
    ghost held: { Self → Held };

    /// Answers a request; fault `OutOfMemory` alone.
    fn answer(&mut self, request: Request) -> Result<Answered, Fault>
        ensures environment { OnOk result (environment self.new ≡ environment self.old) }
        ensures answers { IfOk result (λ a. IsAnswer (environment self.old) (held self.old) (request_asked request) (record { held = held self.new; reply = a.reply.written; refused = a.refused })) }
        ensures err { IfErr result (λ f. f ≡ whole OutOfMemory) };
}

fn either(first: bool, second: bool) -> bool
    ensures value { result ≡ first || second }
{
    first || second
}

/// Takes a script as it comes. Each call writes the replies to what it was given before it returns.
pub struct Editor<A: Answer> {
    /// What is known of the script so far.
    pub reader: ScriptReader,
    /// What answers it.
    pub answers: A,
    /// Whether a line was refused so far.
    pub refused: bool,
}

// Written out, so that a proof sees the drop of a value as one call, and not one for each of its parts.
impl<A: Answer> Drop for Editor<A> {
    fn drop(self) {
        let Editor {
            reader: _,
            answers: _,
            refused: _,
        } = self;
    }
}

impl<A: Answer> Editor<A> {
    /// An editor before a script.
    pub fn new(alloc: Global, answers: A) -> Editor<A>
        ensures reader { result.reader ≡ empty_reader }
        ensures progress { progress A.environment A.held result ≡ record { environment = A.environment answers; held = A.held answers; refused = false } }
    {
        Editor {
            reader: ScriptReader::new(alloc),
            answers,
            refused: false,
        }
    }

    /// Answers a request, and writes the reply in one go.
    ///
    /// Fault `WriteFault` if the output failed, and `OutOfMemory`.
    pub fn report_request<O: Output>(&mut self, out: &mut O, request: Request) -> Result<(), Fault>
        ensures reader { self.new.reader ≡ self.old.reader }
        ensures reports { AnswersRequests (progress A.environment A.held self.old) (progress A.environment A.held self.new) (request_asked request ∷ []) (O.seen out.old) (O.seen out.new) result }
    {
        let Answered { reply, refused } = self.answers.answer(request)?;
        self.refused = either(self.refused, refused);
        match write_all(out, reply.bytes()) {
            Ok(()) => Ok(()),
            Err(refusal) => Err(Fault::whole(refusal)),
        }
    }

    /// Answers a request, if there is one.
    fn report<O: Output>(&mut self, out: &mut O, request: Option<Request>) -> Result<(), Fault>
        ensures reader { self.new.reader ≡ self.old.reader }
        ensures reports { AnswersRequests (progress A.environment A.held self.old) (progress A.environment A.held self.new) (asked_if_any request) (O.seen out.old) (O.seen out.new) result }
    {
        match request {
            None => Ok(()),
            Some(request) => self.report_request(out, request),
        }
    }

    /// Takes a byte; what it asks for has been answered when this returns.
    fn take_byte<O: Output>(&mut self, out: &mut O, byte: u8) -> Result<(), Fault>
        requires few { opened_in self.old.reader.gathering < 2 ^ 63 }
        ensures reader { OnOk result (self.new.reader ≡ (read_byte self.old.reader byte).reader) }
        ensures reports { AnswersRequests (progress A.environment A.held self.old) (progress A.environment A.held self.new) (read_byte self.old.reader byte).requests (O.seen out.old) (O.seen out.new) result }
    {
        let request = self.reader.take_byte(byte)?;
        self.report(out, request)
    }

    /// Takes bytes; what they ask for has been answered when this returns.
    ///
    /// Fault `WriteFault` if the output failed, and `OutOfMemory`.
    pub fn take<O: Output>(&mut self, out: &mut O, piece: &[u8]) -> Result<(), Fault>
        requires few { opened_in self.old.reader.gathering + length piece.now < 2 ^ 63 }
        ensures reader { OnOk result (self.new.reader ≡ (read self.old.reader piece.now).reader) }
        ensures reports { AnswersRequests (progress A.environment A.held self.old) (progress A.environment A.held self.new) (read self.old.reader piece.now).requests (O.seen out.old) (O.seen out.new) result }
    {
        for byte in piece {
            self.take_byte(out, *byte)?;
        }
        Ok(())
    }

    /// Answers what the end of a script asks for: a last line without a line end, and then what is
    /// gathered.
    fn report_last<O: Output>(&mut self, out: &mut O) -> Result<(), Fault>
        requires few { opened_in self.old.reader.gathering < 2 ^ 63 }
        ensures reports { AnswersRequests (progress A.environment A.held self.old) (progress A.environment A.held self.new) (read_end self.old.reader).requests (O.seen out.old) (O.seen out.new) result }
    {
        let last = self.reader.end_last()?;
        self.report(out, last)?;
        let rest = self.reader.close();
        self.report(out, rest)
    }

    /// Ends the script and flushes, and says whether a line was refused.
    ///
    /// Fault `WriteFault` if the output failed, and `OutOfMemory`.
    pub fn end<O: Output>(&mut self, out: &mut O) -> Result<bool, Fault>
        requires few { opened_in self.old.reader.gathering < 2 ^ 63 }
        ensures finishes { Finishes (progress A.environment A.held self.old) (read_end self.old.reader).requests (O.seen out.old) (O.seen out.new) result }
    {
        self.report_last(out)?;
        finish(out)?;
        Ok(self.refused)
    }
}
