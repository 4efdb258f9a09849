//! What is known between two bytes of a script.
ghost use Rattle.std.specs.Prelude.{◌≡◌, ◌<◌, ◌≤◌, ◌+◌, ◌^◌, ℕ, List, [], Option, Some, None, IfOk, IfErr, OnOk};
ghost use Rattle.stab_io.specs.Refusals.{whole};
ghost use Rattle.stab_io.specs.declared.refusal.Refusal.TheVariants.{OutOfMemory};
ghost use Rattle.stab_script.specs.ScriptWords.{Gathered as Text};
ghost use Rattle.stab_script.specs.Scripts.{ScriptReader as ScriptReaderState, Gathering as GatheringState, put_gathered as put_of, begun as begun_of, line_alone, opened_after as opened_of, gathered_with, line_gathered, read_line, read_byte, read_last, script_closed, empty_reader};
ghost use Rattle.stab_script.specs.Requests.{request_asked, asked_if_any, opened_in};

use crate::gathered::Gathered;
use crate::request::{ItemEdit, Request, read_request};
use stab_circuit::{Path, content, ends_with, is_close};
use stab_io::{Fault, Refusal};
use std::alloc::Global;
use std::marker::Model;

/// The most bytes of a line.
const MOST_LINE: usize = 65_536;

/// The most bytes of an item's text.
const MOST_TEXT: usize = 16_777_216;

/// An edit whose item's text is gathered, and how many blocks are open in it.
#[derive(Drop)]
struct Gathering {
    edit: ItemEdit,
    place: Path,
    opened: u64,
    text: Gathered,
}

impl Model for Gathering {
    ghost Value = { GatheringState };

    ghost view = { λ g. record { edit = g.edit; place = g.place; opened = g.opened; text = g.text } };
}

/// How many blocks are open after a content.
fn opened_after(opened: u64, content: &[u8]) -> u64
    requires few { opened < 2 ^ 63 }
    ensures value { result ≡ opened_of opened content.now }
    ensures few { result ≤ opened + 1 }
{
    if is_close(content) {
        opened.saturating_sub(1)
    } else if ends_with(content, b'{') {
        opened + 1
    } else {
        opened
    }
}

impl Gathering {
    /// Puts one more line after what is gathered; a line over its limit neither opens nor closes,
    /// and the text is over its limit.
    fn add_line(&mut self, line: &Gathered) -> Result<(), Fault>
        requires few { self.old.opened < 2 ^ 63 }
        ensures adds { OnOk result (self.new ≡ gathered_with self.old line.now) }
        ensures few { self.new.opened ≤ self.old.opened + 1 }
        ensures err { IfErr result (λ f. f ≡ whole OutOfMemory) }
    {
        match line.text() {
            None => self.text.give_up(),
            Some(line) => {
                let content = content(line);
                self.text.add(MOST_TEXT, b"\n")?;
                self.text.add(MOST_TEXT, content)?;
                self.opened = opened_after(self.opened, content);
            }
        }
        Ok(())
    }

    /// What the edit asks for with the text that was gathered.
    fn end(self) -> Request
        ensures value { request_asked result ≡ put_of self.edit self.place self.text }
    {
        let Gathering {
            edit,
            place,
            text,
            ..
        } = self;
        match text.into_text() {
            None => Request::Refuse(Refusal::TooLong),
            Some(text) => Request::Put { edit, place, text },
        }
    }
}

/// What is known between two bytes of a script: what is gathered, if anything is, and the line so
/// far. Contracts see what `ScriptReader` of the definitions has.
///
/// Each call answers what the script asks for next, if anything; fault `OutOfMemory` alone.
#[derive(Drop)]
pub struct ScriptReader {
    alloc: Global,
    gathering: Option<Gathering>,
    line: Gathered,
}

impl Model for ScriptReader {
    ghost Value = { ScriptReaderState };

    ghost view = { λ d. record { gathering = d.gathering; line = d.line } };
}

impl ScriptReader {
    /// The reader before a script.
    pub(crate) fn new(alloc: Global) -> ScriptReader
        ensures value { result ≡ empty_reader }
    {
        ScriptReader {
            alloc,
            gathering: None,
            line: Gathered::new(alloc),
        }
    }

    /// Ends the line so far, which asks for this if no item's text begins with it.
    fn begin(&mut self, request: Request) -> Option<Request>
        ensures reader { self.new ≡ (begun_of (request_asked request)).reader }
        ensures requests { asked_if_any result ≡ (begun_of (request_asked request)).requests }
    {
        self.line.clear();
        self.gathering = None;
        match request {
            Request::Put { edit, place, text } => {
                if !ends_with(&text, b'{') {
                    return Some(Request::Put { edit, place, text });
                }
                self.gathering = Some(Gathering {
                    edit,
                    place,
                    opened: 1,
                    text: Gathered::of(text),
                });
                None
            }
            Request::Delete { place } => Some(Request::Delete { place }),
            Request::Begin => Some(Request::Begin),
            Request::Show(what) => Some(Request::Show(what)),
            Request::Counted(what) => Some(Request::Counted(what)),
            Request::Deterministic => Some(Request::Deterministic),
            Request::Distance { everywhere, most } => Some(Request::Distance { everywhere, most }),
            Request::Refuse(refusal) => Some(Request::Refuse(refusal)),
        }
    }

    /// Ends the line so far, if it is alone.
    fn end_alone(&mut self) -> Result<Option<Request>, Fault>
        ensures reader { OnOk result (self.new ≡ (line_alone self.old.line).reader) }
        ensures requests { IfOk result (λ r. asked_if_any r ≡ (line_alone self.old.line).requests) }
        ensures err { IfErr result (λ f. f ≡ whole OutOfMemory) }
    {
        let request = match self.line.text() {
            None => Request::Refuse(Refusal::TooLong),
            Some(line) => {
                let content = content(line);
                if content.is_empty() {
                    self.gathering = None;
                    self.line.clear();
                    return Ok(None);
                }
                read_request(self.alloc, content)?
            }
        };
        Ok(self.begin(request))
    }

    /// Ends the line so far, which is put after what is gathered.
    fn end_gathered(&mut self, mut gathering: Gathering) -> Result<Option<Request>, Fault>
        requires few { gathering.opened < 2 ^ 63 }
        ensures reader { OnOk result (self.new ≡ (line_gathered (gathered_with gathering self.old.line)).reader) }
        ensures requests { IfOk result (λ r. asked_if_any r ≡ (line_gathered (gathered_with gathering self.old.line)).requests) }
        ensures err { IfErr result (λ f. f ≡ whole OutOfMemory) }
    {
        gathering.add_line(&self.line)?;
        self.line.clear();
        if gathering.opened == 0 {
            self.gathering = None;
            Ok(Some(gathering.end()))
        } else {
            self.gathering = Some(gathering);
            Ok(None)
        }
    }

    /// Ends the line so far.
    #[tactic(auto, unfolding(crate::specs::Scripts::read_line))]
    fn end_line(&mut self) -> Result<Option<Request>, Fault>
        requires few { opened_in self.old.gathering < 2 ^ 63 }
        ensures reader { OnOk result (self.new ≡ (read_line self.old).reader) }
        ensures requests { IfOk result (λ r. asked_if_any r ≡ (read_line self.old).requests) }
        ensures err { IfErr result (λ f. f ≡ whole OutOfMemory) }
    {
        match self.gathering.take() {
            None => self.end_alone(),
            Some(gathering) => self.end_gathered(gathering),
        }
    }

    /// Takes a byte.
    pub(crate) fn take_byte(&mut self, byte: u8) -> Result<Option<Request>, Fault>
        requires few { opened_in self.old.gathering < 2 ^ 63 }
        ensures reader { OnOk result (self.new ≡ (read_byte self.old byte).reader) }
        ensures requests { IfOk result (λ r. asked_if_any r ≡ (read_byte self.old byte).requests) }
        ensures err { IfErr result (λ f. f ≡ whole OutOfMemory) }
    {
        if byte == b'\n' {
            return self.end_line();
        }
        self.line.add(MOST_LINE, &[byte])?;
        Ok(None)
    }

    /// Ends a last line that has no line end.
    pub(crate) fn end_last(&mut self) -> Result<Option<Request>, Fault>
        requires few { opened_in self.old.gathering < 2 ^ 63 }
        ensures reader { OnOk result (self.new ≡ (read_last self.old).reader) }
        ensures requests { IfOk result (λ r. asked_if_any r ≡ (read_last self.old).requests) }
        ensures err { IfErr result (λ f. f ≡ whole OutOfMemory) }
    {
        if self.line.is_nothing() {
            return Ok(None);
        }
        self.end_line()
    }

    /// Ends what is gathered, with the script.
    pub(crate) fn close(&mut self) -> Option<Request>
        ensures requests { asked_if_any result ≡ (script_closed self.old.gathering self.old).requests }
    {
        match self.gathering.take() {
            None => None,
            Some(gathering) => Some(gathering.end()),
        }
    }
}
