//! Answers from a session: edits of it, and what is shown of it.
use crate::bookmarks::{bookmark_at, first_bookmark};
use crate::changes::{BookmarkedBits, push_changes};
use crate::circuit_replies::{show_coins, show_deterministic, show_distance, show_way, show_why};
use crate::counted::CountedRequest;
use crate::editor::{Answer, Answered};
use crate::item_counts::show_counts;
use crate::reply::{Reply, SessionNumbers, memory};
use crate::request::{ItemEdit, Request, Show};
use crate::signs::read_string;
use stab_circuit::{Item, Path, read_item};
use stab_io::{Fault, Refusal};
use stab_report::Bit;
use stab_results::Kinds;
use stab_run::Coins;
use stab_session::{Edit, Session};
use std::alloc::Global;

/// A session that answers requests.
pub(crate) struct SessionAnswers<C: Coins> {
    alloc: Global,
    counted: bool,
    session: Session<C>,
    bookmark: BookmarkedBits,
}

// Written out, so that a proof sees the drop of a value as one call, and not one for each of its parts.
impl<C: Coins> Drop for SessionAnswers<C> {
    fn drop(self) {
        let SessionAnswers {
            alloc: _,
            counted: _,
            session: _,
            bookmark: _,
        } = self;
    }
}

impl<C: Coins> SessionAnswers<C> {
    ghost use Rattle.std.specs.Prelude.{◌≡◌, ◌≢◌, [], IfOk, IfErr, OnOk, OnErr, true, false};
    ghost use Rattle.stab_io.specs.Refusals.{whole};
    ghost use Rattle.stab_io.specs.declared.refusal.Refusal.TheVariants.{OutOfMemory};
    ghost use Rattle.stab_tableau.specs.Traces.{member};
    ghost use Rattle.stab_items.specs.Items.{before, done, entries};
    ghost use Rattle.stab_items.specs.ItemsAt.{item_at};
    ghost use Rattle.stab_items.specs.Prints.{printed};
    ghost use Rattle.stab_items.specs.Splits.{split as split_list};
    ghost use Rattle.stab_report.specs.FaultLines.{refused_text};
    ghost use Rattle.stab_report.specs.Coins.{shot_bits_of};
    ghost use Rattle.stab_script.specs.Changes.{changed_text, changed_records_text, bookmark_shown};
    ghost use Rattle.stab_script.specs.CountedReplies.{text_found, session_numbers, reply_text};
    ghost use Rattle.stab_script.specs.CoinReplies.{coins_shown, why_shown};
    ghost use Rattle.stab_script.specs.Words.{put_in_of};
    ghost use Rattle.stab_script.specs.WayTexts.{way_text};
    ghost use Rattle.stab_script.specs.ItemCounts.{counts_text};
    ghost use Rattle.stab_script.specs.Signs.{string_of_word, sign_in, sign_line};
    ghost use Rattle.stab_script.specs.Scripts.{IsDistanceAnswer, IsPut, IsDeterministicAnswer, decided, edited_items, edit_of, first_bookmark as first_bookmark_of, counted_answer, counted_shown, held_after, held_split, options_asked};
    ghost use Rattle.stab_script.specs.CountedAnswers.{GivesText};
    ghost use Rattle.stab_script.specs.Requests.{counted_asked};
    ghost use Rattle.stab_script.specs.inner.SessionAnswers.{ShowsOf, session_environment, session_run, held_of, answered};
    ghost use Rattle.stab_script.specs.declared.request.Show.TheVariants.{Stabilisers};

    /// A session that answers requests; one of a counted script has its first bookmark. Fault
    /// `OutOfMemory` alone.
    pub(crate) fn new(
        alloc: Global,
        counted: bool,
        session: Session<C>,
    ) -> Result<SessionAnswers<C>, Fault>
        ensures session { IfOk result (λ a. a.session ≡ session) }
        ensures counted { IfOk result (λ a. a.counted ≡ counted) }
        ensures bookmark { IfOk result (λ a. bookmark_shown a.bookmark ≡ first_bookmark_of counted (session_run C.sequence session)) }
        ensures err { IfErr result (λ f. f ≡ whole OutOfMemory) }
    {
        let bookmark = first_bookmark(alloc, counted, &session)?;
        Ok(SessionAnswers {
            alloc,
            counted,
            session,
            bookmark,
        })
    }

    /// The reduced rows of the session's group.
    fn show_rows(&mut self) -> Result<Reply, Fault>
        ensures session { self.new.session ≡ self.old.session }
        ensures counted { self.new.counted ≡ self.old.counted }
        ensures bookmark { self.new.bookmark ≡ self.old.bookmark }
        ensures shows { IfOk result (λ r. ShowsOf C.sequence self.old.session Stabilisers r.written) }
        ensures err { IfErr result (λ f. f ≡ whole OutOfMemory) }
    {
        match self.session.reduced_rows(self.alloc) {
            Ok(rows) => Reply::rows(self.alloc, rows.as_slice()),
            Err(refusal) => Err(Fault::whole(refusal)),
        }
    }

    /// What `show` writes of the session.
    fn show(&mut self, what: Show) -> Result<Reply, Fault>
        ensures session { self.new.session ≡ self.old.session }
        ensures counted { self.new.counted ≡ self.old.counted }
        ensures bookmark { self.new.bookmark ≡ self.old.bookmark }
        ensures shows { IfOk result (λ r. ShowsOf C.sequence self.old.session what r.written) }
        ensures err { IfErr result (λ f. f ≡ whole OutOfMemory) }
    {
        match what {
            Show::Measurements => Reply::bits(self.alloc, self.session.records()),
            Show::Free => Reply::bits(self.alloc, self.session.free()),
            Show::Detectors => Reply::bits(self.alloc, self.session.detectors()),
            Show::Observables => Reply::bits(self.alloc, self.session.observables()),
            Show::Stabilisers => self.show_rows(),
            Show::Circuit => Reply::circuit(self.alloc, self.session.circuit()),
        }
    }

    /// The numbers of the session.
    #[tactic(auto, using(crate::proofs::SessionAnswerLaws::steps_reported))]
    fn numbers(&self) -> SessionNumbers
        ensures value { result ≡ session_numbers self.now.session.qubits (session_run C.sequence self.now.session) self.now.session.items }
    {
        SessionNumbers {
            qubits: self.session.qubits(),
            steps: self.session.circuit().steps(),
            records: self.session.records().len(),
            detectors: self.session.detectors().len(),
            observables: self.session.observables().len(),
        }
    }

    /// What changed of detectors and observables.
    fn changed(&self) -> Result<Reply, Fault>
        ensures shows { IfOk result (λ r. r.written ≡ changed_text (bookmark_shown self.now.bookmark) (session_run C.sequence self.now.session)) }
        ensures err { IfErr result (λ f. f ≡ whole OutOfMemory) }
    {
        let detectors = self.session.detectors();
        let observables = self.session.observables();
        let mut bits = Vec::new(self.alloc);
        push_changes(&mut bits, self.bookmark.detectors.as_slice(), detectors)?;
        let kinds = Kinds::Detectors(bits.len());
        push_changes(&mut bits, self.bookmark.observables.as_slice(), observables)?;
        let mut reply = Reply::entries(self.alloc, kinds, bits.as_slice())?;
        reply.add_count(b"detectors", self.bookmark.detectors.as_slice(), detectors)?;
        reply.add_count(
            b"observables",
            self.bookmark.observables.as_slice(),
            observables,
        )?;
        Ok(reply)
    }

    /// What changed of records.
    fn changed_records(&self) -> Result<Reply, Fault>
        ensures shows { IfOk result (λ r. r.written ≡ changed_records_text (bookmark_shown self.now.bookmark) (session_run C.sequence self.now.session)) }
        ensures err { IfErr result (λ f. f ≡ whole OutOfMemory) }
    {
        let records = self.session.records();
        let mut bits = Vec::new(self.alloc);
        push_changes(&mut bits, self.bookmark.records.as_slice(), records)?;
        let mut reply = Reply::entries(self.alloc, Kinds::Measurements, bits.as_slice())?;
        reply.add_count(b"records", self.bookmark.records.as_slice(), records)?;
        Ok(reply)
    }

    /// The sign of the string of a word.
    fn sign(&mut self, word: &[u8]) -> Result<Reply, Refusal>
        ensures session { self.new.session ≡ self.old.session }
        ensures counted { self.new.counted ≡ self.old.counted }
        ensures bookmark { self.new.bookmark ≡ self.old.bookmark }
        ensures shows { GivesText result (text_found (λ p. sign_line (sign_in (member (session_run C.sequence self.old.session).trace) p)) (string_of_word self.old.session.qubits word.now)) }
    {
        let string = read_string(self.alloc, self.session.qubits(), word)?;
        let sign = self.session.sign_of(&string);
        memory(Reply::sign(self.alloc, sign))
    }

    /// The text of the item at a path.
    fn item(&self, path: Path) -> Result<Reply, Refusal>
        ensures shows { GivesText result (text_found (λ x. printed (before x done)) (item_at path (entries self.now.session.items))) }
    {
        let item = self.session.circuit().item(path)?;
        memory(Reply::item(self.alloc, item))
    }

    /// Where the item at a path is in the unrolled circuit.
    #[tactic(auto, using(crate::proofs::ItemCountLaws::session_checked))]
    fn counts(&self, path: Path) -> Result<Reply, Refusal>
        ensures shows { GivesText result (text_found (λ x. counts_text path self.now.session.items) (item_at path (entries self.now.session.items))) }
    {
        show_counts(self.alloc, self.session.circuit(), path)
    }

    /// The table of coins.
    #[tactic(auto, using(crate::proofs::ItemCountLaws::session_checked))]
    fn coins(&self) -> Result<Reply, Fault>
        ensures shows { IfOk result (λ r. r.written ≡ coins_shown self.now.session.items) }
        ensures err { IfErr result (λ f. f ≡ whole OutOfMemory) }
    {
        show_coins(self.alloc, self.session.circuit())
    }

    /// The coins that decide a detector or an observable.
    #[tactic(auto, using(crate::proofs::ItemCountLaws::session_checked))]
    fn why(&self, bit: Bit) -> Result<Reply, Refusal>
        ensures shows { GivesText result (why_shown self.now.session.items bit) }
    {
        show_why(self.alloc, self.session.circuit(), bit)
    }

    /// The way of the string of a word, put in where another says.
    #[tactic(auto, using(crate::proofs::ItemCountLaws::session_checked, crate::proofs::WayReplyLemmas::session_fits))]
    fn way(&self, at: &[u8], word: &[u8]) -> Result<Reply, Refusal>
        ensures shows { GivesText result (text_found (way_text self.now.session.items false) (put_in_of self.now.session.qubits self.now.session.items at.now word.now)) }
    {
        show_way(
            self.alloc,
            self.session.circuit(),
            self.session.qubits(),
            at,
            word,
        )
    }

    /// Counts changes from now on.
    fn bookmark(&mut self) -> Result<Reply, Fault>
        ensures session { self.new.session ≡ self.old.session }
        ensures counted { self.new.counted ≡ self.old.counted }
        ensures bookmark { OnOk result (bookmark_shown self.new.bookmark ≡ shot_bits_of (session_run C.sequence self.old.session)) }
        ensures preserved { OnErr result (self.new.bookmark ≡ self.old.bookmark) }
        ensures written { IfOk result (λ r. r.written ≡ []) }
        ensures err { IfErr result (λ f. f ≡ whole OutOfMemory) }
    {
        self.bookmark = bookmark_at(self.alloc, &self.session)?;
        Ok(Reply::new(self.alloc))
    }

    /// Splits a round off the block at a place.
    fn split(&mut self, place: Path, round: u64) -> Result<Reply, Refusal>
        ensures environment { session_environment C.sequence self.new.counted self.new.session ≡ session_environment C.sequence self.old.counted self.old.session }
        ensures held { OnOk result (held_of self.new.session self.new.bookmark ≡ held_split (held_of self.old.session self.old.bookmark) (split_list place round (entries self.old.session.items))) }
        ensures preserved { OnErr result (held_of self.new.session self.new.bookmark ≡ held_of self.old.session self.old.bookmark) }
        ensures shows { GivesText result (text_found (λ list. []) (split_list place round (entries self.old.session.items))) }
    {
        match self.session.split(place, round) {
            Ok(()) => Ok(Reply::new(self.alloc)),
            Err(fault) => Err(fault.refusal),
        }
    }

    /// What only a counted script is shown.
    fn show_counted(&mut self, request: &CountedRequest) -> Result<Reply, Refusal>
        ensures environment { session_environment C.sequence self.new.counted self.new.session ≡ session_environment C.sequence self.old.counted self.old.session }
        ensures preserved { OnErr result (held_of self.new.session self.new.bookmark ≡ held_of self.old.session self.old.bookmark) }
        ensures held { OnOk result (held_of self.new.session self.new.bookmark ≡ held_after (session_run C.sequence self.old.session) (held_of self.old.session self.old.bookmark) (counted_asked request.now)) }
        ensures shows { GivesText result (counted_shown self.old.session.qubits (session_run C.sequence self.old.session) (held_of self.old.session self.old.bookmark) (counted_asked request.now)) }
    {
        match request {
            CountedRequest::Bookmark => memory(self.bookmark()),
            CountedRequest::Split { place, round } => self.split(*place, *round),
            CountedRequest::Numbers => memory(Reply::numbers(self.alloc, self.numbers())),
            CountedRequest::Changed => memory(self.changed()),
            CountedRequest::ChangedRecords => memory(self.changed_records()),
            CountedRequest::Sign(word) => self.sign(word.as_slice()),
            CountedRequest::Item(path) => self.item(*path),
            CountedRequest::Counts(path) => self.counts(*path),
            CountedRequest::Coins => memory(self.coins()),
            CountedRequest::Why(bit) => self.why(*bit),
            CountedRequest::Way { at, string } => self.way(at.as_slice(), string.as_slice()),
        }
    }

    /// The answer to what only a counted script may ask for.
    #[tactic(auto, using(crate::proofs::SessionAnswerLaws::reported_counted, crate::proofs::SessionAnswerLaws::counted_refused))]
    fn answer_counted(&mut self, request: &CountedRequest) -> Result<Answered, Fault>
        ensures environment { OnOk result (session_environment C.sequence self.new.counted self.new.session ≡ session_environment C.sequence self.old.counted self.old.session) }
        ensures answers { IfOk result (λ a. answered (held_of self.new.session self.new.bookmark) a.reply.written a.refused ≡ counted_answer self.old.counted self.old.session.qubits (session_run C.sequence self.old.session) (held_of self.old.session self.old.bookmark) (counted_asked request.now)) }
        ensures err { IfErr result (λ f. f ≡ whole OutOfMemory) }
    {
        if !self.counted {
            return self.refuse(Refusal::BadCommand);
        }
        match self.show_counted(request) {
            Ok(reply) => Ok(Answered {
                reply: reply.reported(self.alloc, true)?,
                refused: false,
            }),
            Err(refusal) => {
                let answered = self.refuse(refusal)?;
                Ok(answered)
            }
        }
    }

    /// The answer to a request for the bits that are the same for all random bits, which only a counted
    /// script may make.
    #[tactic(auto, using(crate::proofs::ItemCountLaws::session_checked))]
    fn answer_deterministic(&self) -> Result<Answered, Fault>
        ensures answers { IfOk result (λ a. IsDeterministicAnswer self.now.counted (held_of self.now.session self.now.bookmark) (answered (held_of self.now.session self.now.bookmark) a.reply.written a.refused)) }
        ensures err { IfErr result (λ f. f ≡ whole OutOfMemory) }
    {
        if !self.counted {
            return self.refuse(Refusal::BadCommand);
        }
        Ok(Answered {
            reply: show_deterministic(self.alloc, self.session.circuit())?.reported(
                self.alloc, true,
            )?,
            refused: false,
        })
    }

    /// The answer to a request for a distance, which only a counted script may make.
    #[tactic(auto, using(crate::proofs::ItemCountLaws::session_checked, crate::proofs::DistanceLaws::distance_reported, crate::proofs::DistanceLaws::distance_refused))]
    fn answer_distance(&self, everywhere: bool, most: usize) -> Result<Answered, Fault>
        ensures answers { IfOk result (λ a. IsDistanceAnswer self.now.counted (held_of self.now.session self.now.bookmark) (options_asked everywhere most) (answered (held_of self.now.session self.now.bookmark) a.reply.written a.refused)) }
        ensures err { IfErr result (λ f. f ≡ whole OutOfMemory) }
    {
        if !self.counted {
            return self.refuse(Refusal::BadCommand);
        }
        match show_distance(self.alloc, self.session.circuit(), everywhere, most) {
            Ok(reply) => Ok(Answered {
                reply: reply.reported(self.alloc, true)?,
                refused: false,
            }),
            Err(refusal) => {
                let answered = self.refuse(refusal)?;
                Ok(answered)
            }
        }
    }

    /// The answer to a request that is refused; lack of memory is passed on.
    fn refuse(&self, refusal: Refusal) -> Result<Answered, Fault>
        ensures reply { IfOk result (λ a. a.reply.written ≡ refused_text refusal) }
        ensures refused { IfOk result (λ a. a.refused ≡ true) }
        ensures no_memory { OnOk result (refusal ≢ OutOfMemory) }
        ensures err { IfErr result (λ f. f ≡ whole OutOfMemory) }
    {
        if refusal == Refusal::OutOfMemory {
            return Err(Fault::whole(Refusal::OutOfMemory));
        }
        Ok(Answered {
            reply: Reply::refusal(self.alloc, refusal)?,
            refused: true,
        })
    }

    /// Makes an edit.
    fn apply(&mut self, edit: Edit) -> Result<Answered, Fault>
        ensures environment { OnOk result (session_environment C.sequence self.new.counted self.new.session ≡ session_environment C.sequence self.old.counted self.old.session) }
        ensures answers { IfOk result (λ a. answered (held_of self.new.session self.new.bookmark) a.reply.written a.refused ≡ decided self.old.counted (held_of self.old.session self.old.bookmark) (edited_items self.old.session.qubits edit self.old.session.items)) }
        ensures err { IfErr result (λ f. f ≡ whole OutOfMemory) }
    {
        match self.session.apply(edit) {
            Ok(_) => {
                let reply = Reply::ok(self.alloc, self.counted)?;
                Ok(Answered {
                    reply,
                    refused: false,
                })
            }
            Err(refused) => {
                let answered = self.refuse(refused.fault.refusal)?;
                Ok(answered)
            }
        }
    }

    /// Makes an edit that puts in an item.
    fn put_item(&mut self, edit: ItemEdit, place: Path, item: Item) -> Result<Answered, Fault>
        ensures environment { OnOk result (session_environment C.sequence self.new.counted self.new.session ≡ session_environment C.sequence self.old.counted self.old.session) }
        ensures answers { IfOk result (λ a. answered (held_of self.new.session self.new.bookmark) a.reply.written a.refused ≡ decided self.old.counted (held_of self.old.session self.old.bookmark) (edited_items self.old.session.qubits (edit_of edit place item) self.old.session.items)) }
        ensures err { IfErr result (λ f. f ≡ whole OutOfMemory) }
    {
        match edit {
            ItemEdit::Insert => self.apply(Edit::Insert { place, item }),
            ItemEdit::Replace => self.apply(Edit::Replace { place, item }),
        }
    }

    /// Makes an edit that puts in the item of a text.
    fn put(&mut self, edit: ItemEdit, place: Path, text: &[u8]) -> Result<Answered, Fault>
        ensures environment { OnOk result (session_environment C.sequence self.new.counted self.new.session ≡ session_environment C.sequence self.old.counted self.old.session) }
        ensures answers { IfOk result (λ a. IsPut self.old.counted (held_of self.old.session self.old.bookmark) (λ item. edited_items self.old.session.qubits (edit_of edit place item) self.old.session.items) text.now (answered (held_of self.new.session self.new.bookmark) a.reply.written a.refused)) }
        ensures err { IfErr result (λ f. f ≡ whole OutOfMemory) }
    {
        match read_item(self.alloc, text) {
            Ok(item) => {
                let answered = self.put_item(edit, place, item)?;
                Ok(answered)
            }
            Err(fault) => {
                let answered = self.refuse(fault.refusal)?;
                Ok(answered)
            }
        }
    }
}

impl<C: Coins> Answer for SessionAnswers<C> {
    ghost use Rattle.stab_script.specs.inner.SessionAnswers.{session_environment, held_of};

    ghost environment = { λ a. session_environment C.sequence a.counted a.session };

    ghost held = { λ a. held_of a.session a.bookmark };

    fn answer(&mut self, request: Request) -> Result<Answered, Fault> {
        match request {
            Request::Begin => Ok(Answered {
                reply: Reply::greeting(self.alloc, self.counted, self.numbers())?,
                refused: false,
            }),
            Request::Put { edit, place, text } => self.put(edit, place, text.as_slice()),
            Request::Delete { place } => self.apply(Edit::Delete { place }),
            Request::Show(what) => Ok(Answered {
                reply: self.show(what)?.reported(self.alloc, self.counted)?,
                refused: false,
            }),
            Request::Counted(request) => self.answer_counted(&request),
            Request::Deterministic => self.answer_deterministic(),
            Request::Distance { everywhere, most } => self.answer_distance(everywhere, most),
            Request::Refuse(refusal) => self.refuse(refusal),
        }
    }
}
