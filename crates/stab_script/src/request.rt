//! What a line of a script asks for.
ghost use Rattle.std.specs.Prelude.{◌≡◌, Some, IfOk, IfErr};
ghost use Rattle.stab_io.specs.Refusals.{whole};
ghost use Rattle.stab_io.specs.declared.refusal.Refusal.TheVariants.{OutOfMemory};
ghost use Rattle.stab_script.specs.CountedRequests.{round_number_of};
ghost use Rattle.stab_script.specs.ScriptWords.{first_word as first_of, after_word, path_of_word};
ghost use Rattle.stab_script.specs.Scripts.{put_at as put_of, delete_at as delete_of, distance_of, counted_of, show_by, show_of, request_by as by_word, request_of};
ghost use Rattle.stab_script.specs.Requests.{request_asked, counted_if_any};

use crate::counted::{CountedRequest, alone, read_counted_show, read_split};
use crate::paths::{first_word, path_number, read_path};
use stab_circuit::Path;
use stab_io::{Fault, Refusal};
use std::alloc::Global;

/// An edit that puts an item in.
#[derive(Clone, Copy, Debug, PartialEq, Eq)]
pub enum ItemEdit {
    /// Before the item at a path, or last in its list.
    Insert,
    /// In place of the item at a path.
    Replace,
}

/// What `show` writes.
#[derive(Clone, Copy, Debug, PartialEq, Eq)]
pub enum Show {
    /// The records.
    Measurements,
    /// Which coins decided.
    Free,
    /// The detectors.
    Detectors,
    /// The observables.
    Observables,
    /// The reduced rows of the group.
    Stabilisers,
    /// The printed circuit.
    Circuit,
}

/// What a script asks for.
#[derive(Drop)]
pub enum Request {
    /// That a script begins.
    Begin,
    /// That the item of a text is put in at a place.
    Put {
        edit: ItemEdit,
        place: Path,
        text: Vec<u8>,
    },
    /// That the item at a path is deleted.
    Delete {
        place: Path,
    },
    /// That something is shown.
    Show(Show),
    /// What only a counted script asks for.
    Counted(CountedRequest),
    /// Which detectors and observables are the same for all random bits, for a counted script.
    Deterministic,
    /// The distance up to a number of errors, for a counted script: of errors everywhere, or where the
    /// circuit marks them.
    Distance {
        everywhere: bool,
        most: usize,
    },
    /// Nothing: a line is refused.
    Refuse(Refusal),
}

/// An edit that puts an item in, by what follows its word: a place and a text.
fn put_at(alloc: Global, edit: ItemEdit, rest: &[u8]) -> Result<Request, Fault>
    ensures gives { IfOk result (λ r. request_asked r ≡ put_of edit (path_of_word (first_of rest.now)) (after_word rest.now)) }
    ensures err { IfErr result (λ f. f ≡ whole OutOfMemory) }
{
    let (word, text) = first_word(rest);
    match read_path(word) {
        None => Ok(Request::Refuse(Refusal::BadCommand)),
        Some(place) => {
            if text.is_empty() {
                return Ok(Request::Refuse(Refusal::BadCommand));
            }
            let text = Vec::from_slice(alloc, text)?;
            Ok(Request::Put { edit, place, text })
        }
    }
}

/// A deletion, by what follows its word: a place alone.
fn delete_at(rest: &[u8]) -> Request
    ensures value { request_asked result ≡ delete_of (path_of_word (first_of rest.now)) (after_word rest.now) }
{
    let (word, text) = first_word(rest);
    match read_path(word) {
        None => Request::Refuse(Refusal::BadCommand),
        Some(place) => {
            if text.is_empty() {
                Request::Delete { place }
            } else {
                Request::Refuse(Refusal::BadCommand)
            }
        }
    }
}

/// What only a counted script asks for, if it asks for anything.
fn counted_if_some(request: Option<CountedRequest>) -> Request
    ensures value { request_asked result ≡ counted_of (counted_if_any request) }
{
    match request {
        None => Request::Refuse(Refusal::BadCommand),
        Some(request) => Request::Counted(request),
    }
}

/// The distance up to a number of errors, by what follows the number.
fn distance_up_to(most: usize, rest: &[u8]) -> Request
    ensures value { request_asked result ≡ distance_of (Some most) rest.now }
{
    if rest.is_empty() {
        Request::Distance {
            everywhere: false,
            most,
        }
    } else if rest == b"everywhere".as_slice() {
        Request::Distance {
            everywhere: true,
            most,
        }
    } else {
        Request::Refuse(Refusal::BadCommand)
    }
}

/// The distance, by the words after `show distance`.
fn read_distance(rest: &[u8]) -> Request
    ensures value { request_asked result ≡ distance_of (round_number_of (first_of rest.now)) (after_word rest.now) }
{
    let (word, rest) = first_word(rest);
    match path_number(word) {
        None => Request::Refuse(Refusal::BadCommand),
        Some(most) => distance_up_to(most, rest),
    }
}

/// What only a counted script may be shown, by the first word after `show` and the rest after that.
fn read_show_by(alloc: Global, word: &[u8], rest: &[u8]) -> Result<Request, Fault>
    ensures gives { IfOk result (λ r. request_asked r ≡ show_by word.now rest.now) }
    ensures err { IfErr result (λ f. f ≡ whole OutOfMemory) }
{
    if word == b"distance".as_slice() {
        return Ok(read_distance(rest));
    }
    let request = read_counted_show(alloc, word, rest)?;
    Ok(counted_if_some(request))
}

/// What the words after `show` ask for.
fn read_show(alloc: Global, word: &[u8]) -> Result<Request, Fault>
    ensures gives { IfOk result (λ r. request_asked r ≡ show_of word.now) }
    ensures err { IfErr result (λ f. f ≡ whole OutOfMemory) }
{
    if word == b"measurements".as_slice() {
        Ok(Request::Show(Show::Measurements))
    } else if word == b"free".as_slice() {
        Ok(Request::Show(Show::Free))
    } else if word == b"detectors".as_slice() {
        Ok(Request::Show(Show::Detectors))
    } else if word == b"observables".as_slice() {
        Ok(Request::Show(Show::Observables))
    } else if word == b"stabilisers".as_slice() {
        Ok(Request::Show(Show::Stabilisers))
    } else if word == b"circuit".as_slice() {
        Ok(Request::Show(Show::Circuit))
    } else if word == b"deterministic".as_slice() {
        Ok(Request::Deterministic)
    } else {
        let (word, rest) = first_word(word);
        read_show_by(alloc, word, rest)
    }
}

/// What a first word and the rest after it ask for.
fn request_by(alloc: Global, word: &[u8], rest: &[u8]) -> Result<Request, Fault>
    ensures gives { IfOk result (λ r. request_asked r ≡ by_word word.now rest.now) }
    ensures err { IfErr result (λ f. f ≡ whole OutOfMemory) }
{
    if word == b"insert".as_slice() {
        put_at(alloc, ItemEdit::Insert, rest)
    } else if word == b"replace".as_slice() {
        put_at(alloc, ItemEdit::Replace, rest)
    } else if word == b"delete".as_slice() {
        Ok(delete_at(rest))
    } else if word == b"show".as_slice() {
        read_show(alloc, rest)
    } else if word == b"mark".as_slice() {
        Ok(counted_if_some(alone(rest, CountedRequest::Bookmark)))
    } else if word == b"split".as_slice() {
        Ok(counted_if_some(read_split(rest)))
    } else {
        Ok(Request::Refuse(Refusal::BadCommand))
    }
}

/// What a content asks for that is not blank; fault `OutOfMemory` alone.
#[tactic(auto, unfolding(crate::specs::Scripts::request_of))]
pub(crate) fn read_request(alloc: Global, content: &[u8]) -> Result<Request, Fault>
    ensures gives { IfOk result (λ r. request_asked r ≡ request_of content.now) }
    ensures err { IfErr result (λ f. f ≡ whole OutOfMemory) }
{
    let (word, rest) = first_word(content);
    request_by(alloc, word, rest)
}
