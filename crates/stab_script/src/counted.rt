//! What only a counted script asks for.
ghost use Rattle.std.specs.Prelude.{◌≡◌, Some, IfOk, IfErr};
ghost use Rattle.stab_io.specs.Refusals.{whole};
ghost use Rattle.stab_io.specs.declared.refusal.Refusal.TheVariants.{OutOfMemory};
ghost use Rattle.stab_script.specs.CountedRequests.{request_alone as alone_of, alone_with, item, counts, why, round_number_of, split_of, counted_split, changed_of, sign_of, way_asked, bit_by as bit_by_letter, bit_of_word, counted_show as shown_by};
ghost use Rattle.stab_script.specs.ScriptWords.{first_word as first_of, after_word, path_of_word};
ghost use Rattle.stab_script.specs.Requests.{counted_asked, counted_if_any};

use crate::paths::{first_word, path_number, read_path};
use stab_circuit::Path;
use stab_io::Fault;
use stab_report::Bit;
use std::alloc::Global;

/// What only a counted script asks for.
#[derive(Drop)]
pub enum CountedRequest {
    /// That changes are counted from now on.
    Bookmark,
    /// That a round, counted from 0, is split off the block at a place.
    Split { place: Path, round: u64 },
    /// The numbers of the circuit.
    Numbers,
    /// What changed of detectors and observables.
    Changed,
    /// What changed of records.
    ChangedRecords,
    /// The sign of the Pauli string of a word.
    Sign(Vec<u8>),
    /// The item at a path.
    Item(Path),
    /// Where that is in the unrolled circuit.
    Counts(Path),
    /// The table of coins.
    Coins,
    /// The coins that decide a detector or an observable.
    Why(Bit),
    /// The way of the string of a word, put in where another says.
    Way { at: Vec<u8>, string: Vec<u8> },
}

/// The request, if nothing is after its word.
pub(crate) fn alone(rest: &[u8], request: CountedRequest) -> Option<CountedRequest>
    ensures value { counted_if_any result ≡ alone_of rest.now (counted_asked request) }
{
    if rest.is_empty() { Some(request) } else { None }
}

/// The number of a round that a word stands for.
pub fn read_round(word: &[u8]) -> Option<u64>
    ensures value { result ≡ round_number_of word.now }
{
    match path_number(word) {
        None => None,
        Some(number) => Some(number as u64),
    }
}

/// That a round is split off the block at a place, by what follows the place.
fn read_split_at(place: Path, rest: &[u8]) -> Option<CountedRequest>
    ensures value { counted_if_any result ≡ split_of (Some place) (round_number_of (first_of rest.now)) (after_word rest.now) }
{
    let (word, rest) = first_word(rest);
    match read_round(word) {
        None => None,
        Some(round) => alone(rest, CountedRequest::Split { place, round }),
    }
}

/// What the words after `split` ask for: a place and a round.
pub(crate) fn read_split(rest: &[u8]) -> Option<CountedRequest>
    ensures value { counted_if_any result ≡ counted_split rest.now }
{
    let (word, rest) = first_word(rest);
    match read_path(word) {
        None => None,
        Some(place) => read_split_at(place, rest),
    }
}

/// What the words after `show changed` ask for.
fn read_changed(rest: &[u8]) -> Option<CountedRequest>
    ensures value { counted_if_any result ≡ changed_of rest.now }
{
    if rest == b"records".as_slice() {
        Some(CountedRequest::ChangedRecords)
    } else {
        alone(rest, CountedRequest::Changed)
    }
}

/// The sign of the string of a word.
fn read_sign(alloc: Global, word: &[u8], rest: &[u8]) -> Result<Option<CountedRequest>, Fault>
    ensures gives { IfOk result (λ r. counted_if_any r ≡ sign_of word.now rest.now) }
    ensures err { IfErr result (λ f. f ≡ whole OutOfMemory) }
{
    if word.is_empty() {
        return Ok(None);
    }
    let word = Vec::from_slice(alloc, word)?;
    Ok(alone(rest, CountedRequest::Sign(word)))
}

/// The way of the string of a word, put in where another says.
fn read_way(
    alloc: Global,
    at: &[u8],
    word: &[u8],
    rest: &[u8],
) -> Result<Option<CountedRequest>, Fault>
    ensures gives { IfOk result (λ r. counted_if_any r ≡ way_asked at.now word.now rest.now) }
    ensures err { IfErr result (λ f. f ≡ whole OutOfMemory) }
{
    if word.is_empty() {
        return Ok(None);
    }
    let at = Vec::from_slice(alloc, at)?;
    let string = Vec::from_slice(alloc, word)?;
    Ok(alone(rest, CountedRequest::Way { at, string }))
}

/// The item at a path.
fn read_item_at(rest: &[u8]) -> Option<CountedRequest>
    ensures value { counted_if_any result ≡ alone_with item (path_of_word (first_of rest.now)) (after_word rest.now) }
{
    let (word, rest) = first_word(rest);
    match read_path(word) {
        None => None,
        Some(path) => alone(rest, CountedRequest::Item(path)),
    }
}

/// Where the item at a path is in the unrolled circuit.
fn read_counts_at(rest: &[u8]) -> Option<CountedRequest>
    ensures value { counted_if_any result ≡ alone_with counts (path_of_word (first_of rest.now)) (after_word rest.now) }
{
    let (word, rest) = first_word(rest);
    match read_path(word) {
        None => None,
        Some(path) => alone(rest, CountedRequest::Counts(path)),
    }
}

/// The detector or observable that a letter and a number name.
fn bit_by(letter: u8, number: usize) -> Option<Bit>
    ensures value { result ≡ bit_by_letter letter (Some number) }
{
    match letter {
        b'D' => Some(Bit::Detector(number)),
        b'L' => Some(Bit::Observable(number)),
        _ => None,
    }
}

/// The detector or observable that a word names.
fn read_bit(word: &[u8]) -> Option<Bit>
    ensures value { result ≡ bit_of_word word.now }
{
    if word.is_empty() {
        return None;
    }
    match path_number(&word[1..]) {
        None => None,
        Some(number) => bit_by(word[0], number),
    }
}

/// The coins that decide a detector or an observable.
fn read_why(rest: &[u8]) -> Option<CountedRequest>
    ensures value { counted_if_any result ≡ alone_with why (bit_of_word (first_of rest.now)) (after_word rest.now) }
{
    let (word, rest) = first_word(rest);
    match read_bit(word) {
        None => None,
        Some(bit) => alone(rest, CountedRequest::Why(bit)),
    }
}

/// What the first word after `show`, and the rest after that, ask for; fault `OutOfMemory` alone.
pub(crate) fn read_counted_show(
    alloc: Global,
    word: &[u8],
    rest: &[u8],
) -> Result<Option<CountedRequest>, Fault>
    ensures gives { IfOk result (λ r. counted_if_any r ≡ shown_by word.now rest.now) }
    ensures err { IfErr result (λ f. f ≡ whole OutOfMemory) }
{
    if word == b"numbers".as_slice() {
        Ok(alone(rest, CountedRequest::Numbers))
    } else if word == b"changed".as_slice() {
        Ok(read_changed(rest))
    } else if word == b"sign".as_slice() {
        let (word, rest) = first_word(rest);
        read_sign(alloc, word, rest)
    } else if word == b"item".as_slice() {
        Ok(read_item_at(rest))
    } else if word == b"place".as_slice() {
        Ok(read_counts_at(rest))
    } else if word == b"coins".as_slice() {
        Ok(alone(rest, CountedRequest::Coins))
    } else if word == b"why".as_slice() {
        Ok(read_why(rest))
    } else if word == b"way".as_slice() {
        let (at, rest) = first_word(rest);
        let (word, rest) = first_word(rest);
        read_way(alloc, at, word, rest)
    } else {
        Ok(None)
    }
}
