//! Words of which most are 0.

ghost use Rattle.std.specs.Prelude.{◌≡◌, ◌+◌, ◌++◌, [], ◌∷◌, ◌*◌, ◌↔◌, IsTrue, IfOk, OnOk, length, take, drop, replicate, slice_index_or, ◌<◌, ◌≤◌, ◌^◌};
ghost use Rattle.stab_pauli.specs.inner.Words.{AreShort};
ghost use Rattle.stab_pauli.specs.inner.Sparse.{spread, words_from, IsSparse};

use std::alloc::{AllocError, Global};

/// Words, without those that are 0.
#[derive(Drop)]
pub(crate) struct SparseWords {
    /// How many words 0 are before each word that is stored. A gap too long for a byte is cut by words 0 that are stored.
    pub(crate) gaps: Vec<u8>,
    pub(crate) stored: Vec<u64>,
    /// How many are after the last word that is stored.
    pub(crate) following: usize,
}

/// A position among such words.
#[derive(Clone, Copy)]
struct SparsePosition {
    /// How many of the words that are stored are passed.
    next: usize,
    /// How many words 0 are before the next of these, or, after the last, how many are left.
    gap: usize,
}

/// A law, which does no work: words have 64 bits.
pub(crate) fn are_short(words: &[u64])
    ensures law { AreShort 64 words.now }
{
    let _ = words;
}

/// Whether all eight words of a block are 0, as most are, by one test.
#[inline(always)]
pub(crate) fn is_blank(block: &[u64]) -> bool
    requires size { length block.now ≡ 8 }
    ensures value { IsTrue result ↔ (block.now ≡ replicate 8 0) }
{
    let x = (block[0] | block[1]) | (block[2] | block[3]);
    let z = (block[4] | block[5]) | (block[6] | block[7]);
    x | z == 0
}

impl SparseWords {
    /// No words, with room to keep this many.
    fn with_room(alloc: Global, size: usize) -> Result<SparseWords, AllocError>
        ensures value { IfOk result (λ s. IsSparse s.gaps.items s.stored.items s.following []) }
    {
        Ok(SparseWords {
            gaps: Vec::with_capacity(alloc, size)?,
            stored: Vec::with_capacity(alloc, size)?,
            following: 0,
        })
    }

    /// Keeps a word after this many words 0, whatever is after the last that is stored.
    #[inline(always)]
    fn keep(&mut self, gap: usize, word: u64) -> Result<(), AllocError>
        requires fits { gap ≤ 255 }
        ensures gaps { OnOk result (self.new.gaps.items ≡ self.old.gaps.items ++ gap ∷ []) }
        ensures stored { OnOk result (self.new.stored.items ≡ self.old.stored.items ++ word ∷ []) }
        ensures following { self.new.following ≡ self.old.following }
    {
        self.gaps.push(gap as u8)?;
        self.stored.push(word)?;
        Ok(())
    }

    /// Puts a word after these.
    #[inline(always)]
    fn push(&mut self, word: u64) -> Result<(), AllocError>
        requires even { length self.old.gaps.items ≡ length self.old.stored.items }
        requires fits { self.old.following ≤ 255 }
        ensures near { OnOk result (self.new.following ≤ self.old.following + 1) }
        ensures value { OnOk result (IsSparse self.new.gaps.items self.new.stored.items self.new.following (spread self.old.gaps.items self.old.stored.items self.old.following ++ word ∷ [])) }
    {
        if word == 0 {
            self.following += 1;
            return Ok(());
        }
        self.keep(self.following, word)?;
        self.following = 0;
        Ok(())
    }

    /// Cuts the gap after the last word that is stored: keeps a word 0, after as many others as fit a byte.
    fn cut_gap(&mut self) -> Result<(), AllocError>
        requires even { length self.old.gaps.items ≡ length self.old.stored.items }
        requires many { 0 < self.old.following }
        ensures fewer { OnOk result (self.new.following < self.old.following) }
        ensures value { OnOk result (IsSparse self.new.gaps.items self.new.stored.items self.new.following (spread self.old.gaps.items self.old.stored.items self.old.following)) }
    {
        let gap = (self.following - 1).min(255);
        self.keep(gap, 0)?;
        self.following = self.following - gap - 1;
        Ok(())
    }

    /// Cuts that gap until what a block may add to it fits a byte.
    #[inline(always)]
    fn cut_gaps(&mut self) -> Result<(), AllocError>
        requires even { length self.old.gaps.items ≡ length self.old.stored.items }
        ensures fits { OnOk result (self.new.following ≤ 247) }
        ensures value { OnOk result (IsSparse self.new.gaps.items self.new.stored.items self.new.following (spread self.old.gaps.items self.old.stored.items self.old.following)) }
    {
        while self.following > 247 {
            self.cut_gap()?;
        }
        Ok(())
    }

    /// Puts the eight words of a block after these.
    #[inline(always)]
    fn push_words(&mut self, block: &[u64]) -> Result<(), AllocError>
        requires even { length self.old.gaps.items ≡ length self.old.stored.items }
        requires fits { self.old.following ≤ 247 }
        requires size { length block.now ≡ 8 }
        ensures value { OnOk result (IsSparse self.new.gaps.items self.new.stored.items self.new.following (spread self.old.gaps.items self.old.stored.items self.old.following ++ block.now)) }
    {
        for k in 0..8 {
            self.push(block[k])?;
        }
        Ok(())
    }

    /// Puts a block after these, blank or not.
    #[inline(always)]
    fn push_block(&mut self, block: &[u64]) -> Result<(), AllocError>
        requires even { length self.old.gaps.items ≡ length self.old.stored.items }
        requires fits { self.old.following + 8 < 2 ^ 64 }
        requires size { length block.now ≡ 8 }
        ensures value { OnOk result (IsSparse self.new.gaps.items self.new.stored.items self.new.following (spread self.old.gaps.items self.old.stored.items self.old.following ++ block.now)) }
    {
        if is_blank(block) {
            self.following += 8;
            return Ok(());
        }
        self.cut_gaps()?;
        self.push_words(block)
    }

    /// What these words are, of which there are eight times this many.
    pub(crate) fn of(alloc: Global, words: &[u64], blocks: usize) -> Result<SparseWords, AllocError>
        requires all { length words.now ≡ 8 * blocks }
        ensures value { IfOk result (λ s. IsSparse s.gaps.items s.stored.items s.following words.now) }
    {
        // Room for two words of each block, about as many as a code's states keep. Room that is not used is given back.
        let mut sparse = SparseWords::with_room(alloc, 2 * blocks)?;
        for block in 0..blocks {
            let at = 8 * block;
            sparse.push_block(&words[at..at + 8])?;
        }
        sparse.gaps.shrink_to_fit();
        sparse.stored.shrink_to_fit();
        Ok(sparse)
    }

    /// Writes the words over as many words 0.
    pub(crate) fn write_into(&self, words: &mut [u64])
        requires even { length self.now.gaps.items ≡ length self.now.stored.items }
        requires size { length words.old ≡ length (spread self.now.gaps.items self.now.stored.items self.now.following) }
        requires zeros { words.old ≡ replicate (length words.old) 0 }
        ensures value { words.new ≡ spread self.now.gaps.items self.now.stored.items self.now.following }
    {
        let mut at = 0;
        for k in 0..self.stored.len() {
            at += usize::from(self.gaps[k]);
            words[at] = self.stored[k];
            at += 1;
        }
    }

    /// Whether the same is stored of other words.
    pub(crate) fn is_stored_as(&self, other: &SparseWords) -> bool
        ensures gaps { IsTrue result → self.now.gaps.items ≡ other.now.gaps.items }
        ensures stored { IsTrue result → self.now.stored.items ≡ other.now.stored.items }
        ensures following { IsTrue result → self.now.following ≡ other.now.following }
    {
        self.following == other.following
            && self.stored.as_slice() == other.stored.as_slice()
            && self.gaps.as_slice() == other.gaps.as_slice()
    }

    /// How many words 0 are after this many of the words that are stored.
    #[inline(always)]
    fn gap_after(&self, passed: usize) -> usize
        requires even { length self.now.gaps.items ≡ length self.now.stored.items }
        ensures value { words_from self.now.gaps.items self.now.stored.items self.now.following passed result ≡ spread (drop passed self.now.gaps.items) (drop passed self.now.stored.items) self.now.following }
    {
        if passed < self.gaps.len() {
            return usize::from(self.gaps[passed]);
        }
        self.following
    }

    /// The position before all of them.
    #[inline(always)]
    fn first_position(&self) -> SparsePosition
        requires even { length self.now.gaps.items ≡ length self.now.stored.items }
        ensures value { words_from self.now.gaps.items self.now.stored.items self.now.following result.next result.gap ≡ spread self.now.gaps.items self.now.stored.items self.now.following }
    {
        SparsePosition {
            next: 0,
            gap: self.gap_after(0),
        }
    }

    /// The next word, which the position then has passed.
    #[inline(always)]
    fn take_word(&self, position: &mut SparsePosition) -> u64
        requires even { length self.now.gaps.items ≡ length self.now.stored.items }
        requires some { 0 < length (words_from self.now.gaps.items self.now.stored.items self.now.following position.old.next position.old.gap) }
        ensures value { words_from self.now.gaps.items self.now.stored.items self.now.following position.old.next position.old.gap ≡ result ∷ words_from self.now.gaps.items self.now.stored.items self.now.following position.new.next position.new.gap }
    {
        if position.gap > 0 {
            position.gap -= 1;
            return 0;
        }
        let word = self.stored[position.next];
        position.next += 1;
        position.gap = self.gap_after(position.next);
        word
    }

    /// Whether the next eight words are those of a block, which the position then has passed: one test a word.
    #[inline(always)]
    fn has_words(&self, position: &mut SparsePosition, block: &[u64]) -> bool
        requires even { length self.now.gaps.items ≡ length self.now.stored.items }
        requires size { length block.now ≡ 8 }
        requires fits { 8 ≤ length (words_from self.now.gaps.items self.now.stored.items self.now.following position.old.next position.old.gap) }
        ensures value { IsTrue result ↔ (take 8 (words_from self.now.gaps.items self.now.stored.items self.now.following position.old.next position.old.gap) ≡ block.now) }
        ensures following { IsTrue result → words_from self.now.gaps.items self.now.stored.items self.now.following position.new.next position.new.gap ≡ drop 8 (words_from self.now.gaps.items self.now.stored.items self.now.following position.old.next position.old.gap) }
    {
        for k in 0..8 {
            if self.take_word(position) != block[k] {
                return false;
            }
        }
        true
    }

    /// Whether the next eight words are those of a block, which the position then has passed: one test if as many words 0
    /// are next.
    #[inline(always)]
    fn has_block(&self, position: &mut SparsePosition, block: &[u64]) -> bool
        requires even { length self.now.gaps.items ≡ length self.now.stored.items }
        requires size { length block.now ≡ 8 }
        requires fits { 8 ≤ length (words_from self.now.gaps.items self.now.stored.items self.now.following position.old.next position.old.gap) }
        ensures value { IsTrue result ↔ (take 8 (words_from self.now.gaps.items self.now.stored.items self.now.following position.old.next position.old.gap) ≡ block.now) }
        ensures following { IsTrue result → words_from self.now.gaps.items self.now.stored.items self.now.following position.new.next position.new.gap ≡ drop 8 (words_from self.now.gaps.items self.now.stored.items self.now.following position.old.next position.old.gap) }
    {
        if position.gap >= 8 {
            position.gap -= 8;
            return is_blank(block);
        }
        self.has_words(position, block)
    }

    /// Whether these are the words, of which there are as many, eight for each of this many blocks.
    pub(crate) fn are(&self, words: &[u64], blocks: usize) -> bool
        requires even { length self.now.gaps.items ≡ length self.now.stored.items }
        requires all { length words.now ≡ 8 * blocks }
        requires size { length words.now ≡ length (spread self.now.gaps.items self.now.stored.items self.now.following) }
        ensures value { IsTrue result ↔ (spread self.now.gaps.items self.now.stored.items self.now.following ≡ words.now) }
    {
        let mut position = self.first_position();
        for block in 0..blocks {
            let at = 8 * block;
            if !self.has_block(&mut position, &words[at..at + 8]) {
                return false;
            }
        }
        true
    }
}
