//! What is left of a text.
ghost use Rattle.std.specs.Prelude.{◌≡◌, ◌+◌, ◌<◌, ◌≤◌, Ok, Err, IfErr, IfOk, OnOk, length, map};
ghost use Rattle.cu_flatread.specs.Inside.Words.{Gives, Passes, after_word, begins, goes_on, is_at, one_of};

use crate::stop::Stop;

/// What is left of a text.
#[derive(Drop)]
pub(crate) struct Cursor<'t> {
    pub(crate) rest: &'t [u8],
}

/// What follows a word at the start of bytes, or how many bytes are left where
/// they part from the word.
#[tactic(auto, unfolding(crate::specs::Inside::Words::after_word))]
fn after_word<'t>(bytes: &'t [u8], word: &[u8]) -> Result<&'t [u8], usize>
    ensures ok { IfOk result (λ rest. after_word word.now bytes.now ≡ Ok rest.now) }
    ensures err { IfErr result (λ left. after_word word.now bytes.now ≡ Err left) }
    ensures shorter { IfOk result (λ rest. length rest.now + length word.now ≡ length bytes.now) }
{
    let mut rest = bytes;
    let mut left = word;
    while let [letter, letters @ ..] = left {
        let [first, others @ ..] = rest else {
            return Err(0);
        };
        if *first != *letter {
            return Err(rest.len());
        }
        rest = others;
        left = letters;
    }
    Ok(rest)
}

impl Cursor<'_> {
    ghost use Rattle.std.specs.Prelude.{◌≡◌, ◌+◌, ◌<◌, ◌≤◌, Ok, Err, IfErr, IfOk, OnOk, length, map};
    ghost use Rattle.cu_flatread.specs.Inside.Words.{Gives, Passes, after_word, begins, goes_on, is_at, one_of};

    /// Passes a word.
    pub(crate) fn word(&mut self, word: &[u8]) -> Result<(), Stop>
        ensures gives { Passes result self.new.rest.now (after_word word.now self.old.rest.now) }
        ensures shorter { OnOk result
            (length self.new.rest.now + length word.now ≡ length self.old.rest.now) }
    {
        match after_word(self.rest, word) {
            Ok(rest) => {
                self.rest = rest;
                Ok(())
            }
            Err(left) => Err(Stop::At(left)),
        }
    }

    /// Passes one of several words, none of which begins another, and answers
    /// what it stands for.
    #[tactic(auto, unfolding(crate::specs::Inside::Words::one_of_words))]
    pub(crate) fn one_of<T: Copy>(&mut self, words: &[(&'static [u8], T)]) -> Result<T, Stop>
        ensures gives { Gives (λ x. x) result self.new.rest.now
            (one_of (map (λ w. (w.0.now, w.1)) words.now) self.old.rest.now) }
        ensures shorter { OnOk result (length self.new.rest.now ≤ length self.old.rest.now) }
    {
        let mut least = self.rest.len();
        let mut left = words;
        while let [first, others @ ..] = left {
            match after_word(self.rest, first.0) {
                Ok(rest) => {
                    self.rest = rest;
                    return Ok(first.1);
                }
                Err(parted) => least = least.min(parted),
            }
            left = others;
        }
        Err(Stop::At(least))
    }

    /// Whether a byte comes next.
    pub(crate) fn is_at(&self, byte: u8) -> bool
        ensures { result ≡ is_at byte self.now.rest.now }
    {
        match self.rest {
            [first, ..] => *first == byte,
            [] => false,
        }
    }

    /// Passes the end of a list, where it comes after the opening bracket;
    /// answers whether an element comes instead.
    #[tactic(auto, unfolding(crate::specs::Inside::Words::begins))]
    pub(crate) fn begins(&mut self) -> Result<bool, Stop>
        ensures gives { Gives (λ x. x) result self.new.rest.now (begins self.old.rest.now) }
        ensures shorter { OnOk result (length self.new.rest.now ≤ length self.old.rest.now) }
    {
        if !self.is_at(b']') {
            return Ok(true);
        }
        self.word(b"]")?;
        Ok(false)
    }

    /// Passes a comma, or the end of a list; answers whether it was a comma.
    pub(crate) fn goes_on(&mut self) -> Result<bool, Stop>
        ensures gives { Gives (λ x. x) result self.new.rest.now (goes_on self.old.rest.now) }
        ensures shorter { OnOk result (length self.new.rest.now < length self.old.rest.now) }
    {
        match self.rest {
            [b',', others @ ..] => {
                self.rest = others;
                Ok(true)
            }
            [b']', others @ ..] => {
                self.rest = others;
                Ok(false)
            }
            _ => Err(Stop::At(self.rest.len())),
        }
    }
}
