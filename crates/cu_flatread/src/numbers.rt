//! Numbers in a text.
ghost use Rattle.std.specs.Prelude.{map, ◌≡◌, ◌∷◌, [], ◌-◌, ◌<◌, ◌≤◌, IfOk, OnOk, length, if◌then◌else◌, None, Some};
ghost use Rattle.cu_flatread.specs.Inside.Numbers.{at_digit, character_at, decimal_at, digits_at, integer_at, is_digit, level_at, literal_at, literal_words, negative_at, number_at, numbers_at, positive_at};
ghost use Rattle.cu_flatread.specs.Inside.Words.{Gives, joined, more_elements};

use crate::cursor::Cursor;
use crate::stop::Stop;
use cu_calculus::Lit;
use std::alloc::Global;

/// The most that 64 bits hold.
const MOST_NUMBER: u128 = (1 << 64) - 1;
/// The most that 32 bits hold.
const MOST_LEVEL: u128 = (1 << 32) - 1;
/// The greatest scalar of Unicode.
const MOST_SCALAR: u128 = 0x10_FFFF;
/// The greatest integer of the language.
const MOST_INTEGER: u128 = (1 << 127) - 1;

/// The forms of a literal.
#[derive(Clone, Copy)]
enum LiteralForm {
    Integer,
    Char,
}

const LITERALS: [(&[u8], LiteralForm); 2] = [
    (b"Intc ", LiteralForm::Integer),
    (b"Charc ", LiteralForm::Char),
];

/// The words of a literal.
fn literal_words() -> &'static [(&'static [u8], LiteralForm)]
    ensures { map (λ w. (w.0.now, w.1)) result.now ≡ literal_words }
{
    &LITERALS
}

fn digit_of(byte: u8) -> Option<u128>
    ensures { result ≡ (if is_digit byte then Some (byte - 48) else None) }
{
    match byte {
        b'0'..=b'9' => Some((byte - b'0') as u128),
        _ => None,
    }
}

impl Cursor<'_> {
    /// Whether a digit comes next.
    fn is_at_digit(&self) -> bool
        ensures { result ≡ at_digit self.now.rest.now }
    {
        match self.rest {
            [first, ..] => first.is_ascii_digit(),
            [] => false,
        }
    }

    /// A number in decimal, of no more than so much, without leading zeros.
    #[tactic(auto, unfolding(crate::specs::Inside::Numbers::decimal_at))]
    fn decimal(&mut self, most: u128) -> Result<u128, Stop>
        requires { 9 ≤ most }
        ensures gives { Gives (λ n. n) result self.new.rest.now
            (decimal_at most self.old.rest.now) }
        ensures most { IfOk result (λ n. n ≤ most) }
        ensures shorter { OnOk result (length self.new.rest.now < length self.old.rest.now) }
    {
        if !self.is_at(b'0') {
            return self.positive(most);
        }
        self.word(b"0")?;
        if self.is_at_digit() {
            return Err(Stop::At(self.rest.len()));
        }
        Ok(0)
    }

    /// A number in decimal, from 1 on and of no more than so much.
    #[tactic(auto, unfolding(crate::specs::Inside::Numbers::positive_at))]
    fn positive(&mut self, most: u128) -> Result<u128, Stop>
        requires { 9 ≤ most }
        ensures gives { Gives (λ n. n) result self.new.rest.now
            (positive_at most self.old.rest.now) }
        ensures least { IfOk result (λ n. 1 ≤ n) }
        ensures most { IfOk result (λ n. n ≤ most) }
        ensures shorter { OnOk result (length self.new.rest.now < length self.old.rest.now) }
    {
        let [first, others @ ..] = self.rest else {
            return Err(Stop::At(0));
        };
        let Some(digit) = digit_of(*first) else {
            return Err(Stop::At(self.rest.len()));
        };
        if digit == 0 {
            return Err(Stop::At(self.rest.len()));
        }
        self.rest = others;
        self.digits(most, digit)
    }

    /// The number of which a part was read, where further digits follow it.
    #[tactic(auto, unfolding(crate::specs::Inside::Numbers::digits_at))]
    fn digits(&mut self, most: u128, read: u128) -> Result<u128, Stop>
        requires nine { 9 ≤ most }
        requires most { read ≤ most }
        ensures gives { Gives (λ n. n) result self.new.rest.now
            (digits_at most read self.old.rest.now) }
        ensures least { IfOk result (λ n. read ≤ n) }
        ensures most { IfOk result (λ n. n ≤ most) }
        ensures shorter { OnOk result (length self.new.rest.now ≤ length self.old.rest.now) }
    {
        let mut value = read;
        while let [first, others @ ..] = self.rest {
            let Some(digit) = digit_of(*first) else {
                return Ok(value);
            };
            if value > (most - digit) / 10 {
                return Err(Stop::At(self.rest.len()));
            }
            value = value * 10 + digit;
            self.rest = others;
        }
        Ok(value)
    }

    /// A number that 64 bits hold.
    pub(crate) fn number(&mut self) -> Result<u64, Stop>
        ensures gives { Gives (λ n. n) result self.new.rest.now (number_at self.old.rest.now) }
        ensures shorter { OnOk result (length self.new.rest.now < length self.old.rest.now) }
    {
        let number = self.decimal(MOST_NUMBER)?;
        Ok(number as u64)
    }

    /// A precedence, which 32 bits hold.
    pub(crate) fn level(&mut self) -> Result<u32, Stop>
        ensures gives { Gives (λ n. n) result self.new.rest.now (level_at self.old.rest.now) }
        ensures shorter { OnOk result (length self.new.rest.now < length self.old.rest.now) }
    {
        let level = self.decimal(MOST_LEVEL)?;
        Ok(level as u32)
    }

    /// A list of numbers.
    #[tactic(auto, unfolding(crate::specs::Inside::Words::list_at, crate::specs::Inside::Words::list_after))]
    pub(crate) fn numbers(&mut self, alloc: Global) -> Result<Vec<u64>, Stop>
        ensures gives { Gives (λ ns. ns.items) result self.new.rest.now
            (numbers_at self.old.rest.now) }
        ensures shorter { OnOk result (length self.new.rest.now < length self.old.rest.now) }
    {
        self.word(b"[")?;
        if self.is_at(b']') {
            self.word(b"]")?;
            return Ok(Vec::new(alloc));
        }
        let first = self.number()?;
        self.numbers_after(alloc, first)
    }

    /// The numbers of a list, of which the first was read.
    fn numbers_after(&mut self, alloc: Global, first: u64) -> Result<Vec<u64>, Stop>
        ensures gives { Gives (λ ns. ns.items) result self.new.rest.now
            (joined (first ∷ [])
            (more_elements number_at (length self.old.rest.now) self.old.rest.now)) }
        ensures shorter { OnOk result (length self.new.rest.now < length self.old.rest.now) }
    {
        let mut numbers = vec![in alloc; first]?;
        while self.goes_on()? {
            let number = self.number()?;
            numbers.push(number)?;
        }
        Ok(numbers)
    }

    /// A literal.
    #[tactic(auto, unfolding(crate::specs::Inside::Numbers::literal_at))]
    pub(crate) fn literal(&mut self) -> Result<Lit, Stop>
        ensures gives { Gives (λ l. l) result self.new.rest.now (literal_at self.old.rest.now) }
        ensures shorter { OnOk result (length self.new.rest.now < length self.old.rest.now) }
    {
        match self.one_of(literal_words())? {
            LiteralForm::Integer => self.integer(),
            LiteralForm::Char => self.character(),
        }
    }

    /// An integer; one that is negative stands in parentheses.
    #[tactic(auto, unfolding(crate::specs::Inside::Numbers::integer_at))]
    fn integer(&mut self) -> Result<Lit, Stop>
        ensures gives { Gives (λ l. l) result self.new.rest.now (integer_at self.old.rest.now) }
        ensures shorter { OnOk result (length self.new.rest.now < length self.old.rest.now) }
    {
        if self.is_at(b'(') {
            self.word(b"(-")?;
            return self.negative();
        }
        let integer = self.decimal(MOST_INTEGER)?;
        Ok(Lit::Int(integer as i128))
    }

    /// A negative integer, after its sign and up to the closing parenthesis.
    #[tactic(auto, unfolding(crate::specs::Inside::Numbers::negative_at))]
    fn negative(&mut self) -> Result<Lit, Stop>
        ensures gives { Gives (λ l. l) result self.new.rest.now (negative_at self.old.rest.now) }
        ensures shorter { OnOk result (length self.new.rest.now < length self.old.rest.now) }
    {
        let size = self.positive(MOST_INTEGER + 1)?;
        self.word(b")")?;
        Ok(Lit::Int(-1 - (size - 1) as i128))
    }

    /// A character, by its number.
    #[tactic(auto, unfolding(crate::specs::Inside::Numbers::character_at))]
    fn character(&mut self) -> Result<Lit, Stop>
        ensures gives { Gives (λ l. l) result self.new.rest.now (character_at self.old.rest.now) }
        ensures shorter { OnOk result (length self.new.rest.now < length self.old.rest.now) }
    {
        let number = self.decimal(MOST_SCALAR)?;
        match char::from_u32(number as u32) {
            Some(character) => Ok(Lit::Char(character)),
            None => Err(Stop::At(self.rest.len())),
        }
    }
}
