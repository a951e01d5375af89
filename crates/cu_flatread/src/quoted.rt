//! Quoted names in a text.
ghost use Rattle.std.specs.Prelude.{◌≡◌, ◌++◌, ◌<◌, IfOk, OnOk, length};
ghost use Rattle.cu_names.specs.Texts.{Extends, IsKnown, text_of};
ghost use Rattle.cu_flatread.specs.Meaning.{HasEntity, entity_of};
ghost use Rattle.cu_flatread.specs.Inside.Names.{added, after_byte, after_first, after_part, begun, begun_by, ends, entity_at, quoted_at, text_at};
ghost use Rattle.cu_flatread.specs.Inside.Words.{Gives};
ghost use Rattle.cu_flatread.specs.declared.quoted.Within.TheVariants as within;

use crate::cells::FlatEntity;
use crate::cursor::Cursor;
use crate::stop::Stop;
use cu_names::{NameId, Names};
use std::alloc::{AllocError, Global};

/// The bytes that follow the first one in a character: the first of them from
/// one number to another, and then so many from 128 to 191.
#[derive(Clone, Copy)]
pub(crate) struct Pending {
    pub(crate) low: u8,
    pub(crate) high: u8,
    pub(crate) more: u8,
}

/// Where a text in quotes is read.
#[derive(Clone, Copy)]
pub(crate) enum Within {
    /// Between characters.
    Between,
    /// After a backslash.
    Escaped,
    /// Inside a character.
    Inside(Pending),
}

/// What comes after the first byte of a character of more than one byte, or
/// None where no such character begins with it (The Unicode Standard, table
/// 3-7).
fn after_first(first: u8) -> Option<Pending>
    ensures { result ≡ after_first first }
{
    match first {
        0xC2..=0xDF => Some(Pending {
            low: 0x80,
            high: 0xBF,
            more: 0,
        }),
        0xE0 => Some(Pending {
            low: 0xA0,
            high: 0xBF,
            more: 1,
        }),
        0xED => Some(Pending {
            low: 0x80,
            high: 0x9F,
            more: 1,
        }),
        0xE1..=0xEF => Some(Pending {
            low: 0x80,
            high: 0xBF,
            more: 1,
        }),
        0xF0 => Some(Pending {
            low: 0x90,
            high: 0xBF,
            more: 2,
        }),
        0xF1..=0xF3 => Some(Pending {
            low: 0x80,
            high: 0xBF,
            more: 2,
        }),
        0xF4 => Some(Pending {
            low: 0x80,
            high: 0x8F,
            more: 2,
        }),
        _ => None,
    }
}

impl Pending {
    /// What is pending after a byte.
    fn after(self) -> Within
        ensures { result ≡ after_part self.more }
    {
        if self.more == 0 {
            return Within::Between;
        }
        Within::Inside(Pending {
            low: 0x80,
            high: 0xBF,
            more: self.more - 1,
        })
    }
}

impl Within {
    /// What begins with a byte between characters.
    fn begun(byte: u8) -> Option<Within>
        ensures { result ≡ begun byte }
    {
        if byte == b'\\' {
            return Some(Within::Escaped);
        }
        if byte < 0x80 {
            return Some(Within::Between);
        }
        match after_first(byte) {
            Some(pending) => Some(Within::Inside(pending)),
            None => None,
        }
    }

    /// Where the text is read after a byte, if that may come.
    fn after(self, byte: u8) -> Option<Within>
        ensures { result ≡ after_byte self byte }
    {
        match self {
            Within::Between => Within::begun(byte),
            Within::Escaped => {
                if byte == b'\\' {
                    return Some(Within::Between);
                }
                None
            }
            Within::Inside(pending) => {
                if pending.low <= byte && byte <= pending.high {
                    return Some(pending.after());
                }
                None
            }
        }
    }

    /// Whether the text ends with a byte.
    fn ends(self, byte: u8) -> bool
        ensures { result ≡ ends self byte }
    {
        match self {
            Within::Between => byte == b'"',
            _ => false,
        }
    }

    /// Adds what a byte stands for to a text: a backslash counts once.
    fn add(self, byte: u8, text: &mut Vec<u8>) -> Result<(), AllocError>
        ensures { OnOk result (text.new.items ≡ text.old.items ++ added self byte) }
    {
        match self {
            Within::Between => {
                if byte != b'\\' {
                    text.push(byte)?;
                }
                Ok(())
            }
            _ => {
                text.push(byte)?;
                Ok(())
            }
        }
    }
}

impl Cursor<'_> {
    /// The bytes of a text up to the closing quote.
    #[tactic(auto, unfolding(crate::specs::Inside::Names::text_at))]
    fn text(&mut self, alloc: Global) -> Result<Vec<u8>, Stop>
        ensures gives { Gives (λ text. text.items) result self.new.rest.now
            (text_at within.Between self.old.rest.now) }
        ensures shorter { OnOk result (length self.new.rest.now < length self.old.rest.now) }
    {
        let mut text = Vec::new(alloc);
        let mut place = Within::Between;
        while let [byte, others @ ..] = self.rest {
            let byte = *byte;
            if place.ends(byte) {
                self.rest = others;
                return Ok(text);
            }
            let Some(next) = place.after(byte) else {
                return Err(Stop::At(self.rest.len()));
            };
            place.add(byte, &mut text)?;
            self.rest = others;
            place = next;
        }
        Err(Stop::At(0))
    }

    /// A text in quotes. A backslash stands twice.
    #[tactic(auto, unfolding(crate::specs::Inside::Names::quoted_at))]
    pub(crate) fn quoted(&mut self, alloc: Global, names: &mut Names) -> Result<NameId, Stop>
        ensures gives { Gives (text_of names.new) result self.new.rest.now
            (quoted_at self.old.rest.now) }
        ensures known { IfOk result (IsKnown names.new) }
        ensures names { Extends names.old names.new }
        ensures shorter { OnOk result (length self.new.rest.now < length self.old.rest.now) }
    {
        self.word(b"\"")?;
        let text = self.text(alloc)?;
        match str::from_utf8(text.as_slice()) {
            Ok(name) => Ok(names.intern(name)?),
            Err(_) => Err(Stop::At(0)),
        }
    }

    /// An entity, as a pair of quoted names.
    #[tactic(auto, unfolding(crate::specs::Inside::Names::entity_at))]
    pub(crate) fn entity(&mut self, alloc: Global, names: &mut Names) -> Result<FlatEntity, Stop>
        ensures gives { Gives (entity_of names.new) result self.new.rest.now
            (entity_at self.old.rest.now) }
        ensures known { IfOk result (HasEntity names.new) }
        ensures names { Extends names.old names.new }
        ensures shorter { OnOk result (length self.new.rest.now < length self.old.rest.now) }
    {
        self.word(b"(")?;
        let owner = self.quoted(alloc, names)?;
        self.word(b",")?;
        let name = self.quoted(alloc, names)?;
        self.word(b")")?;
        Ok(FlatEntity { owner, name })
    }
}
