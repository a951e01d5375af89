//! Laws of the layout rules. These functions do nothing: their contracts are
//! the laws.
ghost use Rattle.cu_layout.specs.Laws.{RestoresText, KeepsNames, KeepsNaturals, KeepsOwners, KeepsTokens, ReadsAlike};

/// The tokens laid out differ from those of the text in what the layout rules
/// put in, and in nothing else.
pub fn text_is_kept()
    ensures kept { KeepsTokens }
    ensures restored { RestoresText }
    ensures names { KeepsNames }
    ensures naturals { KeepsNaturals }
    ensures owners { KeepsOwners }
{}

/// Layout doesn't depend on what names stand for.
pub fn reading_is_alike()
    ensures { ReadsAlike }
{}
