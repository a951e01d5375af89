//! Laws on what is printed. These functions do nothing: their contracts are the
//! laws.
ghost use Rattle.cu_flatlaws.specs.Readable.{PrintedIsFaultless, PrintedIsOne, PrintedIsText, TextsAgree};

use cu_flatread::texts_are_of_one_module;

/// The text that `print` writes of a module of a lowered program is that of the
/// module that `printed` says: both definitions of the text agree.
pub fn printed_texts_agree()
    ensures { TextsAgree }
{}

/// What `print` wrote is read again, as the module that was printed and as no
/// other, where types and expressions are nested at most 16,384 deep. So `read`
/// gives this module, or runs out of memory, since it finds no fault. A slice
/// has to hold the text, declared names are UTF-8 without a quote, the types of
/// functions are numbered as inference numbers them, and precedences fit.
pub fn printed_texts_are_read()
    ensures text { PrintedIsText }
    ensures one { PrintedIsOne }
    ensures faultless { PrintedIsFaultless }
{
    texts_are_of_one_module();
}
