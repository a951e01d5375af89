//! The names of modules.
ghost use Rattle.std.specs.Prelude.{◌≡◌};
ghost use Rattle.cu_words.specs.Names.{is_module_name, is_name, is_name_byte};

/// Whether a text is one or more names, joined by dots.
pub fn is_module_name(text: &str) -> bool
    ensures { result ≡ is_module_name text.now }
{
    text.as_bytes().split(|byte| *byte == b'.').all(is_name)
}

fn is_name(name: &[u8]) -> bool
    ensures { result ≡ is_name name.now }
{
    match name {
        [] => false,
        [first, others @ ..] => {
            first.is_ascii_alphabetic() && others.iter().all(|byte| is_name_byte(*byte))
        }
    }
}

fn is_name_byte(byte: u8) -> bool
    ensures { result ≡ is_name_byte byte }
{
    byte.is_ascii_alphanumeric() || byte == b'_' || byte == b'\''
}
