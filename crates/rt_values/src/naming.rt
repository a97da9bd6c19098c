//! What a name is.
ghost use Rattle.std.specs.Prelude.{◌≡◌};
ghost use Rattle.rt_values.specs.Naming.{is_name};

/// Whether a text is ASCII letters, digits, `-` and `_`, at least one of them.
pub fn is_name(text: &str) -> bool
    ensures name { result ≡ is_name text.now }
{
    let bytes = text.as_bytes();
    if bytes.is_empty() {
        return false;
    }
    for byte in bytes {
        if !(byte.is_ascii_alphanumeric() || *byte == b'-' || *byte == b'_') {
            return false;
        }
    }
    true
}
