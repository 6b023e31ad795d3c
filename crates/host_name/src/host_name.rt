//! The form of a name.

ghost use Rattle.std.specs.Prelude.{◌≡◌, ◌==◌};
ghost use Rattle.std.specs.List.{list_all, slice_split};
ghost use Rattle.host_name.specs.HostName.{dot, is_host_name as is_host_name_of, is_label as is_label_of, is_label_byte as is_label_byte_of, without_last_dot as without_last_dot_of};

/// The most bytes of a name.
const LONGEST: usize = 253;

/// The most bytes of a label.
const LONGEST_LABEL: usize = 63;

/// Whether a label may have this byte.
fn is_label_byte(byte: u8) -> bool
    ensures { result ≡ is_label_byte_of byte }
{
    byte.is_ascii_alphanumeric() || byte == b'-' || byte == b'_'
}

/// Whether a label may have each of these bytes.
fn are_label_bytes(bytes: &[u8]) -> bool
    ensures { result ≡ list_all is_label_byte_of bytes.now }
{
    bytes.iter().all(|byte| is_label_byte(*byte))
}

/// Whether these bytes are a label.
fn is_label(label: &[u8]) -> bool
    ensures { result ≡ is_label_of label.now }
{
    1 <= label.len() && label.len() <= LONGEST_LABEL && are_label_bytes(label)
}

/// Whether each part between dots is a label.
fn are_labels(text: &[u8]) -> bool
    ensures { result ≡ list_all is_label_of (slice_split (λ b. b == dot) text.now) }
{
    text.split(|byte| *byte == b'.')
        .all(|label| is_label(label))
}

/// Whether the text is the name of a host: at most 253 bytes, labels with a dot between each two, each of 1 to 63
/// letters, digits, `-` and `_`. A text that ends with a dot is none, see [`without_last_dot`].
///
/// Source: RFC 1123, section 2.1, and for the lengths RFC 1035, section 2.3.4; that `_` may stand anywhere and `-` at
/// the ends of labels is this project's.
#[tactic(auto, unfolding(crate::specs::HostName::is_host_name))]
pub fn is_host_name(text: &[u8]) -> bool
    ensures { result ≡ is_host_name_of text.now }
{
    text.len() <= LONGEST && are_labels(text)
}

/// The text, or what stands before the dot where that is its last byte (RFC 1034, section 3.1: the dot that ends a whole
/// name).
pub fn without_last_dot(text: &[u8]) -> &[u8]
    ensures { result.now ≡ without_last_dot_of text.now }
{
    match text.strip_suffix(b".") {
        Some(name) => name,
        None => text,
    }
}
