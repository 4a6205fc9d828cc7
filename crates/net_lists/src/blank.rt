//! Blanks: spaces and tabs.
ghost use Rattle.std.specs.Prelude.{◌≡◌, ◌+◌, ◌≤◌, length};
ghost use Rattle.std.specs.List.{prefix_len, suffix_len};
ghost use Rattle.edge_io.specs.Bytes.{is_blank, without_front_blanks, trimmed};

/// Space or tab.
pub fn is_blank(byte: u8) -> bool
    ensures { result ≡ is_blank byte }
{
    byte == b' ' || byte == b'\t'
}

/// How many blanks are in front.
#[tactic(auto, using(crate::proofs::Fronts::fronts))]
fn blanks_len(text: &[u8]) -> usize
    ensures len { result ≡ prefix_len is_blank text.now }
    ensures within { result ≤ length text.now }
{
    text.iter()
        .position(|byte| !is_blank(*byte))
        .unwrap_or(text.len())
}

/// The text from its first byte on that is no blank.
pub fn without_front_blanks(text: &[u8]) -> &[u8]
    ensures { result.now ≡ without_front_blanks text.now }
{
    &text[blanks_len(text)..]
}

/// How many bytes there are before the blanks at the end.
fn closed_len(text: &[u8]) -> usize
    ensures len { result + suffix_len is_blank text.now ≡ length text.now }
    ensures within { result ≤ length text.now }
{
    let mut len = text.len();
    while len > 0 {
        if !is_blank(text[len - 1]) {
            return len;
        }
        len -= 1;
    }
    0
}

/// The text without the blanks at its front and end.
#[tactic(auto, unfolding(edge_io::specs::Bytes::trimmed))]
pub fn trimmed(text: &[u8]) -> &[u8]
    ensures { result.now ≡ trimmed text.now }
{
    let rest = without_front_blanks(text);
    &rest[..closed_len(rest)]
}
