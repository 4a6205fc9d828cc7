//! The numbers that a made capture is drawn from.
ghost use Rattle.std.specs.Prelude.{◌≡◌, ◌<◌, ◌≤◌, length, string_bytes, IfOk};
ghost use Rattle.pcap_input.specs.Generated.{step, steps, draw, letters, marked, payload_drawn, text_drawn};

use std::alloc::{AllocError, Global};

/// How many letters the payload of a segment has.
const LETTERS: u32 = 64;

/// What a payload that is marked begins with.
const MARK: &[u8; 6] = b"attack";

/// A generator of numbers: a linear congruential one modulo 2 ^ 31.
#[derive(Clone, Copy, Debug, PartialEq, Eq)]
pub(crate) struct Draws {
    pub state: u32,
}

impl Draws {
    /// A number below `limit`.
    #[tactic(auto, unfolding(crate::specs::Generated::draw))]
    pub fn below(&mut self, limit: u32) -> u32
        requires { 0 < limit }
        ensures drawn { result ≡ draw limit self.old.state }
        ensures below { result < limit }
        ensures stepped { self.new.state ≡ step self.old.state }
    {
        let next = (u64::from(self.state) * 1_103_515_245 + 12_345) % 2_147_483_648;
        self.state = next as u32;
        self.state / 65536 % limit
    }

    /// Letters for the payload of a segment.
    fn letters(&mut self, alloc: Global) -> Result<Vec<u8>, AllocError>
        ensures drawn { IfOk result (λ text. text.items ≡ letters LETTERS self.old.state) }
        ensures stepped { IfOk result (λ text. self.new.state ≡ steps LETTERS self.old.state) }
        ensures size { IfOk result (λ text. length text.items ≡ LETTERS) }
    {
        let mut text = Vec::with_capacity(alloc, LETTERS as usize)?;
        for _number in 0..LETTERS {
            let letter = self.below(26);
            text.push(b'a' + letter as u8)?;
        }
        Ok(text)
    }

    /// The payload of a segment, one in fifty of them marked.
    #[tactic(auto, unfolding(crate::specs::Generated::payload_drawn))]
    pub fn payload(&mut self, alloc: Global) -> Result<Vec<u8>, AllocError>
        ensures drawn { IfOk result (λ payload. payload.items ≡ payload_drawn self.old.state) }
        ensures stepped { IfOk result (λ payload. self.new.state ≡ steps 65 self.old.state) }
        ensures size { IfOk result (λ payload. length payload.items ≡ LETTERS) }
    {
        let mark = self.below(50) == 0;
        let text = self.letters(alloc)?;
        let payload = marked(alloc, mark, &text)?;
        Ok(payload)
    }

    /// The text of a datagram.
    #[tactic(auto, unfolding(crate::specs::Generated::text_drawn))]
    pub fn text(&mut self, alloc: Global) -> Result<String, AllocError>
        ensures drawn { IfOk result (λ text. string_bytes text ≡ text_drawn self.old.state) }
        ensures stepped { IfOk result (λ text. self.new.state ≡ step self.old.state) }
        ensures short { IfOk result (λ text. length (string_bytes text) ≤ 100) }
    {
        let number = self.below(1000);
        let text = format!(in alloc; "gen-{number}")?;
        Ok(text)
    }
}

/// A text, or where it is marked the same with the mark in place of its first bytes.
#[tactic(auto, unfolding(crate::specs::Generated::marked))]
fn marked(alloc: Global, mark: bool, text: &[u8]) -> Result<Vec<u8>, AllocError>
    requires { 6 ≤ length text.now }
    ensures marked { IfOk result (λ payload. payload.items ≡ marked mark text.now) }
    ensures size { IfOk result (λ payload. length payload.items ≡ length text.now) }
{
    if !mark {
        return Vec::from_slice(alloc, text);
    }
    let mut payload = Vec::from_slice(alloc, MARK)?;
    payload.extend_from_slice(&text[MARK.len()..])?;
    Ok(payload)
}
