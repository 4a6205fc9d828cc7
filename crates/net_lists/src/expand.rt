//! Putting the values of variables in place of their forms.
ghost use Rattle.std.specs.Prelude.{◌≡◌, ◌++◌, ◌≤◌, ◌<◌, drop, length, vec_len, OnOk, OnErr, IfOk};
ghost use Rattle.net_lists.specs.Expansion.{expansion, Expands, GivesPiece};

use crate::fault::ExpandFault;
use crate::form::{Otherwise, form_at};
use crate::vars::Vars;
use edge_io::Span;

/// Bytes that an expansion may have.
const MOST_BYTES: usize = 65536;

impl Vars {
    /// Appends the text with each variable's value in its form's place.
    ///
    /// The forms are `$N`, `$(N)`, `$(N:-default)` and `$(N:?text)`; any other `$` is copied.
    pub fn expand(&self, text: &[u8], out: &mut Vec<u8>) -> Result<(), ExpandFault>
        ensures appended { OnOk result (out.new.items ≡ out.old.items ++ drop (vec_len out.old) out.new.items) }
        ensures expanded { Expands result (drop (vec_len out.old) out.new.items) (expansion self.now text.now) }
        ensures refused { OnErr result (out.new.items ≡ out.old.items) }
    {
        let start = out.len();
        match self.append(text, out) {
            Ok(()) => Ok(()),
            Err(fault) => {
                out.truncate(start);
                Err(fault)
            }
        }
    }

    /// Appends the expansion of a text as `expand` does, but for what is left of `out` after a refusal: it begins
    /// with what it held.
    fn append(&self, text: &[u8], out: &mut Vec<u8>) -> Result<(), ExpandFault>
        ensures kept { out.new.items ≡ out.old.items ++ drop (vec_len out.old) out.new.items }
        ensures expanded { Expands result (drop (vec_len out.old) out.new.items) (expansion self.now text.now) }
    {
        let mut place = 0;
        let mut room = MOST_BYTES;
        while place < text.len() {
            match self.piece_at(text, place) {
                Ok((bytes, next)) => {
                    if bytes.len() > room {
                        return Err(ExpandFault::TooLong);
                    }
                    out.extend_from_slice(bytes)?;
                    room -= bytes.len();
                    place = next;
                }
                Err(span) => {
                    return Err(ExpandFault::Unknown {
                        from: span.start,
                        to: span.end,
                    });
                }
            }
        }
        Ok(())
    }

    /// The bytes that come next, and the place after what they stand for; or what an undefined
    /// variable shows.
    fn piece_at<'a>(&'a self, text: &'a [u8], place: usize) -> Result<(&'a [u8], usize), Span>
        requires { place < length text.now }
        ensures piece { GivesPiece self.now text.now place result }
    {
        if text[place] == b'$' {
            if let Some(form) = form_at(text, place + 1) {
                let name = &text[form.name.start..form.name.end];
                return match (self.value(name), form.otherwise) {
                    (Some(value), _) => Ok((value, form.end)),
                    (None, Otherwise::Default(span)) => Ok((&text[span.start..span.end], form.end)),
                    (None, Otherwise::Refused(span)) => Err(span),
                };
            }
        }
        Ok((&text[place..place + 1], place + 1))
    }
}
