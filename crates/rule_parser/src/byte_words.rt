//! The words after the parts of byte_test, byte_jump and byte_extract that have their places.
ghost use Rattle.std.specs.Prelude.{◌≡◌};
ghost use Rattle.rule_parser.specs.ByteOptions.{no_words, once_only, with_times, with_post, with_multiple, shared_word, jump_word, extract_word, word_of, base_of, lacks_string, fetch_of, jump_of, extract_of};

use crate::fault::Fault;
use crate::word::is;
use crate::{Base, Fetch, Num, Opt};
use net_lists::{PartStep, first_word, number_in, signed_in};

/// Which option has the words.
#[derive(Clone, Copy)]
pub(crate) enum Which {
    Test,
    Jump,
    Extract,
}

/// The words that were given.
#[derive(Clone, Copy)]
pub(crate) struct ByteWords {
    pub relative: bool,
    pub big: bool,
    pub little: bool,
    pub string: bool,
    /// `dec`, `hex` or `oct`.
    pub base: Option<Base>,
    /// What `multiplier` tells.
    pub times: Option<u32>,
    /// What `align` tells, 4 where it tells nothing.
    pub align: Option<u8>,
    pub beginning: bool,
    /// What `post_offset` tells.
    pub post: Option<i32>,
}

impl ByteWords {
    pub(crate) fn none() -> ByteWords
        ensures { result ≡ no_words }
    {
        ByteWords {
            relative: false,
            big: false,
            little: false,
            string: false,
            base: None,
            times: None,
            align: None,
            beginning: false,
            post: None,
        }
    }

    /// These words, where the last one was not given before.
    fn unless(self, is_given: bool) -> Result<ByteWords, Fault>
        ensures { result ≡ once_only is_given self }
    {
        if is_given {
            Err(Fault::OptionValue)
        } else {
            Ok(self)
        }
    }

    #[tactic(auto, unfolding(crate::specs::ByteOptions::with_times))]
    fn with_times(self, number: &[u8]) -> Result<ByteWords, Fault>
        ensures { result ≡ with_times self number.now }
    {
        let Some(times) = number_in(0, 65535, number) else {
            return Err(Fault::OptionValue);
        };
        ByteWords {
            times: Some(times),
            ..self
        }
        .unless(self.times.is_some())
    }

    #[tactic(auto, unfolding(crate::specs::ByteOptions::with_post))]
    fn with_post(self, number: &[u8]) -> Result<ByteWords, Fault>
        ensures { result ≡ with_post self number.now }
    {
        let Some(post) = signed_in(-65535, 65535, number) else {
            return Err(Fault::OptionValue);
        };
        ByteWords {
            post: Some(post),
            ..self
        }
        .unless(self.post.is_some())
    }

    #[tactic(auto, unfolding(crate::specs::ByteOptions::with_multiple))]
    fn with_multiple(self, number: &[u8]) -> Result<ByteWords, Fault>
        ensures { result ≡ with_multiple self number.now }
    {
        if is(number, b"2") {
            ByteWords {
                align: Some(2),
                ..self
            }
            .unless(self.align.is_some())
        } else if is(number, b"4") {
            ByteWords {
                align: Some(4),
                ..self
            }
            .unless(self.align.is_some())
        } else {
            Err(Fault::OptionValue)
        }
    }

    /// The words with one that each of the three options has.
    #[tactic(auto, unfolding(crate::specs::ByteOptions::shared_word))]
    fn shared(self, part: &[u8]) -> Result<ByteWords, Fault>
        ensures { result ≡ shared_word self part.now }
    {
        if is(part, b"relative") {
            ByteWords {
                relative: true,
                ..self
            }
            .unless(self.relative)
        } else if is(part, b"big") {
            ByteWords { big: true, ..self }.unless(self.big)
        } else if is(part, b"little") {
            ByteWords {
                little: true,
                ..self
            }
            .unless(self.little)
        } else if is(part, b"string") {
            ByteWords {
                string: true,
                ..self
            }
            .unless(self.string)
        } else if is(part, b"dec") {
            ByteWords {
                base: Some(Base::Dec),
                ..self
            }
            .unless(self.base.is_some())
        } else if is(part, b"hex") {
            ByteWords {
                base: Some(Base::Hex),
                ..self
            }
            .unless(self.base.is_some())
        } else if is(part, b"oct") {
            ByteWords {
                base: Some(Base::Oct),
                ..self
            }
            .unless(self.base.is_some())
        } else if is(part, b"dce") {
            Err(Fault::OutsideProfile)
        } else {
            Err(Fault::OptionValue)
        }
    }

    /// The words with one of byte_jump.
    #[tactic(auto, unfolding(crate::specs::ByteOptions::jump_word))]
    fn jump(self, part: &[u8]) -> Result<ByteWords, Fault>
        ensures { result ≡ jump_word self part.now }
    {
        let (word, number) = first_word(part);
        if is(word, b"multiplier") {
            self.with_times(number)
        } else if is(word, b"post_offset") {
            self.with_post(number)
        } else if is(part, b"align") {
            ByteWords {
                align: Some(4),
                ..self
            }
            .unless(self.align.is_some())
        } else if is(part, b"from_beginning") {
            ByteWords {
                beginning: true,
                ..self
            }
            .unless(self.beginning)
        } else {
            self.shared(part)
        }
    }

    /// The words with one of byte_extract.
    #[tactic(auto, unfolding(crate::specs::ByteOptions::extract_word))]
    fn extract(self, part: &[u8]) -> Result<ByteWords, Fault>
        ensures { result ≡ extract_word self part.now }
    {
        let (word, number) = first_word(part);
        if is(word, b"multiplier") {
            self.with_times(number)
        } else if is(word, b"align") {
            self.with_multiple(number)
        } else {
            self.shared(part)
        }
    }

    /// How the bytes are read.
    fn base(self) -> Base
        ensures { result ≡ base_of self }
    {
        if self.string {
            self.base.unwrap_or(Base::Dec)
        } else {
            Base::Binary {
                little: self.little,
            }
        }
    }

    /// Whether `string` is wanted and lacks.
    fn lacks_string(self, bytes: u8) -> bool
        ensures { result ≡ lacks_string bytes self }
    {
        !self.string && (self.base.is_some() || bytes > 4)
    }

    /// Which bytes are read.
    #[tactic(auto, unfolding(crate::specs::ByteOptions::fetch_of))]
    pub(crate) fn fetch(self, bytes: u8, offset: Num) -> Result<Fetch, Fault>
        ensures { result ≡ fetch_of bytes offset self }
    {
        if self.lacks_string(bytes) {
            return Err(Fault::OptionValue);
        }
        Ok(Fetch {
            bytes,
            offset,
            relative: self.relative,
            base: self.base(),
        })
    }
}

impl ByteWords {
    /// A byte_jump with these words.
    pub(crate) fn jump_option(self, fetch: Fetch) -> Opt
        ensures { result ≡ jump_of fetch self }
    {
        Opt::ByteJump {
            fetch,
            times: self.times.unwrap_or(1),
            align: self.align.is_some(),
            beginning: self.beginning,
            post: self.post.unwrap_or(0),
        }
    }

    /// A byte_extract with these words, under the name of this place.
    pub(crate) fn extract_option(self, fetch: Fetch, name: u8) -> Opt
        ensures { result ≡ extract_of fetch name self }
    {
        Opt::ByteExtract {
            fetch,
            name,
            times: self.times.unwrap_or(1),
            align: self.align.unwrap_or(0),
        }
    }
}

impl PartStep<ByteWords, Fault> for Which {
    ghost next_draft = { λ which words part. word_of which words part };

    fn next(&self, words: ByteWords, part: &[u8]) -> Result<ByteWords, Fault> {
        match *self {
            Which::Test => words.shared(part),
            Which::Jump => words.jump(part),
            Which::Extract => words.extract(part),
        }
    }
}
