//! How fine the clock of an interface is, and the moment that its ticks say.
ghost use Rattle.std.specs.Prelude.{◌≡◌, ◌*◌, ◌/◌, ◌<◌, ◌^◌, SomeIff};
ghost use Rattle.pcapng_input.specs.Moments.{ticks_a_second, moment_of, resolution_of_byte, resolution_in};

use edge_io::Moment;

/// How long a tick of an interface is, in parts of a second.
#[derive(Clone, Copy, Debug, PartialEq, Eq)]
pub enum Resolution {
    /// Ten to the minus so much.
    TenToMinus(u8),
    /// Two to the minus so much.
    TwoToMinus(u8),
}

/// The resolution of an interface that tells none: microseconds.
pub const MICROSECONDS: Resolution = Resolution::TenToMinus(6);

/// The nanoseconds of a second.
const SECOND: u128 = 1_000_000_000;

/// The finest power of ten, and of two, that is read.
const MOST_DIGITS: u8 = 19;

const MOST_BITS: u8 = 63;

/// The bit of an option's byte that says a power of two.
const TOP_BIT: u8 = 128;

impl Resolution {
    /// How many ticks are a second, where that is below 2 ^ 128.
    fn ticks_a_second(self) -> Option<u128>
        ensures { SomeIff result (ticks_a_second self < 2 ^ 128) (ticks_a_second self) }
    {
        match self {
            Resolution::TenToMinus(digits) => 10_u128.checked_pow(u32::from(digits)),
            Resolution::TwoToMinus(bits) => 2_u128.checked_pow(u32::from(bits)),
        }
    }

    /// The nanoseconds of `ticks` ticks, rounded down.
    #[tactic(auto, using(crate::proofs::Ticks::ticks))]
    fn nanoseconds(self, ticks: u64) -> u128
        ensures { result ≡ ticks * 1000000000 / ticks_a_second self }
    {
        match self.ticks_a_second() {
            Some(parts) => u128::from(ticks) * SECOND / parts,
            // So short a tick that 2 ^ 64 of them are no nanosecond.
            None => 0,
        }
    }

    /// The moment of `ticks` ticks, rounded down, where its nanoseconds fit 64 bits.
    #[tactic(auto, unfolding(crate::specs::Moments::moment_of))]
    pub fn moment(self, ticks: u64) -> Option<Moment>
        ensures { result ≡ moment_of self ticks }
    {
        let nanos = self.nanoseconds(ticks);
        if nanos > u128::from(u64::MAX) {
            return None;
        }
        Some(Moment {
            nanos: nanos as u64,
        })
    }

    /// What the value of a resolution option tells: one byte, whose top bit says that the rest is a
    /// power of two. None where it is no such byte, or finer than 10 ^ -19 or 2 ^ -63.
    #[tactic(auto, unfolding(crate::specs::Moments::resolution_in))]
    pub fn of_option(value: &[u8]) -> Option<Resolution>
        ensures { result ≡ resolution_in value.now }
    {
        if value.len() != 1 {
            return None;
        }
        Resolution::of_byte(value[0])
    }

    /// What the byte of a resolution option tells.
    #[tactic(auto, unfolding(crate::specs::Moments::resolution_of_byte))]
    fn of_byte(byte: u8) -> Option<Resolution>
        ensures { result ≡ resolution_of_byte byte }
    {
        if byte <= MOST_DIGITS {
            Some(Resolution::TenToMinus(byte))
        } else if byte < TOP_BIT {
            None
        } else if byte <= TOP_BIT + MOST_BITS {
            Some(Resolution::TwoToMinus(byte - TOP_BIT))
        } else {
            None
        }
    }
}
