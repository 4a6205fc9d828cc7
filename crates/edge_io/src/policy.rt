//! The policies by which hosts put overlapping fragments and segments together.
ghost use Rattle.std.specs.Prelude.{◌≡◌};
ghost use Rattle.edge_io.specs.declared.policy.FragPolicy.{FragPolicy};
ghost use Rattle.edge_io.specs.declared.policy.StreamPolicy.{StreamPolicy};
ghost use Rattle.edge_io.specs.Policies.{frag_name, frag_preference, stream_name, stream_preference, is_named, frag_policy, stream_policy};

/// Which of two overlapping pieces a receiving host keeps: a row of the overlap table.
#[derive(Clone, Copy, Debug, PartialEq, Eq)]
pub enum Preference {
    First,
    Last,
    Bsd,
    BsdRight,
    Linux,
    Windows,
    Solaris,
}

/// How a host puts overlapping fragments together, by the names of Snort's frag3 (Novak 2005).
#[derive(Clone, Copy, Debug, PartialEq, Eq)]
pub enum FragPolicy {
    First,
    Last,
    Bsd,
    BsdRight,
    Linux,
    Windows,
    Solaris,
}

/// How a host puts overlapping segments together, by the names of Snort's stream5 (Novak and
/// Sturges 2007).
#[derive(Clone, Copy, Debug, PartialEq, Eq)]
pub enum StreamPolicy {
    First,
    Last,
    Bsd,
    Linux,
    OldLinux,
    Windows,
    Win2003,
    Vista,
    Solaris,
    Hpux,
    Hpux10,
    Irix,
    Macos,
}

/// The text is this name, in either ASCII case.
fn is_named(text: &[u8], name: &[u8]) -> bool
    ensures { result ≡ is_named text.now name.now }
{
    text.eq_ignore_ascii_case(name)
}

impl FragPolicy {
    const ALL: [FragPolicy; 7] = [
        FragPolicy::First,
        FragPolicy::Last,
        FragPolicy::Bsd,
        FragPolicy::BsdRight,
        FragPolicy::Linux,
        FragPolicy::Windows,
        FragPolicy::Solaris,
    ];

    /// The policy of this name, in either ASCII case. Takes no memory.
    #[tactic(auto, unfolding(crate::specs::Policies::frag_policy))]
    pub fn read(name: &[u8]) -> Option<FragPolicy>
        ensures { result ≡ frag_policy name.now }
    {
        FragPolicy::ALL
            .iter()
            .copied()
            .find(|policy| is_named(name, policy.name()))
    }

    /// The policy's name in lower case.
    fn name(self) -> &'static [u8]
        ensures { result.now ≡ frag_name self }
    {
        match self {
            FragPolicy::First => b"first",
            FragPolicy::Last => b"last",
            FragPolicy::Bsd => b"bsd",
            FragPolicy::BsdRight => b"bsd-right",
            FragPolicy::Linux => b"linux",
            FragPolicy::Windows => b"windows",
            FragPolicy::Solaris => b"solaris",
        }
    }

    /// The row of the overlap table: the one of the policy's name.
    pub fn preference(self) -> Preference
        ensures { result ≡ frag_preference self }
    {
        match self {
            FragPolicy::First => Preference::First,
            FragPolicy::Last => Preference::Last,
            FragPolicy::Bsd => Preference::Bsd,
            FragPolicy::BsdRight => Preference::BsdRight,
            FragPolicy::Linux => Preference::Linux,
            FragPolicy::Windows => Preference::Windows,
            FragPolicy::Solaris => Preference::Solaris,
        }
    }
}

impl StreamPolicy {
    const ALL: [StreamPolicy; 13] = [
        StreamPolicy::First,
        StreamPolicy::Last,
        StreamPolicy::Bsd,
        StreamPolicy::Linux,
        StreamPolicy::OldLinux,
        StreamPolicy::Windows,
        StreamPolicy::Win2003,
        StreamPolicy::Vista,
        StreamPolicy::Solaris,
        StreamPolicy::Hpux,
        StreamPolicy::Hpux10,
        StreamPolicy::Irix,
        StreamPolicy::Macos,
    ];

    /// The policy of this name, in either ASCII case. Takes no memory.
    #[tactic(auto, unfolding(crate::specs::Policies::stream_policy))]
    pub fn read(name: &[u8]) -> Option<StreamPolicy>
        ensures { result ≡ stream_policy name.now }
    {
        StreamPolicy::ALL
            .iter()
            .copied()
            .find(|policy| is_named(name, policy.name()))
    }

    /// The policy's name in lower case.
    fn name(self) -> &'static [u8]
        ensures { result.now ≡ stream_name self }
    {
        match self {
            StreamPolicy::First => b"first",
            StreamPolicy::Last => b"last",
            StreamPolicy::Bsd => b"bsd",
            StreamPolicy::Linux => b"linux",
            StreamPolicy::OldLinux => b"old-linux",
            StreamPolicy::Windows => b"windows",
            StreamPolicy::Win2003 => b"win2003",
            StreamPolicy::Vista => b"vista",
            StreamPolicy::Solaris => b"solaris",
            StreamPolicy::Hpux => b"hpux",
            StreamPolicy::Hpux10 => b"hpux10",
            StreamPolicy::Irix => b"irix",
            StreamPolicy::Macos => b"macos",
        }
    }

    /// The row of the overlap table.
    pub fn preference(self) -> Preference
        ensures { result ≡ stream_preference self }
    {
        match self {
            StreamPolicy::First | StreamPolicy::Vista => Preference::First,
            StreamPolicy::Last => Preference::Last,
            StreamPolicy::Bsd
            | StreamPolicy::OldLinux
            | StreamPolicy::Hpux
            | StreamPolicy::Irix
            | StreamPolicy::Macos => Preference::Bsd,
            StreamPolicy::Linux => Preference::Linux,
            StreamPolicy::Windows | StreamPolicy::Win2003 => Preference::Windows,
            StreamPolicy::Solaris => Preference::Solaris,
            StreamPolicy::Hpux10 => Preference::BsdRight,
        }
    }
}
