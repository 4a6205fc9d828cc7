//! What a run is to do, once its words and files are read.
ghost use Rattle.std.specs.Prelude.{◌≡◌};
ghost use Rattle.record_jobs.specs.Way as ways;
ghost use Rattle.snort_engine.specs.Trace.{jobs_way_by};
ghost use Rattle.snort_engine.specs.Steps.Sources.{source_name};

use command_words::AlertForm;
use packet_decode::Checks;
use record_jobs::FrontConfig;
use snort_setup::Setup;

/// Where a capture comes from.
#[derive(Clone, Copy, Debug)]
pub(crate) enum CaptureSource<'a> {
    /// The file of this name.
    File(&'a str),
    /// A capture that is made of a seed, with this many packets.
    Made { seed: u32, count: u32 },
}

impl<'a> CaptureSource<'a> {
    /// The name of its file; empty where it has none.
    pub fn name(self) -> &'a str
        ensures { result.now ≡ source_name self.entry }
    {
        match self {
            CaptureSource::File(name) => name,
            CaptureSource::Made { .. } => "",
        }
    }
}

/// What is done with a capture: a detector that is ready for it.
#[derive(Drop)]
pub(crate) struct Plan<'a, P> {
    /// Where the capture comes from.
    pub source: CaptureSource<'a>,
    /// How many records are read at most, where there is a limit.
    pub limit: Option<u32>,
    /// The checksums that are verified.
    pub checks: Checks,
    /// The configuration, the rules with their patterns in the order in which they were read, and what is known
    /// of hosts.
    pub setup: Setup<P>,
    /// How many lanes do the work, 1 to 64.
    pub lanes: u32,
    /// How many bytes of a stream are acknowledged at least before they are an item, 1 to 65536.
    pub flush: u32,
    /// The form in which alerts are written.
    pub form: AlertForm,
    /// The counts of the run are told.
    pub counted: bool,
}

/// What records are made into jobs by.
pub(crate) fn front_config<'a, P>(plan: &'a Plan<'_, P>) -> FrontConfig<'a>
    ensures way { ways.way_of result ≡ jobs_way_by plan.entry.now.checks plan.entry.now.setup.hosts plan.entry.now.setup.config }
    ensures config { result.config.now ≡ plan.entry.now.setup.config }
{
    FrontConfig {
        checks: plan.checks,
        hosts: &plan.setup.hosts,
        config: &plan.setup.config,
    }
}
