//! A script on standard input.
ghost use Rattle.std.specs.Prelude.{◌≡◌, None, IfOk};
ghost use Rattle.jsp_model.specs.Lookup.{empty};

use crate::Streams;
use crate::arguments::{AUDIT, SCAN};
use clap::ArgMatches;
use jsp_house::{Hall, RowsHouse, Seeds};
use jsp_model::{Config, House};
use jsp_script::script;
use jsp_types::NoMemory;
use std::alloc::Global;
use std::process::ExitCode;
use std::random::RandomSource;

/// How a script is run. Nothing here changes what is printed.
#[derive(Drop)]
pub(crate) struct Script {
    config: Config,
    /// Whether each row is looked at in every search, instead of those that hints name.
    scans: bool,
    /// Whether the run is replayed before it is printed.
    audits: bool,
    seeds: Seeds,
}

impl Script {
    /// What the arguments ask for.
    pub(crate) fn new<R: RandomSource>(rt: &R, config: Config, given: &ArgMatches<'_>) -> Script {
        Script {
            config,
            scans: given.get_flag(SCAN),
            audits: given.get_flag(AUDIT),
            // Whoever has no random number runs a script of somebody's all the same.
            seeds: Seeds::random(rt).unwrap_or(Seeds::known()),
        }
    }

    pub(crate) fn run(&self, alloc: Global, streams: Streams) -> ExitCode {
        let config = &self.config;
        if self.scans {
            let house = RowsHouse::new(alloc, config);
            return self.run_over(alloc, house, streams);
        }
        let house = Hall::new(alloc, config, self.seeds.house);
        self.run_over(alloc, house, streams)
    }

    fn run_over<H: House>(
        &self,
        alloc: Global,
        house: Result<H, NoMemory>,
        streams: Streams,
    ) -> ExitCode
        requires empty { IfOk house (λ h. H.view h ≡ empty self.now.config) }
        requires unbound { IfOk house (λ h. H.bound_of h ≡ None) }
    {
        let Streams {
            mut input,
            mut out,
            mut faults,
        } = streams;
        let config = &self.config;
        let replay = if self.audits {
            Some(self.seeds.replay)
        } else {
            None
        };
        let ending = script(
            alloc,
            house,
            config,
            replay,
            &mut input,
            &mut out,
            &mut faults,
        );
        ExitCode::from(ending.status)
    }
}
