//! What a server did in the last five minutes.
use jsp_line::Counts;
use jsp_model::Config;
use jsp_status::{Chart, Point, Rates, Scale};
use std::alloc::{AllocError, Global};

/// How many samples are kept. Each takes some 16 bytes a space.
const MOST: usize = 60;

/// How many milliseconds rates go back at least, where the server is as old. The sample before that
/// is the one that is nearest to ten seconds old.
const RECENT: u64 = 7500;

/// What was done and stood at a time, a sample every few seconds, the newest last.
#[derive(Drop)]
pub(crate) struct History {
    samples: Vec<Sample>,
}

#[derive(Drop)]
struct Sample {
    /// In milliseconds after the server began.
    time: u64,
    done: Done,
    /// Since the sample before.
    rates: Rates,
    /// Of each space, in their order.
    spaces: Vec<SpaceSample>,
}

/// What was done so far.
#[derive(Clone, Copy)]
struct Done {
    requests: u64,
    answers: u64,
    refusals: u64,
}

#[derive(Clone, Copy)]
struct SpaceSample {
    rows: u64,
    waiting: u64,
}

impl History {
    pub(crate) fn new(alloc: Global) -> History {
        History {
            samples: Vec::new(alloc),
        }
    }

    /// Adds a sample, in place of the oldest where there are as many as may be. An `Err` changes
    /// nothing.
    pub(crate) fn add(
        &mut self,
        alloc: Global,
        time: u64,
        counts: &Counts,
    ) -> Result<(), AllocError> {
        let done = Done::of(counts);
        let rates = match self.samples.last() {
            Some(last) => done.rates_since(last.done, time.saturating_sub(last.time)),
            None => done.rates_since(NOTHING, time),
        };
        let mut spaces = Vec::new(alloc);
        for space in counts.spaces.as_slice() {
            spaces.push(SpaceSample {
                rows: space.rows,
                waiting: space.waiting,
            })?;
        }
        self.samples.reserve(1)?;
        if self.samples.len() >= MOST {
            self.samples.remove(0);
        }
        self.samples.push(Sample {
            time,
            done,
            rates,
            spaces,
        })?;
        Ok(())
    }

    /// The rates of the last ten seconds, where so much was done at this time, or those since the
    /// server began.
    pub(crate) fn rates(&self, time: u64, counts: &Counts) -> Rates {
        let mut earlier = NOTHING;
        let mut then = 0;
        for sample in self.samples.as_slice() {
            if sample.time.saturating_add(RECENT) <= time {
                earlier = sample.done;
                then = sample.time;
            }
        }
        Done::of(counts).rates_since(earlier, time.saturating_sub(then))
    }

    /// The rates, and what stood in each space, to be drawn at this time.
    pub(crate) fn charts(
        &self,
        alloc: Global,
        config: &Config,
        time: u64,
    ) -> Result<Vec<Chart>, AllocError> {
        let mut charts = self.rate_charts(alloc, time)?;
        for (place, name) in config.spaces().iter().enumerate() {
            let mut entries = new_chart(alloc, "entries in ", name.as_str(), Scale::Ones)?;
            let mut waiting = new_chart(alloc, "waiting in ", name.as_str(), Scale::Ones)?;
            for sample in self.samples.as_slice() {
                if let Some(space) = sample.spaces.get(place) {
                    draw(&mut entries, sample.age(time), space.rows)?;
                    draw(&mut waiting, sample.age(time), space.waiting)?;
                }
            }
            charts.push(entries)?;
            charts.push(waiting)?;
        }
        Ok(charts)
    }

    fn rate_charts(&self, alloc: Global, time: u64) -> Result<Vec<Chart>, AllocError> {
        let mut requests = new_chart(alloc, "requests a second", "", Scale::Tenths)?;
        let mut answers = new_chart(alloc, "answers a second", "", Scale::Tenths)?;
        let mut refusals = new_chart(alloc, "refusals a second", "", Scale::Tenths)?;
        for sample in self.samples.as_slice() {
            let age = sample.age(time);
            draw(&mut requests, age, sample.rates.requests)?;
            draw(&mut answers, age, sample.rates.answers)?;
            draw(&mut refusals, age, sample.rates.refusals)?;
        }
        let mut charts = Vec::new(alloc);
        charts.push(requests)?;
        charts.push(answers)?;
        charts.push(refusals)?;
        Ok(charts)
    }
}

impl Sample {
    /// How many seconds old it is at this time.
    fn age(&self, time: u64) -> u64 {
        time.saturating_sub(self.time) / 1000
    }
}

/// What is done when a server begins.
const NOTHING: Done = Done {
    requests: 0,
    answers: 0,
    refusals: 0,
};

impl Done {
    fn of(counts: &Counts) -> Done {
        let mut refusals: u64 = 0;
        for count in counts.refusals.as_slice() {
            refusals = refusals.saturating_add(*count);
        }
        Done {
            requests: counts.requests,
            answers: counts.answers,
            refusals,
        }
    }

    /// What was done since then, in so many milliseconds.
    fn rates_since(self, earlier: Done, milliseconds: u64) -> Rates {
        Rates {
            requests: in_ten_seconds(self.requests, earlier.requests, milliseconds),
            answers: in_ten_seconds(self.answers, earlier.answers, milliseconds),
            refusals: in_ten_seconds(self.refusals, earlier.refusals, milliseconds),
        }
    }
}

/// How much a count grows in ten seconds, by what it grew in so many milliseconds.
fn in_ten_seconds(later: u64, earlier: u64, milliseconds: u64) -> u64 {
    if milliseconds == 0 {
        return 0;
    }
    later.saturating_sub(earlier).saturating_mul(10_000) / milliseconds
}

/// A chart with nothing drawn, whose name is in two parts.
fn new_chart(alloc: Global, what: &str, space: &str, scale: Scale) -> Result<Chart, AllocError> {
    Ok(Chart {
        name: format!(in alloc; "{what}{space}")?,
        scale,
        top: 0,
        points: Vec::new(alloc),
    })
}

fn draw(chart: &mut Chart, age: u64, value: u64) -> Result<(), AllocError> {
    chart.points.push(Point { age, value })?;
    chart.top = chart.top.max(value);
    Ok(())
}
