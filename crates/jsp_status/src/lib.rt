//! What a running server says about itself: numbers, as JSON for programs, as metrics for
//! Prometheus and as a page for a browser, over HTTP.
//!
//! [`Status`] is a plain value that a server fills. [`to_json`], [`to_metrics`] and [`to_page`]
//! make its three texts, and [`serve`] answers a browser or a program with one of them, over any
//! reader and writer. [`answer_so_far`] does so without waiting for what is still to come. [`ask`]
//! is the other end, for people at a terminal.
//!
//! It is proved what each text is: JSON that is read as the numbers (`specs/Data.antt`), the lines
//! of metrics (`specs/Metrics.antt`), and a page of four tables and of charts (`specs/Page.antt`,
//! `specs/Chart.antt`) to which no name adds a tag, whatever it holds (`specs/Tags.antt`). It is
//! proved that what is written are HTTP's answers to the requests that were read, each the page,
//! the JSON, the metrics, or a refusal, by its method and path (`specs/Answer.antt`).
#![tactic(auto)]

mod answer;
mod asked;
mod chart;
mod client;
mod connection;
mod counts;
mod decimal;
mod escape;
mod json;
mod label;
mod metric;
mod metrics;
mod page;
mod sample;
mod so_far;
mod status;
mod table;

pub use chart::{Chart, Point, Scale};
pub use client::{AskFault, ask};
pub use connection::serve;
pub use json::to_json;
pub use metrics::to_metrics;
pub use page::to_page;
pub use so_far::answer_so_far;
pub use status::{ConnectionCounts, ConnectionStatus, Rates, RefusalCount, SpaceStatus, Status};
