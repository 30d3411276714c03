//! The metrics that there are.
ghost use Rattle.std.specs.Prelude.{◌≡◌};
ghost use Rattle.jsp_status.specs.Metric.{help_of, kind_of, name_of};

/// A metric, of which there may be many samples.
#[derive(Clone, Copy)]
pub(crate) enum Metric {
    Info,
    Uptime,
    Memory,
    Era,
    ErasEnded,
    Connections,
    ConnectionsOpened,
    ConnectionsPeak,
    ConnectionsLimit,
    Requests,
    Answers,
    Refusals,
    Transactions,
    TransactionsVoting,
    SpaceEntriesLimit,
    SpaceEntries,
    SpaceWaiting,
    SpaceRegistrations,
    SpaceMatchSets,
}

/// Whether a metric only grows while the server runs.
#[derive(Clone, Copy)]
pub(crate) enum Kind {
    Counter,
    Gauge,
}

impl Metric {
    /// Its name.
    #[tactic(auto, unfolding(crate::specs::Metric::name_of))]
    pub(crate) fn name(self) -> &'static str
        ensures { result.now ≡ name_of self }
    {
        match self {
            Metric::Info => "jsp_info",
            Metric::Uptime => "jsp_uptime_seconds",
            Metric::Memory => "jsp_resident_memory_bytes",
            Metric::Era => "jsp_era",
            Metric::ErasEnded => "jsp_eras_ended_total",
            Metric::Connections => "jsp_connections",
            Metric::ConnectionsOpened => "jsp_connections_opened_total",
            Metric::ConnectionsPeak => "jsp_connections_peak",
            Metric::ConnectionsLimit => "jsp_connections_limit",
            Metric::Requests => "jsp_requests_total",
            Metric::Answers => "jsp_answers_total",
            Metric::Refusals => "jsp_refusals_total",
            Metric::Transactions => "jsp_transactions",
            Metric::TransactionsVoting => "jsp_transactions_voting",
            Metric::SpaceEntriesLimit => "jsp_space_entries_limit",
            Metric::SpaceEntries => "jsp_space_entries",
            Metric::SpaceWaiting => "jsp_space_waiting_requests",
            Metric::SpaceRegistrations => "jsp_space_registrations",
            Metric::SpaceMatchSets => "jsp_space_match_sets",
        }
    }

    /// What it is, in words.
    #[tactic(auto, unfolding(crate::specs::Metric::help_of))]
    pub(crate) fn help(self) -> &'static str
        ensures { result.now ≡ help_of self }
    {
        match self {
            Metric::Info => "Always 1, with the version of the server.",
            Metric::Uptime => "Whole seconds since the server began.",
            Metric::Memory => "Bytes of the process that are in memory.",
            Metric::Era => "The era that the history is in.",
            Metric::ErasEnded => "Eras of the history that have ended.",
            Metric::Connections => "Connections that are open.",
            Metric::ConnectionsOpened => "Connections that were opened so far.",
            Metric::ConnectionsPeak => "The most connections that were open at once.",
            Metric::ConnectionsLimit => "How many connections may be open at once.",
            Metric::Requests =>
                "Requests that came, those that were refused and what was no request too.",
            Metric::Answers => "Answers and events that were handed out.",
            Metric::Refusals => "Answers that refused a request, by its number and name.",
            Metric::Transactions => "Transactions that haven't ended.",
            Metric::TransactionsVoting => "Transactions whose commit was asked and isn't decided.",
            Metric::SpaceEntriesLimit => "How many entries a space may have.",
            Metric::SpaceEntries => "Entries of a space, those of open transactions too.",
            Metric::SpaceWaiting => "Requests that wait for an entry of a space.",
            Metric::SpaceRegistrations => "Registrations of a space.",
            Metric::SpaceMatchSets => "Match sets of a space.",
        }
    }

    /// Of which kind it is.
    pub(crate) fn kind(self) -> Kind
        ensures { result ≡ kind_of self }
    {
        match self {
            Metric::ErasEnded
            | Metric::ConnectionsOpened
            | Metric::Requests
            | Metric::Answers
            | Metric::Refusals => Kind::Counter,
            _ => Kind::Gauge,
        }
    }
}
