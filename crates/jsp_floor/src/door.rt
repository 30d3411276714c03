//! Where lines come from.
ghost use Rattle.jsp_floor.specs.Doors.{IfLine};

/// What a door answers.
#[derive(Drop)]
pub enum Arrival<R, W, X> {
    /// A line has come: what it is read from, what is written to, and what ends its connection.
    Line(R, W, X),
    /// No further line comes.
    Closed,
    /// No line can be had.
    Failed,
}

/// Where lines come from. It waits until one has come.
pub trait Door<R, W, X> {
    // What is true of a reader and a writer that come together.
    ghost gives: { R → W → Type 0 } = { λ reader writer. Unit {0} };

    fn next(&mut self) -> Arrival<R, W, X>
        ensures { IfLine result gives };

    /// Whether the lines that are served are to end. It is asked from time to time once no further
    /// one comes.
    fn is_stopped(&self) -> bool;
}
