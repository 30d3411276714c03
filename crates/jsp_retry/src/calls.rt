//! What is called: a house alone, or one that keeps its history in eras.
ghost use Rattle.std.specs.Prelude.{IsTrue};
ghost use Rattle.jsp_drive.specs.Line.{is_line_input};

use jsp_drive::LineInput;
use jsp_model::Stopped;
use jsp_reply::Said;

/// The calls that acts of a script make.
pub(crate) trait Calls: Drop {
    fn open(&mut self, session: u64) -> Result<(), Stopped>;

    /// A request or fault of a session.
    fn hear(&mut self, session: u64, given: LineInput) -> Result<(), Stopped>
        requires { IsTrue (is_line_input given) };

    fn shut(&mut self, session: u64) -> Result<(), Stopped>;

    fn clock(&mut self, time: u64) -> Result<(), Stopped>;

    fn settle(&mut self) -> Result<(), Stopped>;

    /// Makes what a stopped call left.
    fn finish(&mut self) -> Result<(), Stopped>;

    /// The least session above this number that has answers waiting.
    fn next_waiting(&self, after: u64) -> Option<u64>;

    /// All answers that wait for the session.
    fn hand_out(&mut self, session: u64) -> Result<Vec<Said>, Stopped>;

    /// Whether the steps so far are a run, as far as they can be seen. `None` where memory is
    /// wanting.
    fn is_run(&self) -> Option<bool>;
}
