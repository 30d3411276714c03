//! The thread that reads a line, acts its frames and writes their answers.
ghost use Rattle.std.specs.Prelude.{◌≡◌, ◌≤◌, ◌++◌, ℕ, List, Option, false, IfSome, IsTrue};
ghost use Rattle.jsp_model.specs.declared.step.Step.{Step};
ghost use Rattle.jsp_model.specs.House.{step_of};
ghost use Rattle.jsp_drive.specs.Line.{is_line_input, input_of};
ghost use Rattle.jsp_drive.specs.Giving.{Gave, FeedsStream};
ghost use Rattle.jsp_drive.specs.declared.ended.Ended.TheVariants.{Bound};
ghost use Rattle.jsp_line.specs.declared.transcript.Transcript.TheVariants.{NoMemory as NoRoom};
ghost use Rattle.jsp_line.specs.Bytes.{saturated, IsTranscript};
ghost use Rattle.jsp_line.specs.Seats.{Asks};
ghost use Rattle.jsp_line.specs.Reading.{is_closing, is_acted, Faults, Reads};
ghost use Rattle.jsp_line.specs.Turns.{ActsOne, ActsAll, ReadsPiece, FaultsOn, StaysOpen, ReadsOn};

use crate::answer_writer::{Acted, AnswerWriter, Start};
use crate::counted::Counted;
use crate::gate::{Clock, Gate};
use crate::resting::read_at_rest;
use crate::sealed::Sealed;
use crate::shared::Shared;
use crate::slot::Owner;
use crate::transcript::Transcript;
use jsp_drive::{Ended, Line, LineInput, Next};
use jsp_kept::{AskSeat, InParts};
use jsp_model::Why;
use jsp_reply::Refusal;
use jsp_wire::{Ask, Scratch};
use std::alloc::Global;
use std::io::{Read, Write};
use std::sync::atomic::{AtomicU64, Ordering};
use std::sync::ledger::Ledger;
use std::sync::{Mutex, OnceLock, Wait};
use std::time;

/// The most bytes that one read asks for.
const PIECE: usize = 8192;

/// What the thread that reads a line answers.
#[derive(Drop)]
pub struct ReadDone<A: Ledger> {
    pub seat: AskSeat<A>,
    pub transcript: Transcript,
    pub ended: Ended,
    /// Whether the last that was acted was a frame that is too long.
    pub is_too_long: bool,
    /// Why a call was stopped, where one was.
    pub why: Option<Why>,
}

/// What a line has beside its bytes while it is read.
#[derive(Drop)]
pub(crate) struct Reading<'a> {
    /// What the next read is put in.
    piece: [u8; PIECE],
    /// Where payloads are read.
    scratch: Scratch,
    /// Where what is kept stands during a read, if the line has a slot.
    owner: Option<Owner<'a>>,
    /// How many whole frames were acted.
    requests: &'a AtomicU64,
    /// How many bytes were read since the last act.
    bytes: u64,
    /// Whether the last that was acted was a frame that is too long.
    is_too_long: bool,
    /// Why a call was stopped, where one was.
    why: Option<Why>,
}

// Whether the input closes its session, where it isn't refused.
fn is_closing(given: &LineInput) -> bool
    ensures { (s : ℕ) → result ≡ is_closing (step_of (input_of s given.now)) }
{
    match given {
        LineInput::Ask(asked) => matches!(asked.ask(), Ask::Bye),
        LineInput::Fault(_, refusal) => matches!(refusal, Refusal::TooLong),
    }
}

// Keeps a piece that was read, and feeds it to the line. No where there is no memory for that.
fn keep_piece(transcript: &mut Transcript, line: &mut Line, piece: &[u8]) -> bool
    ensures kept { (all : List ℕ) → IsTranscript transcript.old all → IsTranscript transcript.new (all ++ piece.now) }
    ensures fed { FeedsStream line.old piece.now line.new }
    ensures room { IsTrue result → transcript.new ≡ NoRoom → transcript.old ≡ NoRoom }
{
    let is_kept = transcript.add(piece).is_ok();
    let is_fed = line.feed(piece).is_ok();
    is_kept && is_fed
}

// One read. Its bytes are kept and fed to the line.
fn read_piece<R: Read, T: Wait>(
    rt: &T,
    reader: &mut Counted<R>,
    transcript: &mut Transcript,
    line: &mut Line,
    seal: &OnceLock<Sealed>,
    reading: &mut Reading<'_>,
) -> Option<Ended>
    ensures reads { ReadsPiece (R.remaining reader.old.inner) (R.remaining reader.new.inner) transcript.old transcript.new line.old line.new result }
    ensures faults { FaultsOn result reader.old.failures reader.new.failures }
    ensures counted { reader.new.reads ≡ saturated reader.old.reads }
    ensures not_bound { IfSome result (λ ended. ended ≡ Bound → ⊥) }
{
    let read = read_at_rest(
        rt,
        reader,
        transcript,
        &mut reading.owner,
        seal,
        &mut reading.piece,
    );
    match read {
        Ok(0) => Some(Ended::End),
        Ok(n) => {
            reading.bytes = reading.bytes.saturating_add(n as u64);
            if keep_piece(transcript, line, &reading.piece[..n]) {
                return None;
            }
            reading.why = Some(Why::NoMemory);
            Some(Ended::Stopped)
        }
        Err(_) => Some(Ended::Failed),
    }
}

impl<H: InParts, A: Ledger, O: Ledger, G: Gate, C: Clock, T: Wait + time::Clock> Shared<
    '_,
    H,
    A,
    O,
    G,
    C,
    T,
> {
    // An act of the line, behind what is to be made before it, in parts: others go between.
    fn act_in_parts<W: Write, S: Start>(
        &self,
        answers: &Mutex<AnswerWriter<O, W, S>>,
        seat: &mut AskSeat<A>,
        reading: &mut Reading<'_>,
        given: LineInput,
    ) -> Acted
        requires { IsTrue (is_line_input given) }
        ensures { Asks seat.old seat.new }
    {
        let time = self.clock.now();
        let mut input = given.of_session(seat.session());
        for _ in self.rt.forever() {
            let acted = answers
                .lock(self.rt)
                .act(self.rt, self.floor, seat, time, reading.bytes, input);
            reading.bytes = 0;
            match acted {
                Ok(acted) => {
                    self.cut(acted.shut);
                    return acted;
                }
                Err(not_yet) => {
                    self.cut(not_yet.shut);
                    input = not_yet.input;
                }
            }
            self.floor.give_way(self.rt);
        }
        unreachable!()
    }

    // One act of the line. `None` where the line goes on.
    fn act_one<W: Write, S: Start>(
        &self,
        answers: &Mutex<AnswerWriter<O, W, S>>,
        seat: &mut AskSeat<A>,
        reading: &mut Reading<'_>,
        given: LineInput,
    ) -> Option<Ended>
        requires { IsTrue (is_line_input given) }
        ensures session { seat.new.session ≡ seat.old.session }
        ensures acts { ActsOne result (is_closing (step_of (input_of seat.old.session given))) seat.old.count seat.new.count }
    {
        let before = seat.count();
        let closing = is_closing(&given);
        reading.is_too_long = matches!(given, LineInput::Fault(_, Refusal::TooLong));
        self.gate.before(seat.session(), before.saturating_add(1));
        reading.requests.fetch_add(1, Ordering::Relaxed);
        let acted = self.act_in_parts(answers, seat, reading, given);
        let mut why = acted.why();
        if why.is_none() && acted.is_voting {
            why = self.take_turns(answers, seat.session()).err();
        }
        if why.is_some() {
            reading.why = why;
            Some(Ended::Stopped)
        } else if seat.count() == before {
            Some(Ended::Cut)
        } else if closing && !acted.is_open {
            Some(Ended::Closing)
        } else {
            None
        }
    }

    // Acts what the line gives. `None` where the line goes on.
    fn act_all<W: Write, S: Start>(
        &self,
        answers: &Mutex<AnswerWriter<O, W, S>>,
        line: &mut Line,
        seat: &mut AskSeat<A>,
        reading: &mut Reading<'_>,
    ) -> Option<Ended>
        ensures session { seat.new.session ≡ seat.old.session }
        ensures acts { (stream : List ℕ) (asked : List Step) → Gave seat.old.session stream asked line.old
            → ActsAll result seat.old.session stream asked line.new seat.old.count seat.new.count }
        ensures early { IfSome result (λ ended. is_acted ended ≡ false) }
    {
        for _ in self.rt.forever() {
            match line.next_with(&mut reading.scratch) {
                Ok(Next::Input(given)) => {
                    if let Some(ended) = self.act_one(answers, seat, reading, given) {
                        return Some(ended);
                    }
                }
                Ok(Next::More) => return None,
                Ok(Next::Closed) => return None,
                Err(_) => {
                    reading.why = Some(Why::NoMemory);
                    return Some(Ended::Stopped);
                }
            }
        }
        unreachable!()
    }

    // One read, the acts of its bytes, and their answers. `None` where the line goes on.
    fn turn<R: Read, W: Write, S: Start>(
        &self,
        answers: &Mutex<AnswerWriter<O, W, S>>,
        reader: &mut Counted<R>,
        transcript: &mut Transcript,
        line: &mut Line,
        seat: &mut AskSeat<A>,
        reading: &mut Reading<'_>,
    ) -> Option<Ended>
        ensures session { seat.new.session ≡ seat.old.session }
        ensures reads { (start : Option (List ℕ)) (n : ℕ)
            → StaysOpen seat.old.session start (R.remaining reader.old.inner) transcript.old line.old n seat.old.count
            → ReadsOn seat.old.session start (R.remaining reader.new.inner) transcript.new line.new result n seat.new.count }
        ensures faults { FaultsOn result reader.old.failures reader.new.failures }
        ensures counted { reader.new.reads ≡ saturated reader.old.reads }
        ensures not_bound { IfSome result (λ ended. ended ≡ Bound → ⊥) }
    {
        let seal = self.floor.seal();
        if let Some(ended) = read_piece(self.rt, reader, transcript, line, seal, reading) {
            return Some(ended);
        }
        let ended = self.act_all(answers, line, seat, reading);
        self.send(answers, seat.session());
        ended
    }

    // Takes turns until the line ends.
    fn read_turns<R: Read, W: Write, S: Start>(
        &self,
        answers: &Mutex<AnswerWriter<O, W, S>>,
        reader: &mut Counted<R>,
        transcript: &mut Transcript,
        line: &mut Line,
        seat: &mut AskSeat<A>,
        reading: &mut Reading<'_>,
        bound: u64,
    ) -> Ended
        ensures session { seat.new.session ≡ seat.old.session }
        ensures reads { (start : Option (List ℕ)) (n : ℕ)
            → StaysOpen seat.old.session start (R.remaining reader.old.inner) transcript.old line.old n seat.old.count
            → Reads seat.old.session start (R.remaining reader.new.inner) transcript.new result n seat.new.count }
        ensures faults { Faults result reader.old.failures reader.new.failures }
        ensures bound { result ≡ Bound → bound ≤ reader.new.reads }
    {
        'turns: for _turn in 0..bound {
            if let Some(ended) = self.turn(answers, reader, transcript, line, seat, reading) {
                return ended;
            }
        }
        Ended::Bound
    }

    /// Reads a line until it ends, or until it has read `bound` times, and shuts its session.
    pub(crate) fn read_worker<R: Read, W: Write, S: Start>(
        &self,
        answers: &Mutex<AnswerWriter<O, W, S>>,
        reader: R,
        owner: Option<Owner<'_>>,
        requests: &AtomicU64,
        mut seat: AskSeat<A>,
        bound: u64,
    ) -> (Counted<R>, ReadDone<A>)
        ensures session { result.1.seat.session ≡ seat.session }
        ensures reads { Reads seat.session (R.remaining reader) (R.remaining result.0.inner) result.1.transcript result.1.ended seat.count result.1.seat.count }
        ensures faults { Faults result.1.ended 0 result.0.failures }
        ensures bound { result.1.ended ≡ Bound → bound ≤ result.0.reads }
    {
        let mut reader = Counted::new(reader);
        let mut line = Line::new(self.alloc);
        let mut transcript = Transcript::new(self.alloc);
        let mut reading = Reading {
            piece: [0; PIECE],
            scratch: Scratch::new(self.alloc),
            owner,
            requests,
            bytes: 0,
            is_too_long: false,
            why: None,
        };
        let ended = self.read_turns(
            answers,
            &mut reader,
            &mut transcript,
            &mut line,
            &mut seat,
            &mut reading,
            bound,
        );
        self.floor.shut(self.rt, seat.session());
        let done = ReadDone {
            seat,
            transcript,
            ended,
            is_too_long: reading.is_too_long,
            why: reading.why,
        };
        (reader, done)
    }
}
