//! What writes the answers of a line, which both of its threads lock.
ghost use Rattle.std.specs.Prelude.{◌≡◌, ◌≤◌, ◌<◌, ◌+◌, ◌++◌, ◌==◌, ℕ, List, [], true, false, not, length, take, None, Err, IfOk, IfErr, OnOk, OnErr, IsTrue};
ghost use Rattle.std.specs.Io.KnownBytes.{Appends};
ghost use Rattle.jsp_line.specs.Bytes.{saturated};
ghost use Rattle.jsp_model.specs.House.{is_input};
ghost use Rattle.jsp_kept.specs.Calls.{IsOf};
ghost use Rattle.jsp_line.specs.Seats.{Asks, IsNotYet};
ghost use Rattle.jsp_line.specs.declared.answer_writer.Health.TheVariants.{Failed};
ghost use Rattle.jsp_line.specs.declared.transcript.Transcript.TheVariants.{NoMemory as NoRoom};
ghost use Rattle.jsp_line.specs.Bytes.{IsTranscript};
ghost use Rattle.jsp_drive.specs.Heard.{framed};
ghost use Rattle.jsp_drive.specs.Bytes.{frames};
ghost use Rattle.jsp_line.specs.Writing.{is_sound, said_in, Puts, Writes, WritesAll};

use crate::counted::Counted;
use crate::floor::{Floor, Held, Part};
use crate::patience::Patience;
use crate::sealed::Sealed;
use crate::transcript::Transcript;
use jsp_drive::encode;
use jsp_kept::{AskSeat, InParts, MOST_OLD, OutSeat};
use jsp_model::{Input, Step, Stopped, Why};
use jsp_reply::Said;
use jsp_types::NoMemory;
use std::alloc::Global;
use std::io::Write;
use std::marker::{Brand, Model, PhantomData};
use std::sync::Wait;
use std::sync::ledger::Ledger;
use std::time::Clock;

/// The most bytes that may wait to be written while a line goes on asking.
const MOST_UNWRITTEN: usize = 65_536;

/// What a line's writer told of its bytes before the line wrote any. Each line picks it.
pub trait Start {
    ghost use Rattle.std.specs.Prelude.{ℕ, List, Option};

    ghost start: { Option (List ℕ) };
}

impl Start for Brand {
    ghost use Rattle.std.specs.Prelude.{None};

    ghost start = { None };
}

/// Whether a line can still be written to, and why not.
#[derive(Clone, Copy, Debug, PartialEq, Eq)]
pub enum Health {
    Sound,
    /// A write failed, or took no bytes.
    Failed,
    /// There was no memory for an answer.
    NoMemory,
}

impl Health {
    fn is_sound(self) -> bool
        ensures { result ≡ is_sound self }
    {
        matches!(self, Health::Sound)
    }
}

/// What a line has taken from the house and written. The answers taken are written as frames, in
/// order. Once a write has failed, or there was no memory for a frame, what is taken is dropped.
#[derive(Drop)]
pub struct AnswerWriter<O: Ledger, W: Write, S: Start> {
    alloc: Global,
    seat: OutSeat<O>,
    writer: Counted<W>,
    /// Frames that are still to be written.
    unwritten: Vec<u8>,
    transcript: Transcript,
    health: Health,
    /// How many answers were written, and how many of these the gate was told of.
    sent: u64,
    told: u64,
    /// How many bytes went through it since the house was told of them.
    bytes: u64,
    /// Steps of an era that is over, which acts of the line took out of the house. They are freed
    /// behind the next write.
    past: Vec<Step>,
    of: PhantomData<S>,
}

impl<O: Ledger, W: Write, S: Start> Model for AnswerWriter<O, W, S> {
    ghost use Rattle.jsp_line.specs.Writing.{Writer, IsWriter};

    ghost Value = { Writer };

    ghost view = { λ h. record { seat = h.seat; health = h.health; unwritten = h.unwritten.items } };

    ghost invariant = { λ h. IsWriter S.start (W.contents h.writer.inner) h.seat.count h.health h.writer.failures h.unwritten.items h.transcript };
}

/// How an act of a line went.
#[derive(Drop)]
pub(crate) struct Acted {
    result: Result<(), Stopped>,
    received: Result<bool, Stopped>,
    /// Whether the session was open after it.
    pub(crate) is_open: bool,
    /// Whether a transaction votes, whose turns are to be taken.
    pub(crate) is_voting: bool,
    /// A session that was shut, since its client reads no answers.
    pub(crate) shut: Option<u64>,
}

impl Acted {
    /// Why the act or the taking of its answers was stopped, where one was.
    pub(crate) fn why(&self) -> Option<Why> {
        match (self.result, self.received) {
            (Err(stopped), _) | (Ok(()), Err(stopped)) => Some(stopped.why),
            (Ok(()), Ok(_)) => None,
        }
    }
}

/// An act that isn't made yet: more is to be made before it.
#[derive(Drop)]
pub(crate) struct NotYet {
    pub(crate) input: Input,
    /// A session that was shut, since its client reads no answers.
    pub(crate) shut: Option<u64>,
}

/// What was written since the gate was told last.
#[derive(Clone, Copy, Drop)]
pub(crate) struct Sent {
    /// The answers above this number,
    pub(crate) above: u64,
    /// up to this one.
    pub(crate) last: u64,
    pub(crate) health: Health,
}

/// What was written at a line's end.
#[derive(Drop)]
pub struct WriteDone<O: Ledger, W: Write> {
    pub seat: OutSeat<O>,
    pub writer: Counted<W>,
    pub transcript: Transcript,
    pub health: Health,
}

// Adds the frame of an answer.
fn add_frame(alloc: Global, unwritten: &mut Vec<u8>, said: &Said) -> Result<(), NoMemory>
    ensures ok { OnOk result (unwritten.new.items ≡ unwritten.old.items ++ framed said.now) }
    ensures err { OnErr result (unwritten.new.items ≡ unwritten.old.items) }
{
    let frame = encode(alloc, said)?;
    unwritten.extend_from_slice(frame.as_slice())?;
    Ok(())
}

// Adds the frame of an answer. Where there is no memory for it, it waits for some.
fn add_answer<H: InParts, A: Ledger, O: Ledger, T: Wait + Clock>(
    patience: &mut Patience<'_, H, A, O, T>,
    alloc: Global,
    unwritten: &mut Vec<u8>,
    said: &Said,
) -> Result<(), NoMemory>
    ensures { OnOk result (unwritten.new.items ≡ unwritten.old.items ++ framed said.now) }
{
    let rt = patience.rt;
    for _ in rt.forever() {
        if add_frame(alloc, unwritten, said).is_ok() {
            return Ok(());
        }
        if !patience.lasts() {
            return Err(NoMemory);
        }
    }
    unreachable!()
}

// Adds the frames of answers.
fn add_answers<H: InParts, A: Ledger, O: Ledger, T: Wait + Clock>(
    patience: &mut Patience<'_, H, A, O, T>,
    alloc: Global,
    unwritten: &mut Vec<u8>,
    said: &[Said],
) -> Result<(), NoMemory>
    ensures { OnOk result (unwritten.new.items ≡ unwritten.old.items ++ frames said.now) }
{
    for one in said {
        add_answer(patience, alloc, unwritten, one)?;
    }
    Ok(())
}

// Whether answers wait that no memory was found to take.
fn is_refused(received: &Result<bool, Stopped>) -> bool {
    matches!(
        received,
        Err(Stopped {
            why: Why::NoMemory,
            ..
        })
    )
}

// Puts answers behind what is to be written, unless nothing can be written any more.
fn put<H: InParts, A: Ledger, O: Ledger, T: Wait + Clock>(
    patience: &mut Patience<'_, H, A, O, T>,
    alloc: Global,
    unwritten: &mut Vec<u8>,
    health: &mut Health,
    said: &[Said],
)
    ensures put { Puts health.old unwritten.old.items said.now health.new unwritten.new.items }
    ensures failed { health.new ≡ Failed → health.old ≡ Failed }
{
    if !health.is_sound() {
        return;
    }
    if add_answers(patience, alloc, unwritten, said).is_err() {
        *health = Health::NoMemory;
    }
}

// Takes what a hold of the house's lock gave, and says whether there was anything.
fn receive<H: InParts, A: Ledger, O: Ledger, T: Wait + Clock>(
    patience: &mut Patience<'_, H, A, O, T>,
    alloc: Global,
    unwritten: &mut Vec<u8>,
    health: &mut Health,
    transcript: &mut Transcript,
    said: Result<Vec<Said>, Stopped>,
    sealed: Option<Sealed>,
) -> Result<bool, Stopped>
    ensures put { Puts health.old unwritten.old.items (said_in said) health.new unwritten.new.items }
    ensures failed { health.new ≡ Failed → health.old ≡ Failed }
    ensures transcript { (all : List ℕ) → IsTranscript transcript.old all → IsTranscript transcript.new all }
    ensures same { sealed ≡ None → transcript.new ≡ transcript.old }
    ensures room { transcript.new ≡ NoRoom → transcript.old ≡ NoRoom }
    ensures any { IfOk result (λ any. any ≡ not (length (said_in said) == 0)) }
    ensures stopped { IfErr result (λ e. said ≡ Err e) }
{
    if let Some(sealed) = sealed {
        transcript.forget(sealed);
    }
    match said {
        Ok(said) => {
            put(patience, alloc, unwritten, health, said.as_slice());
            Ok(!said.is_empty())
        }
        Err(stopped) => Err(stopped),
    }
}

// Writes bytes until the writer takes no more, and answers how many it took.
fn write_out<W: Write>(writer: &mut Counted<W>, bytes: &[u8]) -> usize
    ensures bound { result ≤ length bytes.now }
    ensures writer { Appends (W.contents writer.old.inner) (W.contents writer.new.inner) (take result bytes.now) }
    ensures all { result ≡ length bytes.now → writer.new.failures ≡ writer.old.failures }
    ensures part { result < length bytes.now → writer.new.failures ≡ saturated writer.old.failures }
{
    let mut at = 0;
    'writes: while at < bytes.len() {
        let taken = writer.write_once(&bytes[at..]);
        if taken == 0 {
            break;
        }
        at += taken;
    }
    at
}

// Writes what is to be written and clears it, and says whether more can be.
fn write_on<W: Write>(
    writer: &mut Counted<W>,
    unwritten: &mut Vec<u8>,
    transcript: &mut Transcript,
) -> Health
    ensures writes { WritesAll (W.contents writer.old.inner) (W.contents writer.new.inner) transcript.old transcript.new unwritten.old.items result writer.new.failures }
    ensures cleared { unwritten.new.items ≡ [] }
{
    let taken = write_out(writer, unwritten.as_slice());
    let is_kept = transcript.add(&unwritten[..taken]).is_ok();
    let is_whole = taken == unwritten.len();
    unwritten.clear();
    if !is_whole {
        return Health::Failed;
    }
    if is_kept {
        Health::Sound
    } else {
        Health::NoMemory
    }
}

impl<O: Ledger, W: Write, S: Start> AnswerWriter<O, W, S> {
    pub(crate) fn new(alloc: Global, seat: OutSeat<O>, writer: W) -> AnswerWriter<O, W, S>
        requires count { seat.count ≡ 0 }
        requires start { W.contents writer ≡ S.start }
        ensures { result.seat ≡ seat }
    {
        AnswerWriter {
            alloc,
            seat,
            writer: Counted::new(writer),
            unwritten: Vec::new(alloc),
            transcript: Transcript::new(alloc),
            health: Health::Sound,
            sent: 0,
            told: 0,
            bytes: 0,
            past: Vec::new(alloc),
            of: PhantomData,
        }
    }

    /// An act of the line, behind which so many bytes were read since the last one, with the
    /// answers that wait after it; or a part of what is to be made before it. The answers are to be
    /// written before the line reads again; where many wait to be written it is done here, without
    /// the house's lock.
    pub(crate) fn act<H: InParts, A: Ledger, T: Wait + Clock>(
        &mut self,
        rt: &T,
        floor: &Floor<H, A, O>,
        asks: &mut AskSeat<A>,
        time: u64,
        read: u64,
        input: Input,
    ) -> Result<Acted, NotYet>
        requires input { IsTrue (is_input input) }
        requires of { IsOf asks.old.session input }
        ensures asks { Asks asks.old asks.new }
        ensures not_yet { IfErr result (λ n. IsNotYet asks.old asks.new n.input) }
        ensures session { self.new.seat.session ≡ self.old.seat.session }
    {
        self.bytes = self.bytes.saturating_add(read);
        // Without memory for it no steps are freed.
        let _ = self.past.reserve(MOST_OLD);
        let acted = self.act_and_take(rt, floor, asks, time, input);
        if self.unwritten.len() > MOST_UNWRITTEN {
            self.write_all();
        }
        let acted = acted?;
        if !is_refused(&acted.received) {
            return Ok(acted);
        }
        let received = self.take(rt, floor);
        Ok(Acted { received, ..acted })
    }

    // A part of an act of the line, with the answers that wait after it.
    fn act_and_take<H: InParts, A: Ledger, T: Wait + Clock>(
        &mut self,
        rt: &T,
        floor: &Floor<H, A, O>,
        asks: &mut AskSeat<A>,
        time: u64,
        input: Input,
    ) -> Result<Acted, NotYet>
        requires input { IsTrue (is_input input) }
        requires of { IsOf asks.old.session input }
        ensures asks { Asks asks.old asks.new }
        ensures not_yet { IfErr result (λ n. IsNotYet asks.old asks.new n.input) }
        ensures session { self.new.seat.session ≡ self.old.seat.session }
    {
        let Held {
            acted,
            said,
            is_open,
            sealed,
            is_voting,
            shut,
        } = floor.act_and_take(
            rt,
            asks,
            time,
            self.bytes,
            input,
            &mut self.seat,
            &mut self.past,
        );
        self.bytes = 0;
        let mut patience = Patience::new(rt, floor, self.seat.session());
        let received = receive(
            &mut patience,
            self.alloc,
            &mut self.unwritten,
            &mut self.health,
            &mut self.transcript,
            said,
            sealed,
        );
        let result = match acted {
            Ok(Part::NotYet(input)) => return Err(NotYet { input, shut }),
            Ok(_) => Ok(()),
            Err(stopped) => Err(stopped),
        };
        Ok(Acted {
            result,
            received,
            is_open,
            is_voting,
            shut,
        })
    }

    /// Takes the next answers, and says whether there were any. They wait where no memory is found
    /// to take them, and are asked for again.
    pub(crate) fn take<H: InParts, A: Ledger, T: Wait + Clock>(
        &mut self,
        rt: &T,
        floor: &Floor<H, A, O>,
    ) -> Result<bool, Stopped>
        ensures session { self.new.seat.session ≡ self.old.seat.session }
    {
        let mut patience = Patience::new(rt, floor, self.seat.session());
        for _ in rt.forever() {
            let received = self.take_once(rt, floor);
            if !is_refused(&received) || !patience.lasts() {
                return received;
            }
        }
        unreachable!()
    }

    fn take_once<H: InParts, A: Ledger, T: Wait + Clock>(
        &mut self,
        rt: &T,
        floor: &Floor<H, A, O>,
    ) -> Result<bool, Stopped>
        ensures session { self.new.seat.session ≡ self.old.seat.session }
    {
        let (said, sealed) = floor.take(rt, self.bytes, &mut self.seat);
        self.bytes = 0;
        let mut patience = Patience::new(rt, floor, self.seat.session());
        receive(
            &mut patience,
            self.alloc,
            &mut self.unwritten,
            &mut self.health,
            &mut self.transcript,
            said,
            sealed,
        )
    }

    // Writes what is to be written.
    fn write_all(&mut self)
        ensures session { self.new.seat.session ≡ self.old.seat.session }
        ensures written { is_sound self.new.health ≡ true → self.new.unwritten ≡ [] }
    {
        if !self.health.is_sound() {
            return;
        }
        self.bytes = self.bytes.saturating_add(self.unwritten.len() as u64);
        self.health = write_on(&mut self.writer, &mut self.unwritten, &mut self.transcript);
        self.sent = if self.health.is_sound() {
            self.seat.count()
        } else {
            self.sent
        };
    }

    /// Writes what is to be written, and says which answers were written since the last call.
    pub(crate) fn flush(&mut self) -> Sent
        ensures session { self.new.seat.session ≡ self.old.seat.session }
        ensures written { is_sound self.new.health ≡ true → self.new.unwritten ≡ [] }
    {
        self.write_all();
        self.past.clear();
        let above = self.told;
        self.told = self.sent;
        Sent {
            above,
            last: self.sent,
            health: self.health,
        }
    }

    /// What was written, once no lock is left and nothing is to be written.
    pub(crate) fn into_done(self) -> WriteDone<O, W>
        requires { is_sound self.health ≡ true → self.unwritten ≡ [] }
        ensures session { result.seat.session ≡ self.seat.session }
        ensures writes { Writes S.start (W.contents result.writer.inner) result.seat.count result.health result.writer.failures result.transcript }
    {
        let AnswerWriter {
            alloc: _,
            seat,
            writer,
            unwritten: _,
            transcript,
            health,
            sent: _,
            told: _,
            bytes: _,
            past: _,
            of: _,
        } = self;
        WriteDone {
            seat,
            writer,
            transcript,
            health,
        }
    }
}
