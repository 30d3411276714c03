//! A line: its two threads over what writes its answers.
ghost use Rattle.std.specs.Prelude.{◌≡◌, ◌≤◌};
ghost use Rattle.jsp_drive.specs.declared.ended.Ended.TheVariants.{Bound};
ghost use Rattle.jsp_line.specs.Seats.{IsSeated};
ghost use Rattle.jsp_line.specs.Reading.{Faults, Reads};
ghost use Rattle.jsp_line.specs.Writing.{Writes};
ghost use denote.Param.Send.{IsSync, IsSend};

use crate::answer_writer::{AnswerWriter, Health, Start, WriteDone};
use crate::counted::Counted;
use crate::gate::{Clock, Gate};
use crate::hangup::Hangup;
use crate::notes::ShutFor;
use crate::read::ReadDone;
use crate::shared::Shared;
use crate::slot::{Owner, Slot};
use crate::transcript::Transcript;
use jsp_drive::Ended;
use jsp_kept::{AskSeat, InParts, OutSeat};
use jsp_model::Why;
use std::io::{Read, Write};
use std::marker::Brand;
use std::sync::ledger::Ledger;
use std::sync::{Mutex, Wait};
use std::thread::Threads;
use std::{thread, time};

/// What a line answers.
#[derive(Drop)]
pub struct LineDone<A: Ledger, O: Ledger, R: Read, W: Write> {
    pub reader: Counted<R>,
    pub read: ReadDone<A>,
    pub out: WriteDone<O, W>,
    /// Why a call of its second thread was stopped, where one was.
    pub why: Option<Why>,
}

impl<
    H: InParts + Send,
    A: Ledger + Send + Sync,
    O: Ledger + Send + Sync,
    G: Gate + Sync,
    C: Clock + Sync,
    T: Threads + Wait + time::Clock + Sync,
> Shared<'_, H, A, O, G, C, T> {
    // Reads and answers a line, and writes in a second thread what others cause to be said to it.
    fn read_and_answer<
        R: Read + Send + Drop,
        W: Write + Send + Drop,
        X: Hangup + Sync,
        S: Start + Send + Sync,
    >(
        &self,
        answers: &Mutex<AnswerWriter<O, W, S>>,
        slot: Option<&Slot>,
        owner: Option<Owner<'_>>,
        reader: R,
        hangup: &X,
        asks: AskSeat<A>,
        bound: u64,
    ) -> (Option<Why>, (Counted<R>, ReadDone<A>))
        ensures session { result.1.1.seat.session ≡ asks.session }
        ensures reads { Reads asks.session (R.remaining reader) (R.remaining result.1.0.inner) result.1.1.transcript result.1.1.ended asks.count result.1.1.seat.count }
        ensures faults { Faults result.1.1.ended 0 result.1.0.failures }
        ensures bound { result.1.1.ended ≡ Bound → bound ≤ result.1.0.reads }
    {
        let session = asks.session();
        thread::scope(
            thread::scope_env(),
            self.rt,
            move |scope| -> (Option<Why>, (Counted<R>, ReadDone<A>))
                requires { IsSync T.row × IsSync G.row × IsSync C.row × IsSend H.row × IsSend A.row × IsSync A.row × IsSend O.row × IsSync O.row × IsSend W.row × IsSend S.row × IsSync S.row × IsSync X.row }
                ensures session { result.1.1.seat.session ≡ asks.session }
                ensures reads { Reads asks.session (R.remaining reader) (R.remaining result.1.0.inner) result.1.1.transcript result.1.1.ended asks.count result.1.1.seat.count }
                ensures faults { Faults result.1.1.ended 0 result.1.0.failures }
                ensures bound { result.1.1.ended ≡ Bound → bound ≤ result.1.0.reads }
            {
                let answering = scope
                    .spawn(move || self.answer_all(answers, hangup, slot, session))
                    .ok();
                if answering.is_none() {
                    // Nobody would write what others cause to be said to the line: it ends at once.
                    self.floor.shut_for(self.rt, session, ShutFor::NoThread);
                    hangup.hang_up();
                }
                let read = self.read_worker(answers, reader, owner, hangup.requests(), asks, bound);
                let why = answering.and_then(|thread| thread.join(self.rt));
                (why, read)
            },
        )
    }

    // The same, with a slot for what the line keeps while it waits. Without memory for one, what it
    // keeps is dropped once it acts behind a seal.
    fn read_with_slot<
        R: Read + Send + Drop,
        W: Write + Send + Drop,
        X: Hangup + Sync,
        S: Start + Send + Sync,
    >(
        &self,
        answers: &Mutex<AnswerWriter<O, W, S>>,
        reader: R,
        hangup: &X,
        asks: AskSeat<A>,
        bound: u64,
    ) -> (Option<Why>, (Counted<R>, ReadDone<A>))
        ensures session { result.1.1.seat.session ≡ asks.session }
        ensures reads { Reads asks.session (R.remaining reader) (R.remaining result.1.0.inner) result.1.1.transcript result.1.1.ended asks.count result.1.1.seat.count }
        ensures faults { Faults result.1.1.ended 0 result.1.0.failures }
        ensures bound { result.1.1.ended ≡ Bound → bound ≤ result.1.0.reads }
    {
        let Ok((slot, pass)) = Slot::new(self.alloc) else {
            return self.read_and_answer(answers, None, None, reader, hangup, asks, bound);
        };
        let owner = slot.owner(pass);
        self.read_and_answer(
            answers,
            Some(&slot),
            Some(owner),
            reader,
            hangup,
            asks,
            bound,
        )
    }

    // Serves a line, whose writer's first bytes are picked.
    fn serve_from<
        R: Read + Send + Drop,
        W: Write + Send + Drop,
        X: Hangup + Sync,
        S: Start + Send + Sync,
    >(
        &self,
        reader: R,
        writer: W,
        hangup: &X,
        asks: AskSeat<A>,
        outs: OutSeat<O>,
        bound: u64,
    ) -> LineDone<A, O, R, W>
        requires start { W.contents writer ≡ S.start }
        requires seat { IsSeated asks outs }
        ensures session { result.read.seat.session ≡ asks.session }
        ensures reads { Reads asks.session (R.remaining reader) (R.remaining result.reader.inner) result.read.transcript result.read.ended 0 result.read.seat.count }
        ensures faults { Faults result.read.ended 0 result.reader.failures }
        ensures bound { result.read.ended ≡ Bound → bound ≤ result.reader.reads }
        ensures writes { Writes S.start (W.contents result.out.writer.inner) result.out.seat.count result.out.health result.out.writer.failures result.out.transcript }
    {
        let session = outs.session();
        let answers = Mutex::new(AnswerWriter::<O, W, S>::new(self.alloc, outs, writer));
        let (why, (reader, read)) = self.read_with_slot(&answers, reader, hangup, asks, bound);
        let mut answers = answers.into_inner();
        let sent = answers.flush();
        self.tell(session, sent);
        LineDone {
            reader,
            read,
            out: answers.into_done(),
            why,
        }
    }

    /// Serves a line until it ends, with at most `bound` reads: acts what it asks by the bytes
    /// read, and writes the frames of the answers to it. Once its session is closed its connection
    /// is ended.
    pub fn serve_line<R: Read + Send + Drop, W: Write + Send + Drop, X: Hangup + Sync>(
        &self,
        reader: R,
        writer: W,
        hangup: &X,
        asks: AskSeat<A>,
        outs: OutSeat<O>,
        bound: u64,
    ) -> LineDone<A, O, R, W>
        requires { IsSeated asks outs }
        ensures session { result.read.seat.session ≡ asks.session }
        ensures reads { Reads asks.session (R.remaining reader) (R.remaining result.reader.inner) result.read.transcript result.read.ended 0 result.read.seat.count }
        ensures faults { Faults result.read.ended 0 result.reader.failures }
        ensures bound { result.read.ended ≡ Bound → bound ≤ result.reader.reads }
        ensures writes { Writes (W.contents writer) (W.contents result.out.writer.inner) result.out.seat.count result.out.health result.out.writer.failures result.out.transcript }
    {
        self.serve_from::<R, W, X, Brand>(reader, writer, hangup, asks, outs, bound)
    }

    /// Turns a line away that can't be served: shuts its session, ends its connection, and reads
    /// and writes nothing.
    pub fn turn_away<R: Read, W: Write, X: Hangup>(
        &self,
        reader: R,
        writer: W,
        hangup: &X,
        asks: AskSeat<A>,
        outs: OutSeat<O>,
    ) -> LineDone<A, O, R, W>
        requires { IsSeated asks outs }
        ensures asks { result.read.seat ≡ asks }
        ensures outs { result.out.seat ≡ outs }
        ensures reader { (result.reader.inner ≡ reader) × (result.reader.failures ≡ 0) }
        ensures writer { (result.out.writer.inner ≡ writer) × (result.out.writer.failures ≡ 0) }
        ensures faults { Faults result.read.ended 0 result.reader.failures }
        ensures reads { Reads asks.session (R.remaining reader) (R.remaining result.reader.inner) result.read.transcript result.read.ended 0 result.read.seat.count }
        ensures writes { Writes (W.contents writer) (W.contents result.out.writer.inner) result.out.seat.count result.out.health result.out.writer.failures result.out.transcript }
    {
        self.floor.shut(self.rt, asks.session());
        hangup.hang_up();
        LineDone {
            reader: Counted::new(reader),
            read: ReadDone {
                seat: asks,
                transcript: Transcript::new(self.alloc),
                ended: Ended::Bound,
                is_too_long: false,
                why: None,
            },
            out: WriteDone {
                seat: outs,
                writer: Counted::new(writer),
                transcript: Transcript::new(self.alloc),
                health: Health::Sound,
            },
            why: None,
        }
    }
}
