//! What a run's lines read and wrote, and the faults that were met.
ghost use Rattle.std.specs.Prelude.{◌≡◌, ◌&&◌, ℕ, [], false, true, nat_lt, is_some, IfNone, IfSome, Vec};
ghost use Rattle.std.specs.declared.alloc.Global.{Global};
ghost use Rattle.jsp_line.specs.declared.transcript.Transcript.TheVariants.{Whole};
ghost use Rattle.jsp_line.specs.Bytes.{has_bytes};
ghost use Rattle.jsp_floor.specs.Doors.{MayCome};
ghost use Rattle.jsp_floor.specs.Served.{Adds, AddsShort, fault_of, found_memory, is_short, noted, noted_line, noted_stop, report_of};

use crate::door::Door;
use jsp_closing::{LineReport, RunFault};
use jsp_drive::Ended;
use jsp_line::{Counted, Health, Left, LineDone, ReadDone, WriteDone};
use jsp_model::Why;
use std::alloc::Global;
use std::io::{Read, Write};
use std::marker::{Model, PhantomData};
use std::sync::ledger::Ledger;

/// What the threads of a run have answered so far. Each line that is reported whole came through
/// the door.
#[derive(Drop)]
pub(crate) struct Served<R: Read, W: Write, X, D: Door<R, W, X>> {
    pub(crate) reports: Vec<LineReport>,
    pub(crate) fault: Option<RunFault>,
    pub(crate) alloc: Global,
    pub(crate) of: PhantomData<(R, W, X, D)>,
}

impl<R: Read, W: Write, X, D: Door<R, W, X>> Model for Served<R, W, X, D> {
    ghost use Rattle.std.specs.Prelude.{All};
    ghost use Rattle.jsp_floor.specs.Doors.{MayCome};
    ghost use Rattle.jsp_floor.specs.Served.{Answered};

    ghost Value = { Answered };

    ghost view = { λ s. record { reports = s.reports.items; fault = s.fault } };

    ghost invariant = { λ s. All (MayCome D.gives R.remaining W.contents) s.reports.items };
}

/// What a call that was stopped makes of a run.
pub(crate) fn fault_of(why: Why) -> RunFault
    ensures { result ≡ fault_of why }
{
    match why {
        Why::NoMemory => RunFault::NoMemory,
        Why::Sessions => RunFault::Spawn,
        Why::EraFull | Why::Audit => RunFault::Audit,
    }
}

// Whether a call found no memory.
fn is_short(why: Option<Why>) -> bool
    ensures { result ≡ is_short why }
{
    matches!(why, Some(Why::NoMemory))
}

// Whether each call of a line's two threads found memory, and so did each answer.
fn has_found_memory(read: Option<Why>, other: Option<Why>, health: Health) -> bool
    ensures { result ≡ found_memory read other health }
{
    !is_short(read) && !is_short(other) && health != Health::NoMemory
}

// What a line read and wrote, where its bytes were all kept. It is whole where it found memory
// besides.
fn report<A: Ledger, O: Ledger, R: Read + Drop, W: Write + Drop>(
    is_whole: bool,
    reader: Counted<R>,
    read: ReadDone<A>,
    out: WriteDone<O, W>,
    shut_by_house: bool,
) -> Option<LineReport>
    ensures session { IfSome result (λ report. report.session ≡ read.seat.session) }
    ensures is_whole { IfSome result (λ report. report.is_whole ≡ is_whole) }
    ensures ended { IfSome result (λ report. report.ended ≡ read.ended) }
    ensures read { IfSome result (λ report. read.transcript ≡ Whole report.read) }
    ensures written { IfSome result (λ report. out.transcript ≡ Whole report.written) }
    ensures read_failed { IfSome result (λ report. report.read_failed ≡ nat_lt 0 reader.failures) }
    ensures write_failed { IfSome result (λ report. report.write_failed ≡ nat_lt 0 out.writer.failures) }
    ensures shut_by_house { IfSome result (λ report. report.shut_by_house ≡ shut_by_house) }
    ensures none { IfNone result (has_bytes read.transcript && has_bytes out.transcript ≡ false) }
{
    let session = read.seat.session();
    let bytes = read.transcript.into_bytes()?;
    let written = out.transcript.into_bytes()?;
    Some(LineReport {
        session,
        is_whole,
        ended: read.ended,
        read: bytes,
        written,
        read_failed: reader.failures > 0,
        write_failed: out.writer.failures > 0,
        shut_by_house,
    })
}

// The report of a line of which not all is known.
fn short_report(alloc: Global, session: u64) -> LineReport
    ensures session { result.session ≡ session }
    ensures is_whole { result.is_whole ≡ false }
{
    LineReport {
        session,
        is_whole: false,
        ended: Ended::Stopped,
        read: Vec::new(alloc),
        written: Vec::new(alloc),
        read_failed: false,
        write_failed: false,
        shut_by_house: false,
    }
}

impl<R: Read + Drop, W: Write + Drop, X, D: Door<R, W, X>> Served<R, W, X, D> {
    pub(crate) fn new(alloc: Global) -> Served<R, W, X, D> {
        Served {
            reports: Vec::new(alloc),
            fault: None,
            alloc,
            of: PhantomData,
        }
    }

    /// Notes a fault.
    pub(crate) fn fail(&mut self, fault: RunFault)
        ensures fault { self.new.fault ≡ noted self.old.fault fault }
        ensures reports { self.new.reports ≡ self.old.reports }
    {
        if self.fault.is_none() || fault == RunFault::Audit {
            self.fault = Some(fault);
        }
    }

    /// Notes why a call was stopped, where one was. Want of memory is no fault.
    pub(crate) fn stop(&mut self, why: Option<Why>)
        ensures fault { self.new.fault ≡ noted_stop self.old.fault why }
        ensures reports { self.new.reports ≡ self.old.reports }
    {
        match why {
            None | Some(Why::NoMemory) => {}
            Some(why) => self.fail(fault_of(why)),
        }
    }

    /// Whether there is memory for so many reports more.
    pub(crate) fn make_room(&mut self, count: usize) -> bool
        ensures fault { self.new.fault ≡ self.old.fault }
        ensures reports { self.new.reports ≡ self.old.reports }
    {
        self.reports.reserve(count).is_ok()
    }

    // Adds a report.
    fn add_report(&mut self, report: LineReport)
        requires { MayCome D.gives R.remaining W.contents report }
        ensures { Adds self.old.reports self.new.reports self.old.fault self.new.fault report }
    {
        if self.reports.push(report).is_err() {
            self.fail(RunFault::NoMemory);
        }
    }

    /// Adds a report of a session of whose line not all is known, since memory was wanting.
    pub(crate) fn add_short(&mut self, session: u64)
        ensures { AddsShort self.old.reports self.new.reports self.old.fault self.new.fault session }
    {
        self.add_report(short_report(self.alloc, session));
    }

    /// Adds what a line that came through the door read and wrote, and the faults that it met. Once
    /// an era was sealed no report is kept.
    pub(crate) fn add_line<A: Ledger, O: Ledger>(&mut self, done: LineDone<A, O, R, W>, left: Left)
        requires { (read written : Vec ℕ Global) → done.read.transcript ≡ Whole read → done.out.transcript ≡ Whole written
            → MayCome D.gives R.remaining W.contents
            (report_of done.read.seat.session (found_memory done.read.why done.why done.out.health) done.read.ended read written (nat_lt 0 done.reader.failures) (nat_lt 0 done.out.writer.failures) (is_some left.shut_for)) }
        ensures kept { (read written : Vec ℕ Global) → left.is_sealed ≡ false → done.read.transcript ≡ Whole read → done.out.transcript ≡ Whole written
            → Adds self.old.reports self.new.reports (noted_line self.old.fault done.read.why done.why) self.new.fault
            (report_of done.read.seat.session (found_memory done.read.why done.why done.out.health) done.read.ended read written (nat_lt 0 done.reader.failures) (nat_lt 0 done.out.writer.failures) (is_some left.shut_for)) }
        ensures dropped { left.is_sealed ≡ false → has_bytes done.read.transcript && has_bytes done.out.transcript ≡ false
            → AddsShort self.old.reports self.new.reports (noted_line self.old.fault done.read.why done.why) self.new.fault done.read.seat.session }
        ensures sealed { left.is_sealed ≡ true → (self.new.reports ≡ []) × (self.new.fault ≡ noted_line self.old.fault done.read.why done.why) }
    {
        let LineDone {
            reader,
            read,
            out,
            why,
        } = done;
        self.stop(read.why);
        self.stop(why);
        if left.is_sealed {
            self.reports.clear();
            return;
        }
        let session = read.seat.session();
        let is_whole = has_found_memory(read.why, why, out.health);
        match report(is_whole, reader, read, out, left.shut_for.is_some()) {
            Some(report) => self.add_report(report),
            None => self.add_short(session),
        }
    }
}
