//! The rows of a report, and its text.
ghost use Rattle.std.specs.Prelude.{◌≡◌, ◌++◌, [], ℕ, List, IfOk, OnOk, map, string_bytes};
ghost use Rattle.std.specs.List.{flat_map};
ghost use Rattle.journal_core.specs.Happened.{acceptances};
ghost use Rattle.journal_core.specs.Statistics.{statistics};
ghost use Rattle.journal_core.specs.Tallies.{HasSeen};
ghost use Rattle.journal_core.specs.TupleRows.{tuple_rows};
ghost use Rattle.trace_core.specs.Report as Report;

use crate::journal_report::SenderRow;
use journal_core::{Note, Noted, Tally};
use sched_core::{Answer, Engine, Event, Memory, MomentFault, Refusal, Sched, Totals, TupleRow};
use std::alloc::Global;
use text_core::{AddressText, Digits, cause_name, ecn_digit};

/// The rows of a report, as they are written.
#[derive(Drop)]
pub(crate) struct Rows {
    rows: text_core::Rows,
}

impl Rows {
    /// No rows yet.
    pub(crate) fn new(alloc: Global) -> Rows
        ensures { Report.HasReportText result [] }
    {
        Rows {
            rows: text_core::Rows::new(alloc),
        }
    }

    /// The text of the whole report: the rows so far, which are those of all steps, then the row of the totals, and a
    /// row for each five-tuple, by the tally of all packets that were accepted. It fails for want of memory alone.
    pub(crate) fn finish(mut self, sched: &Sched<Noted>, tally: Tally) -> Result<Vec<u8>, Memory>
        requires { HasSeen tally (acceptances sched.now.standing.events) }
        ensures { IfOk result (λ text. (written : List ℕ) → Report.HasReportText self written → text.items
            ≡ (written ++ Report.line_of (Report.totals_row (statistics sched.now.standing.events)))
            ++ flat_map Report.tuple_line (tuple_rows sched.now.standing.events)) }
    {
        self.statistics(sched, tally)?;
        self.into_text()
    }

    /// The row of a scheduler's totals, and a row for each of its five-tuples.
    fn statistics(&mut self, sched: &Sched<Noted>, tally: Tally) -> Result<(), Memory>
        requires { HasSeen tally (acceptances sched.now.standing.events) }
        ensures { OnOk result ((written : List ℕ) → Report.HasReportText self.old written → Report.HasReportText self.new
            ((written ++ Report.line_of (Report.totals_row (statistics sched.now.standing.events)))
            ++ flat_map Report.tuple_line (tuple_rows sched.now.standing.events))) }
    {
        self.totals(&sched.totals())?;
        sched.journal_laws();
        self.tuples(&tally.rows(sched.recorder()))
    }

    /// The text of an engine's journal: the rows so far, of which there are none, a row for each event, the row of the
    /// totals, a row for each five-tuple, and a row for each sender. It fails for want of memory alone.
    pub(crate) fn journal(
        mut self,
        engine: &Engine,
        senders: &[SenderRow],
    ) -> Result<Vec<u8>, Memory>
        requires { Report.HasReportText self [] }
        ensures { IfOk result (λ text. text.items ≡ Report.journal_text engine.now.sched.standing.events senders.now) }
    {
        self.journal_rows(engine, senders)?;
        self.into_text()
    }

    /// The rows of an engine's journal, where there are none yet.
    fn journal_rows(&mut self, engine: &Engine, senders: &[SenderRow]) -> Result<(), Memory>
        requires { Report.HasReportText self.old [] }
        ensures { OnOk result (Report.HasReportText self.new
            (Report.journal_text engine.now.sched.standing.events senders.now)) }
    {
        self.events(engine.events())?;
        self.totals(&engine.totals())?;
        self.tuples(&engine.tuple_rows()?)?;
        self.senders(senders)
    }

    /// The text of all rows.
    fn into_text(self) -> Result<Vec<u8>, Memory>
        ensures { IfOk result (λ text. (written : List ℕ)
            → Report.HasReportText self written → text.items ≡ written) }
    {
        let Rows { rows } = self;
        rows.into_text()
    }

    /// One row. A write to a `Vec` fails for want of memory alone.
    fn row(&mut self, fields: &[&[u8]]) -> Result<(), Memory>
        requires { Report.IsFilled (map (λ f. f.now) fields.now) }
        ensures { OnOk result (Report.AddsToReport self.old self.new (Report.line_of (map (λ f. f.now) fields.now))) }
    {
        self.rows.row(fields)
    }

    /// The rows of a step with this answer and notes of these events: one for each event, and one where the step made
    /// none.
    pub(crate) fn step(&mut self, answer: Answer, own_notes: &[Note]) -> Result<(), Memory>
        ensures { OnOk result (Report.AddsToReport self.old self.new
            (flat_map Report.note_line own_notes.now ++ Report.answer_lines answer)) }
    {
        self.notes(own_notes)?;
        self.answer(answer)
    }

    /// The rows of events, of each of which there is a note.
    fn notes(&mut self, notes: &[Note]) -> Result<(), Memory>
        ensures { OnOk result (Report.AddsToReport self.old self.new (flat_map Report.note_line notes.now)) }
    {
        for note in notes {
            self.note(*note)?;
        }
        Ok(())
    }

    /// The rows of events.
    fn events(&mut self, events: &[Event]) -> Result<(), Memory>
        ensures { OnOk result (Report.AddsToReport self.old self.new (flat_map Report.event_line events.now)) }
    {
        for event in events {
            self.event(event)?;
        }
        Ok(())
    }

    /// The row of a step that made none, by its answer.
    #[tactic(auto, using(crate::proofs::ReportLemmas::adds_none))]
    fn answer(&mut self, answer: Answer) -> Result<(), Memory>
        ensures { OnOk result (Report.AddsToReport self.old self.new (Report.answer_lines answer)) }
    {
        match answer {
            Answer::Accepted | Answer::Sent | Answer::Closed => Ok(()),
            Answer::Idle => self.row(&[b"idle"]),
            Answer::Refused(refusal) => self.refusal(refusal),
        }
    }

    /// The row of an event.
    #[tactic(auto, using(crate::proofs::ReportLemmas::noted_line))]
    fn event(&mut self, event: &Event) -> Result<(), Memory>
        ensures { OnOk result (Report.AddsToReport self.old self.new (Report.event_line event.now)) }
    {
        self.note(Note::of(event))
    }

    /// The row of an event, by its note.
    fn note(&mut self, note: Note) -> Result<(), Memory>
        ensures { OnOk result (Report.AddsToReport self.old self.new (Report.note_line note)) }
    {
        match note {
            Note::Accepted { flow, id } => {
                let (id, flow) = (Digits::of(id), Digits::of(u64::from(flow)));
                self.row(&[b"accepted", id.as_bytes(), flow.as_bytes()])
            }
            Note::Sent { ecn, id } => {
                let id = Digits::of(id);
                self.row(&[b"sent", id.as_bytes(), ecn_digit(ecn)])
            }
            Note::Dropped { cause, id } => {
                let id = Digits::of(id);
                self.row(&[b"dropped", id.as_bytes(), cause_name(cause)])
            }
            Note::Closed => self.row(&[b"closed"]),
        }
    }

    /// The row of a refused step. A trace's moments and its number of rows are too small for all but the
    /// refusals as closed and as backwards, and want of memory ends a run; the others have a row each so
    /// that every refusal has one.
    fn refusal(&mut self, refusal: Refusal) -> Result<(), Memory>
        ensures { OnOk result (Report.AddsToReport self.old self.new (Report.line_of (Report.refusal_row refusal))) }
    {
        match refusal {
            Refusal::Moment(fault) => self.moment_fault(fault),
            Refusal::ClosedAlready => self.row(&[b"refused", b"closed"]),
            Refusal::Exhausted => self.row(&[b"refused", b"exhausted"]),
            Refusal::Memory => self.row(&[b"refused", b"memory"]),
        }
    }

    /// The row of a step that is refused for its moment.
    fn moment_fault(&mut self, fault: MomentFault) -> Result<(), Memory>
        ensures { OnOk result (Report.AddsToReport self.old self.new (Report.line_of (Report.moment_row fault))) }
    {
        match fault {
            MomentFault::Backwards { last } => {
                let last = Digits::of(last);
                self.row(&[b"refused", b"backwards", last.as_bytes()])
            }
            MomentFault::TooLarge => self.row(&[b"refused", b"too_large"]),
        }
    }

    /// The row of the totals.
    fn totals(&mut self, totals: &Totals) -> Result<(), Memory>
        ensures { OnOk result (Report.AddsToReport self.old self.new (Report.line_of (Report.totals_row totals.now))) }
    {
        let accepted = Digits::of(totals.accepted);
        let accepted_bytes = Digits::of(totals.accepted_bytes);
        let sent = Digits::of(totals.sent);
        let sent_bytes = Digits::of(totals.sent_bytes);
        let dropped_codel = Digits::of(totals.dropped_codel);
        let dropped_overflow = Digits::of(totals.dropped_overflow);
        let dropped_bytes = Digits::of(totals.dropped_bytes);
        let marked = Digits::of(totals.marked);
        let threshold_marked = Digits::of(totals.threshold_marked);
        let queued = Digits::of(totals.queued);
        let queued_bytes = Digits::of(totals.queued_bytes);
        self.row(&[
            b"totals",
            accepted.as_bytes(),
            accepted_bytes.as_bytes(),
            sent.as_bytes(),
            sent_bytes.as_bytes(),
            dropped_codel.as_bytes(),
            dropped_overflow.as_bytes(),
            dropped_bytes.as_bytes(),
            marked.as_bytes(),
            threshold_marked.as_bytes(),
            queued.as_bytes(),
            queued_bytes.as_bytes(),
            state_name(totals.closed),
        ])
    }

    /// The rows of five-tuples.
    fn tuples(&mut self, tuples: &[TupleRow]) -> Result<(), Memory>
        ensures { OnOk result (Report.AddsToReport self.old self.new (flat_map Report.tuple_line tuples.now)) }
    {
        for row in tuples {
            self.tuple(row)?;
        }
        Ok(())
    }

    /// The row of a five-tuple.
    fn tuple(&mut self, row: &TupleRow) -> Result<(), Memory>
        ensures { OnOk result (Report.AddsToReport self.old self.new (Report.tuple_line row.now)) }
    {
        let proto = Digits::of(u64::from(row.tuple.proto));
        let src = AddressText::of(row.tuple.src);
        let dst = AddressText::of(row.tuple.dst);
        let sport = Digits::of(u64::from(row.tuple.sport));
        let dport = Digits::of(u64::from(row.tuple.dport));
        let flow = Digits::of(u64::from(row.flow));
        let accepted = Digits::of(row.accepted);
        let sent = Digits::of(row.sent);
        let dropped = Digits::of(row.dropped);
        let queued = Digits::of(row.queued);
        self.row(&[
            b"tuple",
            proto.as_bytes(),
            src.as_bytes(),
            dst.as_bytes(),
            sport.as_bytes(),
            dport.as_bytes(),
            flow.as_bytes(),
            accepted.as_bytes(),
            sent.as_bytes(),
            dropped.as_bytes(),
            queued.as_bytes(),
        ])
    }

    /// The rows of senders.
    fn senders(&mut self, senders: &[SenderRow]) -> Result<(), Memory>
        ensures { OnOk result (Report.AddsToReport self.old self.new (flat_map Report.sender_line senders.now)) }
    {
        for sender in senders {
            self.sender(sender)?;
        }
        Ok(())
    }

    /// The row of a sender.
    fn sender(&mut self, row: &SenderRow) -> Result<(), Memory>
        ensures { OnOk result (Report.AddsToReport self.old self.new (Report.sender_line row.now)) }
    {
        let sender = Digits::of(u64::from(row.sender));
        let submitted = Digits::of(row.submitted);
        let accepted = Digits::of(row.accepted);
        let left = Digits::of(row.left);
        self.row(&[
            b"sender",
            sender.as_bytes(),
            submitted.as_bytes(),
            accepted.as_bytes(),
            left.as_bytes(),
        ])
    }
}

/// The word for whether there was a close.
fn state_name(is_closed: bool) -> &'static [u8]
    ensures { result.now ≡ Report.state_name is_closed }
{
    if is_closed { b"closed" } else { b"open" }
}
