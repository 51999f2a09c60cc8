//! The table `series`: for each bin of time a row for each five-tuple with an arrival, a fate or a packet that waits at
//! the bin's end. Contracts say its text, byte by byte.

ghost use Rattle.std.specs.Prelude.{◌≡◌, ◌<◌, ◌∷◌, ◌++◌, [], ℕ, List, IfOk, OnOk, length, map, nat_lt, option_map, replicate, slice_set};
ghost use Rattle.link_report.specs.Series.{bin_after, bin_at};
ghost use Rattle.link_report.specs.Tables as Tables;
ghost use Rattle.link_report.specs.SeriesTables as Spec;
ghost use Rattle.link_report.specs.SeriesTables.{AreRows, HasRowsBefore, IsIn, Walk, lines_at, of_number, series_header, series_line, series_lines, series_text, still_waiting};

use crate::packets::{PacketRecord, Packets};
use crate::table::{Queue, Table};
use journal_core::{Event, Mark, Memory};
use packet_core::Seed;
use std::alloc::Global;
use text_core::Digits;

/// What happened to the packets of a five-tuple in a bin, and what waits. Lengths are in bytes, delays in microseconds.
#[derive(Clone, Copy)]
pub(crate) struct Happenings {
    /// Packets that arrived, and their lengths, added up.
    packets: u64,
    bytes: u64,
    /// Packets sent, and their lengths, added up.
    sent: u64,
    sent_bytes: u64,
    /// Packets dropped, for whatever cause.
    dropped: u64,
    /// Packets sent with a mark, of either kind.
    marked: u64,
    /// The delays of the packets sent, added up, and the greatest.
    delay_sum: u128,
    delay_max: u64,
    /// Packets that wait, and their lengths, added up.
    waiting: u64,
    waiting_bytes: u64,
    /// Whether the bin has a row for it.
    has_row: bool,
}

impl Happenings {
    /// Nothing happened, and nothing waits.
    fn none() -> Happenings
        ensures { result ≡ Spec.nothing }
    {
        Happenings::of_waiting(0, 0)
    }

    /// Nothing happened yet, and so many packets wait.
    fn of_waiting(waiting: u64, waiting_bytes: u64) -> Happenings
        ensures { result ≡ Spec.of_waiting waiting waiting_bytes }
    {
        Happenings {
            packets: 0,
            bytes: 0,
            sent: 0,
            sent_bytes: 0,
            dropped: 0,
            marked: 0,
            delay_sum: 0,
            delay_max: 0,
            waiting,
            waiting_bytes,
            has_row: waiting > 0,
        }
    }

    /// A packet of that length arrived.
    fn arrive(&mut self, len: u64)
        ensures { self.new ≡ Spec.with_one_arrived self.old len }
    {
        self.packets = self.packets.saturating_add(1);
        self.bytes = self.bytes.saturating_add(len);
        self.waiting = self.waiting.saturating_add(1);
        self.waiting_bytes = self.waiting_bytes.saturating_add(len);
    }

    /// A packet of that length waits no more.
    fn leave(&mut self, len: u64)
        ensures { self.new ≡ Spec.with_one_gone self.old len }
    {
        self.waiting = self.waiting.saturating_sub(1);
        self.waiting_bytes = self.waiting_bytes.saturating_sub(len);
    }

    /// A packet of that length was sent after that delay.
    fn send(&mut self, len: u64, delay: u64, mark: Mark)
        ensures { self.new ≡ Spec.with_sending self.old len delay mark }
    {
        self.leave(len);
        self.sent = self.sent.saturating_add(1);
        self.sent_bytes = self.sent_bytes.saturating_add(len);
        self.delay_sum = self.delay_sum.saturating_add(u128::from(delay));
        self.delay_max = self.delay_max.max(delay);
        self.marked = with_mark(self.marked, mark);
    }

    /// A packet of that length was dropped.
    fn lose(&mut self, len: u64)
        ensures { self.new ≡ Spec.with_drop self.old len }
    {
        self.leave(len);
        self.dropped = self.dropped.saturating_add(1);
    }

    /// Notes an event of a packet. The bin has a row for it then, and the answer says whether it had one before.
    fn note(&mut self, packet: &PacketRecord, event: &Event) -> bool
        ensures value { self.new ≡ Spec.happened packet.now self.old event.now }
        ensures had_row { result ≡ self.old.has_row }
    {
        let had_row = self.has_row;
        self.happen(packet, event);
        self.has_row = true;
        had_row
    }

    /// Counts what an event of a packet says.
    fn happen(&mut self, packet: &PacketRecord, event: &Event)
        ensures { self.new ≡ Spec.with_own packet.now self.old event.now }
    {
        let len = u64::from(packet.len);
        match *event {
            Event::Accepted { .. } => self.arrive(len),
            Event::Sent { moment, mark, .. } => {
                self.send(len, moment.saturating_sub(packet.arrived), mark)
            }
            Event::Dropped { .. } => self.lose(len),
            Event::Closed { .. } => {}
        }
    }

    /// The mean delay, rounded down, if a packet was sent.
    fn delay_mean(&self) -> Option<u64>
        ensures { result ≡ Spec.delay_mean self.now }
    {
        if self.sent == 0 {
            return None;
        }
        in_64_bits(self.delay_sum / u128::from(self.sent))
    }
}

/// So many packets with a mark, and one more if that is one.
fn with_mark(marked: u64, mark: Mark) -> u64
    ensures { result ≡ Spec.with_mark marked mark }
{
    match mark {
        Mark::NoMark => marked,
        Mark::CodelMark | Mark::Threshold => marked.saturating_add(1),
    }
}

/// The number, if it has 64 bits at most.
fn in_64_bits(number: u128) -> Option<u64>
    ensures { result ≡ Spec.in_64_bits number }
{
    if number <= u128::from(u64::MAX) {
        Some(number as u64)
    } else {
        None
    }
}

/// That delay, where there is a mean.
fn beside(mean: Option<u64>, delay: u64) -> Option<u64>
    ensures { result ≡ option_map (λ m. delay) mean }
{
    match mean {
        Some(_) => Some(delay),
        None => None,
    }
}

/// The bin that events fall in, as they come.
#[derive(Drop)]
pub(crate) struct Series {
    alloc: Global,
    queue: Queue,
    /// The width of a bin, in microseconds.
    every: u64,
    /// The number of the bin, from 0.
    bin: u64,
    /// What happened in it, by the numbers of the five-tuples.
    happenings: Vec<Happenings>,
    /// The numbers of the five-tuples that have a row in it.
    rows: Vec<usize>,
}

/// The text of the table, with bins of `every` microseconds: a header, the rows of the scheduler's journal, by bin and
/// then by five-tuple, and then those of the other queue's, where there is one. Where `every` is 0, all is in one bin. It
/// fails for want of memory alone. Five-tuples are found as `Packets::of` finds them.
pub fn series_text(
    alloc: Global,
    every: u64,
    events: &[Event],
    fifo: Option<&[Event]>,
) -> Result<Vec<u8>, Memory>
    ensures { IfOk result (λ text. text.items ≡ series_text every events.now (option_map (λ e. e.now) fifo.entry)) }
{
    series_text_with_seed(alloc, &Seed([0; 16]), every, events, fifo)
}

/// The text of the table, as `series_text` writes it. Five-tuples are found by a hash of that seed, and the text is the
/// same under every seed. It fails for want of memory alone.
pub fn series_text_with_seed(
    alloc: Global,
    seed: &Seed,
    every: u64,
    events: &[Event],
    fifo: Option<&[Event]>,
) -> Result<Vec<u8>, Memory>
    ensures { IfOk result (λ text. text.items ≡ series_text every events.now (option_map (λ e. e.now) fifo.entry)) }
{
    let mut table = Table::new(alloc);
    write_series(&mut table, seed, every, events, fifo)?;
    table.into_text()
}

/// Writes the table where nothing is written yet.
fn write_series(
    table: &mut Table,
    seed: &Seed,
    every: u64,
    events: &[Event],
    fifo: Option<&[Event]>,
) -> Result<(), Memory>
    ensures { OnOk result (Tables.AddsToTable table.old table.new
        (series_text every events.now (option_map (λ e. e.now) fifo.entry))) }
{
    header(table)?;
    queue_rows(table, seed, Queue::FqCodel, every, events)?;
    match fifo {
        Some(fifo) => queue_rows(table, seed, Queue::Fifo, every, fifo),
        None => Ok(()),
    }
}

/// The header.
pub(crate) fn header(table: &mut Table) -> Result<(), Memory>
    ensures { OnOk result (Tables.AddsToTable table.old table.new (Tables.line_of series_header)) }
{
    table.row(&[
        b"queue",
        b"from",
        b"tuple",
        b"packets",
        b"bytes",
        b"sent",
        b"sent_bytes",
        b"dropped",
        b"marked",
        b"delay_mean",
        b"delay_max",
        b"waiting",
        b"waiting_bytes",
    ])
}

/// The rows of a queue's journal.
fn queue_rows(
    table: &mut Table,
    seed: &Seed,
    queue: Queue,
    every: u64,
    events: &[Event],
) -> Result<(), Memory>
    ensures { OnOk result (Tables.AddsToTable table.old table.new (series_lines queue every events.now)) }
{
    let alloc = table.allocator();
    let packets = Packets::with_seed(alloc, seed, events)?;
    let mut series = Series::new(alloc, queue, every, packets.tuples().len())?;
    for event in events {
        series.take(table, packets.records(), event)?;
    }
    series.write(table)
}

impl Series {
    /// The first bin, where nothing happened yet, with room for so many five-tuples.
    pub(crate) fn new(
        alloc: Global,
        queue: Queue,
        every: u64,
        tuples: usize,
    ) -> Result<Series, Memory>
        ensures { IfOk result (λ series. IsIn series (Spec.begun queue every tuples)) }
    {
        Ok(Series {
            alloc,
            queue,
            every,
            bin: 0,
            happenings: no_happenings(alloc, tuples)?,
            rows: Vec::new(alloc),
        })
    }

    /// The queue whose events it takes.
    pub(crate) fn queue(&self) -> Queue
        ensures { result ≡ self.now.queue }
    {
        self.queue
    }

    /// The width of a bin, in microseconds.
    pub(crate) fn every(&self) -> u64
        ensures { result ≡ self.now.every }
    {
        self.every
    }

    /// Makes room for so many five-tuples. Nothing happened to those that are new.
    pub(crate) fn widen(&mut self, tuples: usize) -> Result<(), Memory>
        ensures queue { self.new.queue ≡ self.old.queue }
        ensures every { self.new.every ≡ self.old.every }
        ensures walk { OnOk result ((walk : Walk) → IsIn self.old walk → IsIn self.new (Spec.widened tuples walk)) }
    {
        for _number in self.happenings.len()..tuples {
            self.happenings.push(Happenings::none())?;
        }
        Ok(())
    }

    /// Takes an event, of one of those packets, into its bin. The bins before are written.
    pub(crate) fn take(
        &mut self,
        table: &mut Table,
        packets: &[PacketRecord],
        event: &Event,
    ) -> Result<(), Memory>
        ensures queue { self.new.queue ≡ self.old.queue }
        ensures every { self.new.every ≡ self.old.every }
        ensures bin { OnOk result (self.new.bin ≡ bin_after self.old.every self.old.bin event.now) }
        ensures walk { OnOk result ((before : List ℕ) (walk : Walk) → HasRowsBefore before self.old table.old walk
            → HasRowsBefore before self.new table.new (Spec.walk_with_event packets.now walk event.now)) }
    {
        let (id, moment) = match *event {
            Event::Accepted { id, moment, .. }
            | Event::Sent { id, moment, .. }
            | Event::Dropped { id, moment, .. } => (id, moment),
            Event::Closed { .. } => return Ok(()),
        };
        self.go_on(table, bin_at(self.every, moment))?;
        let Some(packet) = packets.get(id as usize) else {
            return Ok(());
        };
        self.note(packet, event)
    }

    /// Goes on to a later bin, and writes those that have rows up to there.
    fn go_on(&mut self, table: &mut Table, bin: u64) -> Result<(), Memory>
        ensures queue { self.new.queue ≡ self.old.queue }
        ensures every { self.new.every ≡ self.old.every }
        ensures bin { OnOk result (self.new.bin ≡ bin) }
        ensures walk { OnOk result ((before : List ℕ) (walk : Walk) → HasRowsBefore before self.old table.old walk
            → HasRowsBefore before self.new table.new (Spec.on_to bin walk)) }
    {
        for _turn in self.bin..bin {
            if self.rows.is_empty() {
                break;
            }
            self.write(table)?;
            self.bin = self.bin.saturating_add(1);
        }
        self.bin = bin;
        Ok(())
    }

    /// Notes an event of a packet in the bin.
    fn note(&mut self, packet: &PacketRecord, event: &Event) -> Result<(), Memory>
        ensures queue { self.new.queue ≡ self.old.queue }
        ensures every { self.new.every ≡ self.old.every }
        ensures bin { self.new.bin ≡ self.old.bin }
        ensures walk { OnOk result ((walk : Walk) → IsIn self.old walk
            → IsIn self.new (Spec.noted packet.now walk event.now)) }
    {
        let number = packet.tuple as usize;
        if number >= self.happenings.len() {
            return Ok(());
        }
        if self.happenings[number].note(packet, event) {
            return Ok(());
        }
        self.rows.push(number)?;
        Ok(())
    }

    /// Writes the rows of the bin, by five-tuple, and leaves those with a packet that waits for the next one.
    pub(crate) fn write(&mut self, table: &mut Table) -> Result<(), Memory>
        ensures queue { self.new.queue ≡ self.old.queue }
        ensures every { self.new.every ≡ self.old.every }
        ensures bin { self.new.bin ≡ self.old.bin }
        ensures walk { OnOk result ((before : List ℕ) (walk : Walk) → HasRowsBefore before self.old table.old walk
            → HasRowsBefore before self.new table.new (Spec.ended walk)) }
    {
        self.rows.sort()?;
        let from = self.bin.saturating_mul(self.every);
        let rows = write_rows(
            self.alloc,
            table,
            self.queue,
            from,
            &self.rows,
            &mut self.happenings,
        )?;
        self.rows = rows;
        Ok(())
    }
}

/// Nothing happened to so many five-tuples.
fn no_happenings(alloc: Global, tuples: usize) -> Result<Vec<Happenings>, Memory>
    ensures { IfOk result (λ happenings. happenings.items ≡ replicate tuples Spec.nothing) }
{
    let mut happenings = Vec::with_capacity(alloc, tuples)?;
    for _number in 0..tuples {
        happenings.push(Happenings::none())?;
    }
    Ok(happenings)
}

/// Writes the rows of the five-tuples with those numbers, and leaves what waits for the next bin. The numbers of those
/// with a packet that waits are given.
fn write_rows(
    alloc: Global,
    table: &mut Table,
    queue: Queue,
    from: u64,
    numbers: &[usize],
    happenings: &mut Vec<Happenings>,
) -> Result<Vec<usize>, Memory>
    ensures text { OnOk result (AreRows happenings.old.items numbers.now
        → Tables.AddsToTable table.old table.new (lines_at queue from happenings.old.items numbers.now)) }
    ensures happenings { OnOk result (AreRows happenings.old.items numbers.now
        → happenings.new.items ≡ map still_waiting happenings.old.items) }
    ensures rows { IfOk result (λ rows. AreRows happenings.old.items numbers.now
        → AreRows happenings.new.items rows.items) }
{
    let mut rows = Vec::new(alloc);
    for number in numbers {
        if write_row(table, queue, from, happenings, *number)? {
            rows.push(*number)?;
        }
    }
    Ok(rows)
}

/// Writes the row of the five-tuple with that number, and leaves what waits for the next bin. Whether a packet waits is
/// answered.
fn write_row(
    table: &mut Table,
    queue: Queue,
    from: u64,
    happenings: &mut Vec<Happenings>,
    number: usize,
) -> Result<bool, Memory>
    ensures text { OnOk result (number < length happenings.old.items
        → Tables.AddsToTable table.old table.new (series_line queue from number (of_number happenings.old.items number))) }
    ensures happenings { OnOk result (number < length happenings.old.items → happenings.new.items
        ≡ slice_set happenings.old.items number (still_waiting (of_number happenings.old.items number))) }
    ensures waits { IfOk result (λ waits. number < length happenings.old.items
        → waits ≡ nat_lt 0 (of_number happenings.old.items number).waiting) }
{
    if number >= happenings.len() {
        return Ok(false);
    }
    let happened = happenings[number];
    row(table, queue, from, number as u64, &happened)?;
    let left = Happenings::of_waiting(happened.waiting, happened.waiting_bytes);
    happenings[number] = left;
    Ok(left.has_row)
}

/// The number of the bin that a moment falls in, from 0. Where bins have no width it is the first one.
fn bin_at(every: u64, moment: u64) -> u64
    ensures { result ≡ bin_at every moment }
{
    moment.checked_div(every).unwrap_or(0)
}

/// The row of a five-tuple in a bin.
fn row(
    table: &mut Table,
    queue: Queue,
    from: u64,
    tuple: u64,
    happenings: &Happenings,
) -> Result<(), Memory>
    ensures { OnOk result (Tables.AddsToTable table.old table.new (series_line queue from tuple happenings.now)) }
{
    let mean = happenings.delay_mean();
    let from = Digits::of(from);
    let tuple = Digits::of(tuple);
    let packets = Digits::of(happenings.packets);
    let bytes = Digits::of(happenings.bytes);
    let sent = Digits::of(happenings.sent);
    let sent_bytes = Digits::of(happenings.sent_bytes);
    let dropped = Digits::of(happenings.dropped);
    let marked = Digits::of(happenings.marked);
    let delay_max = Digits::of_any(beside(mean, happenings.delay_max));
    let delay_mean = Digits::of_any(mean);
    let waiting = Digits::of(happenings.waiting);
    let waiting_bytes = Digits::of(happenings.waiting_bytes);
    table.row(&[
        queue.name(),
        from.as_bytes(),
        tuple.as_bytes(),
        packets.as_bytes(),
        bytes.as_bytes(),
        sent.as_bytes(),
        sent_bytes.as_bytes(),
        dropped.as_bytes(),
        marked.as_bytes(),
        delay_mean.as_bytes(),
        delay_max.as_bytes(),
        waiting.as_bytes(),
        waiting_bytes.as_bytes(),
    ])
}
