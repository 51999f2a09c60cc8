//! What the help of the program says, in lines of at most 80 columns.

/// What the program is, in a line.
pub const PROGRAM_SUMMARY: &str = "Run a trace of packets through the FQ-CoDel packet scheduler";

/// What the program is.
pub const PROGRAM_DESCRIPTION: &str = "\
Run a trace of packets through the FQ-CoDel packet scheduler (RFC 8290, with
CoDel of RFC 8289 and the ECN bits of RFC 3168), and report what became of each
packet. The trace says at which moment each thing happens, so a run takes no
time of its own, and the same trace always gives the same report.";

/// What stands below the program's help.
pub const PROGRAM_NOTES: &str = "\
'fqsim trace --help' describes the parameters, the trace and the report,
'fqsim locked --help' the run by several threads that share the scheduler, and
its journal, and 'fqsim lanes --help' the run by several threads that send to
the one that owns the scheduler.

Exit status:
  0  the report or the help was written
  1  the machine failed: no memory, a failed read or a failed write
  2  the command line, the seed, a parameter or the trace is wrong, and nothing
     was written to standard output";

/// What the subcommand does, in a line.
pub const TRACE_SUMMARY: &str =
    "Read a trace from standard input, write the report to standard output";

/// What the subcommand does.
pub const TRACE_DESCRIPTION: &str = "\
Read a trace from standard input, make its steps with a new scheduler, and write
the report to standard output. The whole trace is read, and the whole run made,
before the first byte of the report is written.";

/// What the subcommand with senders that share the scheduler does, in a line.
pub const LOCKED_SUMMARY: &str = "Read a trace, run it by senders in threads, write the journal";

/// What the subcommand with senders that share the scheduler does.
pub const LOCKED_DESCRIPTION: &str = "\
Read a trace from standard input, make its steps with a new scheduler behind a
lock, and write the journal to standard output. Each packet that comes in is
submitted by one of N senders, each a thread of its own; the main thread asks
for packets and closes meanwhile. The whole trace is read, and the whole run
made, before the first byte of the journal is written.";

/// What the number of senders is, in a line.
pub const SENDERS_SUMMARY: &str = "Number of senders, 1 to 64 [default: 2]";

/// What the number of senders is.
pub const SENDERS_DESCRIPTION: &str = "\
Number of senders, 1 to 64: the packets of flow F belong to sender
F modulo N [default: 2]";

/// What the number of monitors is, in a line.
pub const MONITORS_SUMMARY: &str = "Number of monitors, 0 to 64 [default: 0]";

/// What the number of monitors is.
pub const MONITORS_DESCRIPTION: &str = "\
Number of monitors, 0 to 64: threads that read the run's
statistics while it lasts [default: 0]";

/// How senders and the main thread share a trace, and the journal.
pub const LOCKED_NOTES: &str = "\
Parameters, seed and trace are those of 'fqsim trace --help'.

Sender I submits the packets of its flows in the order of the trace, each at its
row's moment. The main thread makes the 'deq' and 'close' rows in their order,
while the senders run. A call that comes with a moment before the last step's is
made at the last step's. Once all senders are done, the scheduler is closed
where no row closed it, and packets are taken at the last moment until none
waits.

Journal, with the rows of each thing that happened, in order:

  accepted,ID,FLOW         a packet was accepted; ids count from 0
  dropped,ID,overflow      a packet was dropped, since more than a limit waited
  dropped,ID,codel         a packet was dropped by CoDel
  sent,ID,ECN              a packet was sent, with this ECN field
  closed                   the scheduler was closed

then the rows 'totals' and 'tuple' of 'fqsim trace --help', and

  sender,I,SUBMITTED,ACCEPTED,LEFT
                           one row for each sender by rising number: the calls
                           that it made, the packets of these that were
                           accepted, and those that came after the close

Which thread comes first is up to the machine, so two runs of one trace may
write different journals: in the order of acceptance between senders, in the
moments of the steps, and so in what is dropped, marked or left after the
close. Always the packets of one sender are accepted in their order, each packet
that was accepted is sent or dropped, SUBMITTED is ACCEPTED and LEFT together,
and the ACCEPTED of all senders are that of the totals.

Exit status: as of 'fqsim trace', and 1 with 'fqsim: settle' on standard error
where the journal isn't what the senders were told, which would be a fault of
the program.";

/// What the subcommand with lanes does, in a line.
pub const LANES_SUMMARY: &str =
    "Read a trace, run it by senders with a lane each, write the journal";

/// What the subcommand with lanes does.
pub const LANES_DESCRIPTION: &str = "\
Read a trace from standard input, make its steps with a new scheduler that the
device alone uses, and write the journal to standard output. Each packet that
comes in is submitted by one of N senders, each a thread of its own with a lane
to the device; the device is a thread too, which takes packets from the lanes,
asks for packets and closes meanwhile. No sender waits for a lock. The whole
trace is read, and the whole run made, before the first byte of the journal is
written.";

/// How senders and the device share a trace, and what differs in the journal.
pub const LANES_NOTES: &str = "\
Parameters, seed and trace are those of 'fqsim trace --help', and the journal is
that of 'fqsim locked --help'.

Sender I submits the packets of its flows to lane I, in the order of the trace.
The moments of 'enq' rows aren't used. The device makes the 'deq' and 'close'
rows in their order, while the senders run. Its moment starts at 0, and grows to
that of each of these rows where that is greater. At a 'deq' row the device
first pumps each lane, by rising number: at most 64 of its packets are accepted,
at the device's moment. Then it asks for a packet. After the close no lane is
pumped.

After the last row the device waits until all senders are done, and pumps each
lane, by rising number, until it is empty. Then the scheduler is closed where no
row closed it, and packets are taken at the last moment until none waits.

Of a row 'sender', SUBMITTED counts the packets that the sender submitted,
ACCEPTED those of its lane that were accepted, and LEFT those that stand in the
lane at the end, after the close.

With M above 0 the device publishes its statistics at each 'deq' row and at the
end. Each monitor, a thread of its own, reads without a lock what was published
last, until the run has ended, and the last thing that it saw is printed on
standard error, by rising number:

  monitor I EVENTS ACCEPTED SENT DROPPED QUEUED
                           after the first EVENTS things that happened, so many
                           packets had been accepted, sent and dropped, and so
                           many waited

How many packets stand in a lane when it is pumped is up to the machine, so two
runs of one trace may write different journals: in which packets of a lane are
accepted at which 'deq' row, and so in what is dropped, marked or left after
the close. Always the packets of one sender are accepted in their order, each
once, SUBMITTED is ACCEPTED and LEFT together, each packet that was accepted is
sent or dropped, and the ACCEPTED of all senders are that of the totals.

Exit status: as of 'fqsim trace', and 1 with 'fqsim: lane LANE' on standard
error where that lane has no end, or its sender has more than 1048576 packets.
The first would be a fault of the program, and no trace has so many rows. It is
also 1 with 'fqsim: monitor I' where that monitor read more than the journal
has, which would be a fault of the program, too.";

/// What the seed is, in a line.
pub const SEED_SUMMARY: &str = "Seed of the flow hash [default: 32 zeros]";

/// What the seed is.
pub const SEED_DESCRIPTION: &str = "\
Seed of the flow hash: 32 hexadecimal digits, of either case
[default: 32 zeros]. Pick it at random and keep it secret: who knows
it can pick five-tuples that share a flow, and everybody knows the
zero seed";

/// What the parameter words are, in a line.
pub const PARAMETERS_SUMMARY: &str = "Parameters, as in 'limit 1000 target 5ms noecn'";

/// What the parameter words are.
pub const PARAMETERS_DESCRIPTION: &str = "\
Parameters of the scheduler, as in 'limit 1000 target 5ms noecn',
described below";

/// The parameters, the formats and the statuses.
pub const TRACE_NOTES: &str = "\
Parameters, with the words of tc-fq_codel(8) where it has them. They are read
from left to right, and of a parameter given twice the last one holds.

  Words                 Range                  Default
  limit PACKETS         1 to 1048576 packets   10240 packets
                        While more packets wait than this, in all flows, the
                        flow with the most bytes loses half of its packets, at
                        least 1 and at most drop_batch.
  flows NUMBER          1 to 65536             1024
                        The flows that packets are sorted into.
  quantum BYTES         1 to 1000000 bytes     1514 bytes
                        What a flow sends before the next one has its turn.
                        A flow that owes bytes takes a turn for each quantum
                        of them, so a small one costs time: with 1 a packet of
                        65535 bytes costs its flow as many turns, and with
                        65536 such flows one dequeue takes seconds. Linux
                        takes one below 256 as 256.
  mtu BYTES             0 to 65535 bytes       1514 bytes
                        With at most this behind it in its flow, no packet is
                        dropped by CoDel.
  target TIME           0 to 1000000000us      5ms
                        A packet that waited less than this isn't dropped by
                        CoDel.
  interval TIME         1us to 1000000000us    100ms
                        How long packets wait for too long before CoDel drops
                        the first one.
  ce_threshold TIME     0 to 1000000000us      none
                        A packet that waited longer than this is marked when it
                        is sent, where CoDel doesn't mark it and its ECN field
                        is 1 or 2, with noecn too.
  memory_limit BYTES    1 to 1099511627776     none
                        While more bytes of packets wait than this, packets are
                        lost as with limit.
  drop_batch PACKETS    1 to 1048576 packets   64 packets
                        What a flow loses at most before the flow with the most
                        bytes is looked for again.
  ecn | noecn                                  ecn
                        Whether packets of senders that take part in ECN are
                        marked in place of being dropped by CoDel.
  classify hash|dport                          hash
                        How a packet's flow is found: from a SHA-256 hash of
                        seed and five-tuple, or from the destination port, each
                        modulo the number of flows.

A TIME is a whole number and its unit: us, usec, usecs, ms, msec, msecs, s, sec
or secs; without a unit, microseconds. Other numbers have no unit.

Trace, with one row for each step, its fields separated by commas:

  version,2                                      in the first row alone, before
                                                 all steps: a trace of version 2
  enq,MOMENT,PROTO,SRC,DST,SPORT,DPORT,LEN,ECN   a packet comes in
  deq,MOMENT                                     the device asks for a packet
  close,MOMENT                                   no packet is accepted any more

A MOMENT is in microseconds, below 2^60. PROTO is the protocol's number; SRC and
DST are addresses of one kind; SPORT and DPORT are ports (0 where there are
none); LEN is 1 to 65535 bytes; ECN is the two bits as a number: 0 Not-ECT,
1 ECT(1), 2 ECT(0), 3 CE. A trace has at most 1000000 rows and 134217728 bytes.

An IPv4 address is four numbers from 0 to 255, joined by dots. An IPv6 address
is 32 hexadecimal digits of either case, and stands in a trace of version 2
alone. Without the row 'version,2' a trace is of version 1. The row counts among
the 1000000, and the report has none for it.

Report, with the rows of each step in order:

  accepted,ID,FLOW         a packet was accepted; ids count from 0
  dropped,ID,overflow      a packet was dropped, since more than a limit waited
  dropped,ID,codel         a packet was dropped by CoDel
  sent,ID,ECN              a packet was sent, with this ECN field
  idle                     the device asked, and nothing waited
  closed                   the scheduler was closed
  refused,closed           the step came after the close
  refused,backwards,LAST   the step's moment is below the last one, LAST

and at the end

  totals,ACCEPTED,ACCEPTED_BYTES,SENT,SENT_BYTES,DROPPED_CODEL,
      DROPPED_OVERFLOW,DROPPED_BYTES,MARKED,THRESHOLD_MARKED,QUEUED,
      QUEUED_BYTES,STATE
                           the sums of the run in one row; MARKED by CoDel, or
                           for ce_threshold; STATE is open or closed
  tuple,PROTO,SRC,DST,SPORT,DPORT,FLOW,ACCEPTED,SENT,DROPPED,QUEUED
                           one row for each five-tuple, in order of its first
                           accepted packet; an IPv6 address is 32 hexadecimal
                           digits in lower case

Example:

  $ printf 'enq,0,17,10.0.0.1,10.0.0.2,5000,53,1000,0\\ndeq,3\\n' |
        fqsim trace classify dport flows 1
  accepted,0,0
  sent,0,0
  totals,1,1000,1,1000,0,0,0,0,0,0,0,open
  tuple,17,10.0.0.1,10.0.0.2,5000,53,0,1,1,0,0

Exit status:

  0  The report or the help was written.
  1  The machine failed. On standard error stands 'fqsim: row ROW: Read',
     'fqsim: row ROW: Memory', 'fqsim: memory' or 'fqsim: write'. After a failed
     write standard output has the front of the text, else nothing.
  2  Something is wrong that was given, and nothing was written to standard
     output. On standard error stands a text on the command line,
     'fqsim: a word isn't UTF-8', 'fqsim: seed',
     'fqsim: parameter word PLACE: NAME' (places count the parameter words from
     1) or 'fqsim: row ROW: NAME' (rows count from 1).

Common mistakes, each with what it gives and what to write in its place:

  fqsim trace FILE     word 1: UnknownWord  fqsim trace < FILE
  --limit 1000         unexpected argument  limit 1000
  limit 10240p         NotANumber           limit 10240
  memory_limit 32Mb    NotANumber           memory_limit 33554432
  target 5.0ms         NotANumber           target 5ms
  a row of names       row 1: BadKind       rows of steps alone
  enq, 0, 17, ..       BadNumber            enq,0,17,..
  2001:db8::1          BadAddress           20010db8000000000000000000000001 and
                                            'version,2' in the first row
  --version            unexpected argument  the file VERSION has it

Faults of a parameter word, at their place:

  UnknownWord        the word names no parameter, or no way to classify
  MissingValue       no word stands after a parameter that needs a value
  NotANumber         the value isn't written as a number or a time is
  OutOfRange         the value is outside its range

Faults of the trace, at their row:

  BadKind            the first field isn't 'enq', 'deq' or 'close', nor
                     'version' in the first row
  BadFieldCount      the row has another number of fields than its kind has
  BadNumber          a number isn't written in digits, or is too large for its
                     field, or the version isn't 2
  BadAddress         an address isn't four numbers from 0 to 255, joined by
                     dots and without leading zeros, nor, in version 2, 32
                     hexadecimal digits; or DST is of another kind than SRC
  LengthOutOfRange   LEN is outside 1 to 65535
  BadEcn             ECN isn't one character from 0 to 3
  TooLarge           more than 134217728 bytes (at row 0) or 1000000 rows
  Read               the bytes (at row 0) or the row couldn't be read
  Memory             no memory for the bytes (at row 0) or for the row";
