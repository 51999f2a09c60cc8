//! The program's help, as a page of a manual in lines of at most 80 columns.

/// The version, and the toolchain that the program is proved with.
pub const VERSION: &str = "0.1.0\nproved with rattle-kit-13f logic dac8208d650f15bf";

/// What the program is, in a line.
pub const SUMMARY: &str = "Run packets through a bottleneck link with FQ-CoDel before it";

/// The page.
pub const PAGE: &str = "\
NAME
    maltlink - run packets through a bottleneck link with FQ-CoDel before it

SYNOPSIS
    maltlink --rate RATE [--overhead N] [--mpu N] [--seed HEX32]
        [--compare fifo] [--every TIME] [--write TABLE] [PARAM]... < arrivals

DESCRIPTION
    Simulates a bottleneck link with the FQ-CoDel scheduler (RFC 8290) in front
    of it, and reports the delay of each flow and the packets that are dropped
    or marked.

    Arrivals are open loop: senders don't react to drops, marks or delays. A
    capture of TCP shows what this queue does to these packets, not what TCP
    would have sent instead.

    All arrivals are read from standard input before the run, and the table is
    written to standard output after it. If standard error is a terminal, the
    progress of a long run is reported there. A run without packets, and one
    whose marks slow no sender down, get a note there (see NOTES).

    The link sends one packet after another, exactly at its rate. A packet takes
    LEN plus --overhead bytes on the wire, and at least --mpu bytes. When the
    link becomes free, it asks the scheduler for the next packet, after the
    arrivals of that microsecond. When it is idle, it asks as soon as a packet
    arrives. A delay is the time in the queue, without the time on the wire.

    Arrivals are a trace as in 'fqsim trace --help' with 'enq' rows only:

        enq,MOMENT,PROTO,SRC,DST,SPORT,DPORT,LEN,ECN

    MOMENT is the time of arrival in microseconds, below 2^59. It never
    decreases from row to row. After a first row 'version,2' addresses may be
    IPv6.

OPTIONS
    --rate RATE
        Rate of the link, 1000bit to 1tbit, in the syntax of tc(8): a number
        with up to nine decimals and a unit in upper or lower case, such as
        20Mbit or 1.5gbit. The units are bits per second: 'bit' (the default),
        'kbit', 'mbit', 'gbit' and 'tbit' in powers of 1000, and 'kibit',
        'mibit', 'gibit' and 'tibit' in powers of 1024. With 'bps' instead of
        'bit' they are bytes per second. The rate is rounded down to a whole
        number of bits per second.

    --overhead N
        Bytes on the wire in addition to LEN, 0 to 1000 [default: 0]. Ethernet
        has 24 if LEN includes its header of 14 bytes. The scheduler's credits,
        mtu and limits count LEN only.

    --mpu N
        Minimum size of a packet on the wire, in bytes, 0 to 65535
        [default: 0]. Ethernet has 84 with an overhead of 24.

    --seed HEX32
        Seed of the hash that assigns packets to flows, 32 hexadecimal digits
        [default: 32 zeros].

    --compare fifo
        Also simulates a FIFO of 'limit' packets, which drops arrivals while it
        is full, to compare with.

    --every TIME
        Width of the bins of 'series' and of the picture, 1ms to 1000s
        [default: 100ms].

    --write TABLE
        Output to write: 'flows', 'packets', 'series' or 'steps' for a table, or
        'svg' for a picture [default: flows].

    -h, --help
        Prints this page.

    -V, --version
        Prints the version, and the toolchain that the program is proved with.

PARAMETERS
    PARAM are the parameters of the scheduler, such as 'limit 1000 target 5ms
    noecn', named as in tc-fq_codel(8). They have no dashes. If a parameter is
    given twice, the last one counts. Error messages count these arguments only.

        Parameter             Range                  Default
        limit PACKETS         1 to 1048576           10240
        flows NUMBER          1 to 65536             1024
        quantum BYTES         1 to 1000000           1514
        mtu BYTES             0 to 65535             1514
        target TIME           0 to 1000s             5ms
        interval TIME         1us to 1000s           100ms
        ce_threshold TIME     0 to 1000s             none
        memory_limit BYTES    1 to 1099511627776     none
        drop_batch PACKETS    1 to 1048576           64
        ecn | noecn                                  ecn
        classify hash|dport                          hash

    'fqsim trace --help' describes each. A TIME is a whole number with a unit:
    us, usec, usecs, ms, msec, msecs, s, sec or secs. Without a unit it is in
    microseconds. Other numbers have no unit.

    Values may also be written as 'tc -s qdisc show' prints them: 10240p for
    packets; 1514b, 32Kb, 32Mb or 1Gb for bytes, in powers of 1024; 5.0ms or
    4.999ms for times, with one to six decimals and exact to a microsecond.

TABLES
    Tables are CSV with a header. Times and delays are in microseconds. A field
    is empty if it has no value. The first field of a row is its queue,
    'fq_codel' or 'fifo'. Rates and means are rounded down.

    flows
        One row per five-tuple, in the order of first arrival, and one for all
        packets: packets and bytes that arrived and that were sent, drops by
        CoDel and by a full queue, marks, delays of packets sent, and the rate
        in bits per second over the whole run. delay_p50, delay_p95 and
        delay_p99 are percentiles (nearest rank).

    packets
        One row per packet: its arrival, and its fate ('sent', or dropped by
        'codel' or 'overflow') with the time. place is its position in the
        order of sending, from 0.

    series
        For each bin of --every, one row per five-tuple that had an arrival, a
        packet sent or dropped, or one queued at the end of the bin. from is the
        start of the bin. A delay counts in the bin in which the packet is sent.

    steps
        The steps of the FQ-CoDel run as a trace: 'maltlink --write steps ..
        PARAM | fqsim trace PARAM' repeats the run.

    svg
        A picture (SVG) of the parameters, the longest delay in each bin of
        --every, the distribution of delays, the throughput on a logarithmic
        scale, and ticks for drops by cause and for marks. The six five-tuples
        with most packets have a colour and dashes each, and all others share
        one line. The FIFO's lines are thin and finely dashed. With more than
        610 bins each is 2, 5, 10 .. times as wide, as the picture says.

ERRORS
    Errors are reported on standard error. The first line is for programs, the
    second one says what was found and what was expected.

    maltlink: OPTION: NotANumber | OutOfRange
        The value of --rate, --overhead, --mpu or --every is not a number of
        that kind, or out of range. They are checked in this order.

    maltlink: seed
        The seed isn't 32 hexadecimal digits.

    maltlink: parameter word PLACE: NAME
        The parameter argument at that place, from 1, is wrong: it is no
        parameter (UnknownWord), has no value (MissingValue), or its value is
        not a number (NotANumber) or out of range (OutOfRange).

    maltlink: row ROW: NAME
        That row, from 1, is wrong, for a reason of 'fqsim trace --help' or one
        of these, which are checked after all rows have been read:
            NotAnArrival  The row isn't an 'enq' row.
            TooLate       Its time is 2^59 or more.
            Backwards     Its time is earlier than that of the row before.

    maltlink: a word isn't UTF-8
        An argument of the command line isn't UTF-8.

    maltlink: memory | write
        The program is out of memory, or a write failed.

NOTES
    A note on standard error has two lines, and the exit status stays 0.

    maltlink: no packet arrived
        The input has no row. Rows are read from standard input.

    maltlink: five-tuple NUMBER (PROTO,SRC,DST,SPORT,DPORT): more than half ..
        With FQ-CoDel more than half of this five-tuple's packets are sent with
        a mark, and its delay_p99 is above the interval. No sender slows down at
        a mark here, so the queue grows up to 'limit', as a FIFO's would. With
        'noecn' CoDel drops instead. NUMBER is the five-tuple's number in the
        tables. Only the first such five-tuple is named.

EXAMPLES
    $ printf 'enq,0,6,10.0.0.1,10.0.0.9,5000,443,1514,2\\n' |
          maltlink --rate 10mbit --write packets classify dport
    queue,id,tuple,flow,len,ecn,arrived,fate,at,delay,ecn_sent,mark,place
    fq_codel,0,0,443,1514,2,0,sent,0,0,2,,0

    $ maltlink --rate 10mbit --overhead 24 --mpu 84 --compare fifo \\
          limit 1000 target 5ms interval 100ms < arrivals.csv > flows.csv

EXIT STATUS
    0   The table, the help or the version was written.
    1   The program is out of memory, or a read or a write failed. After a
        failed write standard output has the beginning of the table, else
        nothing.
    2   The command line or the input is wrong. Nothing was written to standard
        output.
";
