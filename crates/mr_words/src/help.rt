//! What the help of the program and of each command says below its options.

/// The notes of a command: its units and its input, what its statuses mean, and an example. Where it has more statuses
/// than the common ones, they stand between.
macro_rules! notes {
    ($about:literal, $example:literal) => {
        notes!($about, "", $example)
    };
    ($about:literal, $statuses:literal, $example:literal) => {
        concat!(
            $about,
            "\n\nStatus: 0 done, 1 a fault, 2 invalid arguments or a call for help",
            $statuses,
            ".\nA fault is one line on the standard error.\n\nExample:\n  ",
            $example
        )
    };
}

/// The notes of the program.
pub const PROGRAM_NOTES: &str = notes!(
    "Times are whole seconds since the epoch, sizes are bytes. Configurations and scripts are JSON;\n\
    docs/FORMATS.md says all of both, and docs/OPERATING.md how a migration is run.\n\
    Results go to the standard output, help to the standard error. 'migctl explain' says what the line of a fault means.",
    ", 3 not accepted by 'check'",
    "printf 'delete k\\r\\n' | migctl plan 7001,7002 7101,7102,7103 1000 100 sum 1000"
);

/// How `plan` is called: with a configuration's file, or with six words.
pub const PLAN_USAGE: &str = "migctl plan --config <file> --at <seconds>\n       \
    migctl plan <old> <new> <start> <interval> <hash> <at>";

/// The notes of `plan`.
pub const PLAN_NOTES: &str = notes!(
    "The six words are a configuration of one migration, which needs no file; several in a row need one.\n\
    Seconds are whole seconds since the epoch, 1970-01-01 00:00:00 UTC.\n\
    The standard input holds one request in memcached's text protocol: a key has at most 250 bytes, a value\n\
    at most 1,048,576. What follows it is ignored. Of several migrations in a row, the phase is printed with the\n\
    hop that it is of.",
    "printf 'delete k\\r\\n' | migctl plan 7001,7002 7101,7102,7103 1000 100 sum 1000"
);

/// The notes of `timeline`.
pub const TIMELINE_NOTES: &str = notes!(
    "Seconds are whole seconds since the epoch, 1970-01-01 00:00:00 UTC.\n\
    --readings takes one whole number of seconds for each clock, with commas and no spaces between them: 999,1100\n\
    is two clocks that are 101 seconds apart. Then it also says the phase of each, how far they are apart, and\n\
    whether the least interval allows that.\n\
    Of several migrations in a row, each line begins with its hop, counted from 0.\n\
    The standard input isn't read.",
    "migctl timeline --config examples/fleet.json --readings 999,1100"
);

/// The notes of `explain`.
pub const EXPLAIN_NOTES: &str = notes!(
    "The line of a fault is 'migctl: <layer> <number> <name>'. The layers are text, pools, clock,\n\
    phases, node, proxy, world, workers and plan; each counts its faults from 1. A line of file, net,\n\
    input, output, memory or words has no number: it says what is wrong, and isn't explained here.\n\
    The standard input isn't read.",
    "migctl explain plan 5"
);

/// The notes of `run`.
pub const RUN_NOTES: &str = notes!(
    "A script is one JSON object in format 1 or 2, at most 16,777,216 bytes; docs/FORMATS.md says all of it.\n\
    Its transcript is in the same format. Readings of clocks in it are whole seconds since the epoch.\n\
    Without a file the standard input is read to its end; with one it isn't read.",
    "migctl run examples/far-clocks.json | migctl check"
);

/// The notes of `check`.
pub const CHECK_NOTES: &str = notes!(
    "A transcript is what 'run' prints, in format 1 or 2, at most 16,777,216 bytes. Its script is played again, and\n\
    nothing else of it is believed. Three lines are printed: the premises, the verdict, and whether it is accepted.\n\
    Without a file the standard input is read to its end; with one it isn't read.",
    ", 3 not accepted",
    "migctl run examples/far-clocks.json | migctl check"
);

/// The notes of `draw`.
pub const DRAW_NOTES: &str = notes!(
    "The picture is one SVG, for a browser: each proxy and each node has a lane, each event a column, each request a bar, and\n\
    each leg a line to its node. What 'check' prints stands above it; a transcript that isn't accepted is drawn too. Of\n\
    more than 2,000 events the first 2,000 are drawn.\n\
    Without a file the standard input is read to its end; with one it isn't read.",
    "migctl draw examples/far-clocks.transcript.json >far-clocks.svg"
);

/// The notes of `upgrade`.
pub const UPGRADE_NOTES: &str = notes!(
    "A script is one JSON object in format 1 or 2, at most 16,777,216 bytes; docs/FORMATS.md says all of it.\n\
    It is printed in format 2, which holds values of up to 1,048,576 bytes, as hexadecimal digits; format 1 holds\n\
    8,192. Its setup and its events stay the same. Readings of clocks in it are whole seconds since the epoch.\n\
    Without a file the standard input is read to its end; with one it isn't read.",
    "migctl upgrade examples/far-clocks.json | migctl run"
);

/// The notes of `node`.
pub const NODE_NOTES: &str = notes!(
    "The host is an address, as 127.0.0.1, or localhost. The node is empty at first, and speaks memcached's text protocol.\n\
    Connections are accepted one after another. At 0 clients none is. With --forever or --metrics they are served on\n\
    loops, each of which is a thread, over one cache, and a client waits while --max-clients are served. Without both\n\
    each client has a thread of its own.\n\
    The capacity counts items, not bytes: a key has at most 250 bytes, a value at most 1,048,576. An item that is used\n\
    least recently makes way for a new one.\n\
    A client that sends nothing, or reads nothing of what it is answered, for --idle-timeout seconds is dropped.\n\
    With --metrics, GET /metrics is answered at that address, for Prometheus; docs/METRICS.md says what is told.\n\
    The standard input isn't read. Once all connections have ended, 'served <n>' is printed: the number of those that\n\
    ended without a fault. Where that isn't all of them, the status is 1. With --forever it serves until a signal ends\n\
    it, and says on the standard error what happens, unless --quiet is given.",
    "migctl node --listen 127.0.0.1:11211 --capacity 4096 --forever"
);

/// The notes of `proxy`.
pub const PROXY_NOTES: &str = notes!(
    "The host is an address, as 127.0.0.1, or localhost. The nodes are those of the configuration, by host and port.\n\
    Its start and its interval are whole seconds, by the clock of this machine.\n\
    Connections are accepted one after another. At 0 clients none is. With --forever or --metrics they are served on\n\
    loops, each of which is a thread and a proxy of its own, with one connection to each node; a request waits while as\n\
    many are under way in its loop as --room says, and a client while --max-clients are served. Without both each client\n\
    has a thread and connections of its own; a request beyond --room is answered SERVER_ERROR busy, and the turns bound\n\
    the reads of a node too, for each leg of a request.\n\
    A leg is lost, as one whose connection broke, that has no whole reply --leg-timeout milliseconds after it went; by\n\
    threads, one whose node is silent for so long. A client that sends nothing and waits for no answer, or reads nothing\n\
    of what it is answered, for --idle-timeout seconds is dropped.\n\
    With --metrics, GET /metrics is answered at that address, for Prometheus; docs/METRICS.md says what is told.\n\
    The standard input isn't read. Once all connections have ended, 'served <n>' is printed: the number of those that\n\
    ended without a fault. Where that isn't all of them, the status is 1. With --forever it serves until a signal ends\n\
    it, and says on the standard error what happens, unless --quiet is given.",
    "migctl proxy --config fleet.json --listen 127.0.0.1:11210 --metrics 127.0.0.1:9001 --forever"
);

/// The notes of `watch`.
pub const WATCH_NOTES: &str = notes!(
    "An address is where a proxy or a node of migctl tells its metrics (--metrics), as 127.0.0.1:9001. A word that is no\n\
    address, or has the port 0, is refused before anything is asked. Nodes of the configuration that none of them\n\
    tells of are asked for their 'stats', as memcacheds. Nothing but that is asked.\n\
    A look begins each second, and has at most a second for each service. It shows each proxy (its phase, by how many\n\
    seconds its clock is ahead of this machine's, requests a second, hits, lost legs, requests held back), each node (items, hits),\n\
    a bar to the next phase, and the premises: same configuration, new pool empty, clocks near, no clock went back.\n\
    On a terminal a look is drawn in place, in colours unless NO_COLOR is set; elsewhere a line is written for each\n\
    change. With --once there is one look; with --json each is one object, in a line of its own.\n\
    It ends once every proxy is in the last phase. What was seen broken, and who was never reached, is said again then,\n\
    and the status is 1. Proxies that aren't listed, and what happens between two looks, it can't see.\n\
    The standard input isn't read.",
    "migctl watch --config fleet.json 127.0.0.1:9001 127.0.0.1:9002"
);

/// The notes of `canary`.
pub const CANARY_NOTES: &str = notes!(
    "An address is where a proxy serves clients, as 127.0.0.1:11210. A word that is no address, or has the port 0, is refused\n\
    before anything is asked. Proxies of one configuration belong together, and nobody else may set its keys.\n\
    At each proxy it has clients of its own, which get, set and delete keys that all of them share. A key is the prefix,\n\
    16 hexadecimal digits that are drawn for this run, and a number. There are --keys of them, and more until each node of\n\
    the configuration has one. At the end they are deleted; what is left then expires within an hour.\n\
    A value came back where a get hits it that was issued after a delete was acknowledged, which was issued after the\n\
    value's set was answered with STORED. It is told with the set, the delete and the get, and the status is 1. What\n\
    isn't answered counts as an error of its kind, and proves nothing.\n\
    A line is written for each second, and at the end a table of the phases, and the verdict. Hops and phases are those\n\
    of the configuration, by the clock of this machine. On a terminal the line of a second is written in place; with\n\
    --json each is one object, in a line of its own.\n\
    With --until-migrated it ends once the last hop has been new-only for ten seconds.\n\
    The standard input isn't read.",
    "migctl canary --config fleet.json --until-migrated 127.0.0.1:11210 127.0.0.1:11220"
);
