//! A worked log: what it is told, and what it says.
use crate::tests::is;
use mr_log::{Happening, KINDS, Kind, Log, PAUSE, Said, Trouble};
use mr_phases::PhaseName;
use std::process::Abort;

/// What a log is told; or when it is asked, what it says then, and how many more of that kind came.
#[derive(Clone, Copy, Debug)]
enum Call {
    Note(Happening),
    Take(u64, Option<(Happening, u64)>),
}

const FIRST_DOWN: Happening = Happening::LinkDown {
    node: 0,
    why: Trouble::Ended,
};

const SECOND_DOWN: Happening = Happening::LinkDown {
    node: 1,
    why: Trouble::Broken,
};

const THIRD_DOWN: Happening = Happening::LinkDown {
    node: 2,
    why: Trouble::Silent,
};

const FOURTH_DOWN: Happening = Happening::LinkDown {
    node: 3,
    why: Trouble::NotReached,
};

const FIFTH_DOWN: Happening = Happening::LinkDown {
    node: 1,
    why: Trouble::BadReply,
};

const SIXTH_DOWN: Happening = Happening::LinkDown {
    node: 2,
    why: Trouble::Ended,
};

const UP: Happening = Happening::LinkUp { node: 0 };

static CALLS: [Call; 20] = [
    Call::Note(FIRST_DOWN),
    Call::Note(SECOND_DOWN),
    Call::Note(Happening::NoMemory),
    Call::Note(THIRD_DOWN),
    Call::Take(5, Some((FIRST_DOWN, 2))),
    Call::Note(FOURTH_DOWN),
    Call::Take(6, Some((Happening::NoMemory, 0))),
    Call::Take(6, None),
    Call::Note(UP),
    Call::Note(Happening::NoMemory),
    Call::Take(1004, Some((UP, 0))),
    Call::Note(FIFTH_DOWN),
    Call::Take(1005, Some((FOURTH_DOWN, 1))),
    Call::Take(1005, None),
    Call::Note(SIXTH_DOWN),
    Call::Take(1006, Some((Happening::NoMemory, 0))),
    Call::Note(Happening::NoMemory),
    Call::Take(3000, Some((SIXTH_DOWN, 0))),
    Call::Take(3000, Some((Happening::NoMemory, 0))),
    Call::Take(3000, None),
];

/// What a log says when it is asked.
fn says(rt: &impl Abort, row: usize, said: Option<Said>, wanted: Option<(Happening, u64)>) {
    let wanted = wanted.map(|(happening, more)| Said { happening, more });
    is(rt, row, said, wanted);
}

#[test]
fn a_log_says_each_kind_once_a_second(rt: HostRuntime) {
    let mut log = Log::new();
    for (row, call) in CALLS.iter().enumerate() {
        match *call {
            Call::Note(happening) => log.note(happening),
            Call::Take(now, wanted) => says(&rt, row, log.take(now), wanted),
        }
    }
}

/// One happening of each kind, in the order of the kinds.
static KINDS_ONCE: [(Happening, Kind); KINDS] = [
    (Happening::Listens { loops: 4 }, Kind::Listens),
    (
        Happening::PhaseEntered {
            hop: 0,
            phase: PhaseName::OldOnly,
        },
        Kind::PhaseEntered,
    ),
    (FIRST_DOWN, Kind::LinkDown),
    (UP, Kind::LinkUp),
    (Happening::ClientsHeldBack, Kind::ClientsHeldBack),
    (Happening::ClientsWait { most: 10_000 }, Kind::ClientsWait),
    (Happening::NoMemory, Kind::NoMemory),
    (Happening::NoDescriptors, Kind::NoDescriptors),
    (Happening::NoClock, Kind::NoClock),
    (
        Happening::ClockWentBack {
            from: 1200,
            to: 1100,
        },
        Kind::ClockWentBack,
    ),
];

/// Notes a happening of each kind, and says how many kinds they are.
fn note_all(log: &mut Log) {
    for (happening, _) in &KINDS_ONCE {
        log.note(*happening);
    }
}

/// Asserts that a log says one line of each kind, each of which counts so many more, and nothing behind them.
fn says_all(rt: &impl Abort, log: &mut Log, now: u64, more: u64) {
    for (row, (happening, _)) in KINDS_ONCE.iter().enumerate() {
        says(rt, row, log.take(now), Some((*happening, more)));
    }
    says(rt, KINDS, log.take(now), None);
}

#[test]
fn kinds_have_lines_of_their_own(rt: HostRuntime) {
    let mut log = Log::new();
    note_all(&mut log);
    note_all(&mut log);
    says_all(&rt, &mut log, 0, 1);
    note_all(&mut log);
    says(&rt, 0, log.take(PAUSE - 1), None);
    says_all(&rt, &mut log, PAUSE, 0);
}

#[test]
fn happenings_have_their_kinds(rt: HostRuntime) {
    for (row, (happening, kind)) in KINDS_ONCE.iter().enumerate() {
        is(&rt, row, happening.kind(), *kind);
    }
}
