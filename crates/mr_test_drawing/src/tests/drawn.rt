//! The steps, the shapes and the text of the run.
use super::run::{EVENTS, Run, play};
use super::{holds, must};
use mr_drawing::{
    Blame, MOST_COLUMNS, Outcome, Reach, Scene, Shape, Step, blame_of, draw, node_names, shapes_of,
    steps_of,
};
use mr_phases::{PhaseName, RequestKind, Side};
use mr_pools::NodeName;
use mr_test_support::{FIRST, OTHER_FIRST, OTHER_SECOND};
use std::alloc::Global;
use std::process::Abort;

/// The names of the nodes.
static NAMES: [&[u8]; 5] = [b"7001", b"7002", b"7101", b"7102", b"7103"];

#[test]
fn each_node_has_one_name(rt: HostRuntime) {
    let run = play(&rt, rt.alloc());
    let names = must(&rt, node_names(rt.alloc(), run.proxies.as_slice()));
    holds(&rt, names.len() == NAMES.len(), "how many there are");
    for (name, wanted) in names.iter().zip(NAMES.iter()) {
        holds(&rt, name.as_bytes() == *wanted, "the name of a node");
    }
}

#[test]
fn the_verdict_blames_three(rt: HostRuntime) {
    let run = play(&rt, rt.alloc());
    let blame = blame_of(run.world.history().entries(), &run.verdict);
    let wanted = Blame {
        get: Some(OTHER_SECOND),
        delete: Some(FIRST),
        set: Some(OTHER_FIRST),
    };
    holds(&rt, blame == wanted, "whom it blames");
}

/// The steps of a run.
fn steps(rt: &impl Abort, alloc: Global, run: &Run, names: &[NodeName]) -> Vec<Step> {
    let reach = Reach {
        proxies: run.proxies.as_slice(),
        names,
        sent: run.world.sent(),
        replies: run.world.replies(),
        blame: blame_of(run.world.history().entries(), &run.verdict),
    };
    must(
        rt,
        steps_of(alloc, &reach, run.events.as_slice(), run.notes.as_slice()),
    )
}

/// The first shapes of the run, behind its seven lanes: `k` is 107, so that its old node is the second of two, and its new
/// one the third of three.
static SHAPES: [Shape; 5] = [
    Shape::Column { column: 0 },
    Shape::Bar {
        column: 0,
        more: 2,
        level: 4,
        blamed: true,
    },
    Shape::Column { column: 1 },
    Shape::Leg {
        column: 1,
        level: 4,
        node: 4,
        kind: RequestKind::Set,
        side: Side::New,
        again: false,
    },
    Shape::Column { column: 2 },
];

/// The last ones: the second get of the first proxy was forgotten, and its message never arrived.
static LAST: [Shape; 5] = [
    Shape::Column { column: 10 },
    Shape::Bar {
        column: 10,
        more: 1,
        level: 2,
        blamed: false,
    },
    Shape::LostLeg {
        column: 10,
        level: 2,
        node: 1,
    },
    Shape::Column { column: 11 },
    Shape::ProxyBreak {
        column: 11,
        level: 0,
        height: 3,
    },
];

/// Asserts that these shapes stand from a place on.
fn stand_at(rt: &impl Abort, shapes: &[Shape], place: usize, wanted: &[Shape]) {
    for (number, shape) in wanted.iter().enumerate() {
        let found = shapes.get(place.saturating_add(number)).copied();
        holds(rt, found == Some(*shape), "a shape");
    }
}

#[test]
fn each_event_has_its_shapes(rt: HostRuntime) {
    let alloc = rt.alloc();
    let run = play(&rt, alloc);
    let names = must(&rt, node_names(alloc, run.proxies.as_slice()));
    let steps = steps(&rt, alloc, &run, names.as_slice());
    holds(&rt, steps.len() == EVENTS, "a step for each event");
    let targets: [usize; 4] = [4, 1, 4, 1];
    if run.proxies.len() > 8 {
        rt.panic("too many proxies");
    }
    let shapes = must(
        &rt,
        shapes_of(
            alloc,
            run.proxies.as_slice(),
            names.len(),
            steps.as_slice(),
            &targets,
            true,
        ),
    );
    let lane = Shape::ProxyLane {
        proxy: 1,
        level: 3,
        height: 3,
        more: 12,
        phase: PhaseName::BothReadNew,
        hop: 0,
    };
    stand_at(
        &rt,
        shapes.as_slice(),
        1,
        &[lane, Shape::NodeLane { node: 0 }],
    );
    stand_at(&rt, shapes.as_slice(), 7, &SHAPES);
    let again = Shape::Back {
        column: 6,
        level: 1,
        node: 1,
        outcome: Outcome::Absent,
        again: true,
    };
    stand_at(&rt, shapes.as_slice(), 20, &[again]);
    stand_at(&rt, shapes.as_slice(), 27, &LAST);
    holds(&rt, shapes.len() == 32, "none other");
}

/// The text of the picture of a run.
pub fn picture(rt: &impl Abort, alloc: Global, run: &Run) -> Option<Vec<u8>> {
    let titles: [&[u8]; 2] = [b"{\"<\"}", b"second"];
    let said: [&[u8]; 1] = [b"not accepted: premise false"];
    let scene = Scene {
        proxies: run.proxies.as_slice(),
        events: run.events.as_slice(),
        titles: &titles,
        notes: run.notes.as_slice(),
        sent: run.world.sent(),
        replies: run.world.replies(),
        entries: run.world.history().entries(),
        verdict: &run.verdict,
        said: &said,
    };
    if scene.proxies.len() > 8 {
        rt.panic("too many proxies");
    }
    draw(alloc, &scene).ok()
}

/// Texts of which each stands in the picture once.
static TEXTS: [&[u8]; 7] = [
    b"<svg xmlns='http://www.w3.org/2000/svg' role='img' width='960' height='632'>\n",
    b"not accepted: premise false</text>",
    b"get 1.0.1 shows what delete 0.0.0 had removed</text>",
    b"<title>{&quot;&lt;&quot;}</title>",
    b"<rect class='bar blamed' x='236' y='275' width='160' height='18'/>\n",
    b">delete k</text>",
    b"</svg>\n",
];

/// How often a text stands in another.
fn count(text: &[u8], part: &[u8]) -> usize {
    text.windows(part.len().max(1))
        .filter(|found| *found == part)
        .count()
}

#[test]
fn the_picture_is_whole(rt: HostRuntime) {
    let run = play(&rt, rt.alloc());
    let Some(text) = picture(&rt, rt.alloc(), &run) else {
        return rt.panic("there is no picture");
    };
    for part in &TEXTS {
        holds(
            &rt,
            count(text.as_slice(), part) == 1,
            "a text of the picture",
        );
    }
    holds(&rt, MOST_COLUMNS == 2000, "the most events");
}
