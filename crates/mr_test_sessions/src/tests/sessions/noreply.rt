//! Requests whose client wants no answer.
use super::{IN_TIME, Row, SILENT, are_rows};

static DONE: [Row; 1] = [Row {
    sends: b"set k 4 0 1 noreply\r\nv\r\nget k\r\ndelete k noreply\r\nget k\r\n",
    told: "VALUE k 4 1\r\nv\r\nEND\r\nEND\r\n",
    reads: 2,
    kept: &[IN_TIME, IN_TIME, IN_TIME, IN_TIME],
    ..SILENT
}];

#[test]
fn what_gets_no_answer_is_done_and_kept(rt: HostRuntime) {
    are_rows(&rt, rt.alloc(), &DONE);
}

static REFUSED: [Row; 1] = [Row {
    clock: &[None, None, None, Some(999)],
    sends: b"set k 0 0 1 noreply\r\nv\r\ndelete k noreply\r\ndelete k\r\nget k\r\n",
    told: "SERVER_ERROR clock fault\r\nEND\r\n",
    reads: 2,
    kept: &[IN_TIME],
    ..SILENT
}];

#[test]
fn nothing_is_told_where_the_issue_is_refused(rt: HostRuntime) {
    are_rows(&rt, rt.alloc(), &REFUSED);
}
