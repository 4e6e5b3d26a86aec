//! Which requests lines say, and how other lines are refused.
use super::{LongRow, gives_all, gives_long};
use mr_test_support::Texts;

#[test]
fn lines_say_requests(rt: HostRuntime) {
    let table = b"get k\r\n|get k\r\n;|\
        get k\n|get k\r\n;|\
        \x20 get  k   k b \n|get k k b\r\n;|\
        get k noreply\r\n|get k noreply\r\n;|\
        get get\r\nget set\r\n|get get\r\nget set\r\n;|\
        get \x80\xff\r\n|get \x80\xff\r\n;|\
        delete k\r\n|delete k\r\n;|\
        delete k 0\r\n|delete k\r\n;|\
        delete k noreply\r\n|delete k noreply\r\n;|\
        delete k 0 noreply\r\n|delete k noreply\r\n;|\
        delete noreply\r\n|delete noreply\r\n;|\
        delete 0 0\r\n|delete 0\r\n;|\
        delete noreply noreply\r\n|delete noreply noreply\r\n;|\
        set k 0 0 0\r\n\r\n|set k 0 0 0\r\n\r\n;|\
        set k 0 0 1\nv\r\n|set k 0 0 1\r\nv\r\n;|\
        set k 7 9 1 noreply\r\n\n\r\n|set k 7 9 1 noreply\r\n\n\r\n;|\
        set noreply 0 0 1 noreply\r\nv\r\n|set noreply 0 0 1 noreply\r\nv\r\n;|\
        set k 0 0 6\r\nquit\r\n\r\nquit\r\n|set k 0 0 6\r\nquit\r\n\r\nquit\r\n<9>|\
        quit\r\nget k\r\n|quit\r\n<9>|";
    gives_all(&rt, rt.alloc(), Texts::Requests, table);
}

#[test]
fn numbers_have_ranges(rt: HostRuntime) {
    let table = b"set k 000 00 0001\r\nv\r\n|set k 0 0 1\r\nv\r\n;|\
        set k 0 -0 1\r\nv\r\n|set k 0 0 1\r\nv\r\n;|\
        set k 0 -000 1\r\nv\r\n|set k 0 0 1\r\nv\r\n;|\
        set k 0 -007 1\r\nv\r\n|set k 0 -7 1\r\nv\r\n;|\
        set k 00000000004294967295 0 1\r\nv\r\n|set k 4294967295 0 1\r\nv\r\n;|\
        set k 4294967296 0 1\r\n|<3><9>|\
        set k 0 9223372036854775807 1\r\nv\r\n|set k 0 9223372036854775807 1\r\nv\r\n;|\
        set k 0 -9223372036854775808 1\r\nv\r\n|set k 0 -9223372036854775808 1\r\nv\r\n;|\
        set k 0 9223372036854775808 1\r\n|<3><9>|\
        set k 0 -9223372036854775809 1\r\n|<3><9>|\
        set k +5 0 1\r\n|<3><9>|\
        set k 0 +5 1\r\n|<3><9>|\
        set k -0 0 1\r\n|<3><9>|\
        set k 0 - 1\r\n|<3><9>|\
        set k 0 --1 1\r\n|<3><9>|\
        set k 0 0 -1\r\n|<3><9>|\
        set k 0 0 0x1\r\n|<3><9>|\
        set k 0 0 1048577\r\n|<5><9>|\
        set k 0 0 18446744073709551615\r\n|<5><9>|\
        set k 0 0 18446744073709551616\r\n|<3><9>|";
    gives_all(&rt, rt.alloc(), Texts::Requests, table);
}

#[test]
fn other_lines_are_refused_in_order(rt: HostRuntime) {
    let table = b"gets k\r\nget k\r\n|<7>get k\r\n;|\
        \r\n\n  \r\nget k\r\n|<7><7><7>get k\r\n;|\
        GET k\r\nget k\r\n|<7>get k\r\n;|\
        get\tk\r\n|<7>;|\
        quit\r\r\nget k\r\n|<7>get k\r\n;|\
        cas k 0 0 1 5\r\nget k\r\n|<7 closes><9>|\
        add\n|<7 closes><9>|\
        \x20replace k\n|<7 closes><9>|\
        append k\n|<7 closes><9>|\
        prepend k\n|<7 closes><9>|\
        Cas\nadds\n|<7><7>;|\
        get\r\n|<4><9>|\
        quit now\r\n|<4><9>|\
        set k x y\r\n|<4><9>|\
        set k 0 0 1 x\r\n|<4><9>|\
        set k 0 0 1 noreply x\r\n|<4><9>|\
        set \x01 x y z w\r\n|<4><9>|\
        delete\r\n|<4><9>|\
        delete k 5\r\n|<4><9>|\
        delete \x01 5\r\n|<4><9>|\
        delete k 00\r\n|<4><9>|\
        delete k 0 0\r\n|<4><9>|\
        delete k noreply 0\r\n|<4><9>|\
        delete k noreply noreply\r\n|<4><9>|\
        get k \x7f\r\n|<2><9>|\
        get k\r\r\n|<2><9>|\
        get k\r \n|<2><9>|\
        get k\x00\n|<2><9>|\
        set \x7f x 0 1048577\r\n|<2><9>|\
        set k 0 x 1048577\r\n|<3><9>|";
    gives_all(&rt, rt.alloc(), Texts::Requests, table);
}

#[test]
fn block_needs_its_end(rt: HostRuntime) {
    let table = b"set k 0 0 1\r\nv\n|<6><9>|\
        set k 0 0 1\r\nvX|<6><9>|\
        set k 0 0 1\r\nv\r\r|<6><9>|\
        set k 0 0 0 noreply\r\nv|<6><9>|\
        set k 0 0 1\r\nv\r|;|";
    gives_all(&rt, rt.alloc(), Texts::Requests, table);
}

static LONG_TEXTS: [LongRow; 13] = [
    // A line of 8,192 bytes is read, and none that is longer.
    (
        (b"get k", b" ", 8187, b"\n"),
        b"",
        false,
        (b"get k\r\n;", b"", 0, b""),
    ),
    (
        (b"get k", b" ", 8187, b"\r\n"),
        b"",
        false,
        (b"get k\r\n;", b"", 0, b""),
    ),
    (
        (b"get k", b" ", 8188, b"\n"),
        b"",
        false,
        (b"<1><9>", b"", 0, b""),
    ),
    (
        (b"get k", b" ", 8188, b"\r\n"),
        b"",
        false,
        (b"<1><9>", b"", 0, b""),
    ),
    // A line without its end is refused once it has 8,194 bytes.
    (
        (b"get k", b" ", 8187, b"x"),
        b"",
        false,
        (b";", b"", 0, b""),
    ),
    (
        (b"get k", b" ", 8187, b"x"),
        b"",
        true,
        (b"<8><9>", b"", 0, b""),
    ),
    (
        (b"get k", b" ", 8187, b"x"),
        b"x",
        false,
        (b"<1><9>", b"", 0, b""),
    ),
    (
        (b"get k", b" ", 8187, b"\r"),
        b"",
        false,
        (b";", b"", 0, b""),
    ),
    (
        (b"get k", b" ", 9995, b""),
        b"",
        false,
        (b"<1><9>", b"", 0, b""),
    ),
    // A line has room for 4,094 keys.
    (
        (b"get", b" k", 4094, b"\r\n"),
        b"",
        false,
        (b"get", b" k", 4094, b"\r\n;"),
    ),
    (
        (b"get", b" k", 4095, b"\r\n"),
        b"",
        false,
        (b"<1><9>", b"", 0, b""),
    ),
    // A key has up to 250 bytes.
    (
        (b"get ", b"x", 250, b"\r\n"),
        b"",
        false,
        (b"get ", b"x", 250, b"\r\n;"),
    ),
    (
        (b"get ", b"x", 251, b"\r\nget k\r\n"),
        b"",
        false,
        (b"<2><9>", b"", 0, b""),
    ),
];

#[test]
fn long_texts_are_read_or_refused(rt: HostRuntime) {
    for (row, it) in LONG_TEXTS.iter().enumerate() {
        gives_long(&rt, rt.alloc(), row, Texts::Requests, it);
    }
}
