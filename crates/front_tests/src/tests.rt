use super::noted::notes_of;

#[test]
fn queries_come_in_order(rt: HostRuntime) {
    let text =
        b"doc 1 a\nafter 2 count a\nafter 1 count a\ncount a\ndoc 2 a\nafter 2 exists a\nafter 9 find a\ntick 3\ncancel 5\n";
    let notes = notes_of(&rt, rt.alloc(), text);
    assert_eq!(rt;
        notes.as_slice(),
        [
            (0, 3, 1, true),
            (1, 2, 1, true),
            (2, 1, 1, true),
            (3, 4, 2, true),
            (4, 5, 0, false)
        ]
        .as_slice()
    );
}

#[test]
fn cancel_lines_act_once_behind_their_query(rt: HostRuntime) {
    let text =
        b"doc 1 a\ncancel 1\nafter 2 count a\nafter 2 exists a\ncancel 1\ncancel 1\ntick 2\ncancel 2\nafter 5 find a\n";
    let notes = notes_of(&rt, rt.alloc(), text);
    assert_eq!(rt;
        notes.as_slice(),
        [(0, 1, 0, false), (1, 2, 1, true), (2, 3, 0, false)].as_slice()
    );
}
