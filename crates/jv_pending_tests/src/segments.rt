//! Which segments a few writes leave, with ample memory.
use jv_model::{WINDOW, copied};
use jv_pending::{Pending, PendingFault, SegmentAt};
use std::process::Abort;
use std::test::Fail;

/// A write of a text to a position, of inode 1.
type Write = (u64, &'static str);

/// A window, a position in it, and the text of the segment that begins there.
type Segment = (u32, u32, &'static str);

/// Takes out the segments that are asked for, the least one first, after which nothing is left.
fn assert_takes(
    rt: &(impl Abort + AllocGlobal),
    name: &str,
    pending: &mut Pending,
    wanted: &[Segment],
) -> Result<(), Fail> {
    for (window, pos, text) in wanted {
        let at = pending.first(None).ok_or("no segment")?;
        let named = SegmentAt {
            inode: 1,
            window: *window,
            pos: *pos,
            len: at.len,
        };
        assert_eq!(rt; at, named, "{name}");
        assert_eq!(rt; pending.segment(at), text.as_bytes(), "{name}");
        pending.remove(at);
    }
    assert_eq!(rt; (pending.first(None), pending.bytes()), (None, 0), "{name}");
    Ok(())
}

/// Writes texts, and takes out the segments that are asked for.
fn assert_leaves(
    rt: &(impl Abort + AllocGlobal),
    name: &str,
    writes: &[Write],
    wanted: &[Segment],
) -> Result<(), Fail> {
    let mut pending = Pending::new(rt.alloc(), 100);
    for (from, text) in writes {
        assert!(rt; *from <= 2 * WINDOW && text.len() < 100, "{name}");
        let bytes = copied(rt.alloc(), text.as_bytes())?;
        assert_eq!(rt; pending.write(1, *from, &bytes), Ok(()), "{name}");
    }
    assert_takes(rt, name, &mut pending, wanted)
}

#[test]
fn writes_are_joined_in_a_window(rt: HostRuntime) -> Result<(), Fail> {
    let rows: [(&str, [Write; 2], Segment); 7] = [
        ("behind", [(7, "ab"), (9, "cd")], (0, 7, "abcd")),
        ("before", [(9, "cd"), (7, "ab")], (0, 7, "abcd")),
        ("over the end", [(7, "abcd"), (9, "XYZ")], (0, 7, "abXYZ")),
        (
            "over the start",
            [(7, "abcd"), (5, "XYZ")],
            (0, 5, "XYZbcd"),
        ),
        ("inside", [(7, "abcdef"), (9, "XY")], (0, 7, "abXYef")),
        ("over all", [(7, "abcd"), (7, "WXYZ")], (0, 7, "WXYZ")),
        ("around", [(7, "ab"), (6, "WXYZ")], (0, 6, "WXYZ")),
    ];
    for (name, writes, segment) in rows.iter() {
        assert_leaves(&rt, name, writes, &[*segment])?;
    }
    Ok(())
}

#[test]
fn gaps_are_closed(rt: HostRuntime) -> Result<(), Fail> {
    assert_leaves(
        &rt,
        "the longer one behind",
        &[(0, "a"), (4, "efgh"), (1, "BCD")],
        &[(0, 0, "aBCDefgh")],
    )?;
    assert_leaves(
        &rt,
        "the longer one before",
        &[(0, "abcd"), (6, "g"), (8, "i"), (3, "DEFGHI")],
        &[(0, 0, "abcDEFGHI")],
    )
}

#[test]
fn writes_are_cut_at_borders(rt: HostRuntime) -> Result<(), Fail> {
    assert_leaves(
        &rt,
        "over a border twice",
        &[(WINDOW - 2, "abcd"), (WINDOW - 1, "XY")],
        &[(0, 67_108_862, "aX"), (1, 0, "Yd")],
    )?;
    assert_leaves(
        &rt,
        "up to a border from both sides",
        &[(WINDOW, "b"), (WINDOW - 1, "a"), (WINDOW + 2, "d")],
        &[(0, 67_108_863, "a"), (1, 0, "b"), (1, 2, "d")],
    )?;
    assert_leaves(
        &rt,
        "joined on both sides of a border",
        &[
            (WINDOW - 4, "ab"),
            (WINDOW + 2, "gh"),
            (WINDOW - 3, "BCDEFG"),
        ],
        &[(0, 67_108_860, "aBCD"), (1, 0, "EFGh")],
    )?;
    assert_leaves(
        &rt,
        "over all runs on both sides of a border",
        &[
            (WINDOW - 1, "a"),
            (WINDOW + 1, "c"),
            (WINDOW - 3, "ABCDEFG"),
        ],
        &[(0, 67_108_861, "ABC"), (1, 0, "DEFG")],
    )
}

#[test]
fn the_limit_holds_and_segments_are_taken(rt: HostRuntime) -> Result<(), Fail> {
    let mut pending = Pending::new(rt.alloc(), 8);
    assert_eq!(rt; pending.limit(), 8);
    let bytes = copied(rt.alloc(), b"abcd")?;
    assert!(rt; bytes.len() == 4);
    assert_eq!(rt; pending.write(1, 10, &bytes), Ok(()));
    assert_eq!(rt; pending.write(2, 12, &bytes), Ok(()));
    assert_eq!(rt;
        pending.write(2, 16, &bytes),
        Err(PendingFault::Full { held: 8, asked: 4 })
    );
    assert_eq!(rt;
        (pending.end_of(1), pending.end_of(2), pending.end_of(3)),
        (14, 16, 0)
    );
    let at = pending.first(Some(2)).ok_or("no segment")?;
    assert_eq!(rt; pending.take(at).as_slice(), b"abcd".as_slice());
    assert_eq!(rt; (pending.bytes(), pending.first(Some(2))), (4, None));
    assert_eq!(rt; pending.write(2, 13, &bytes), Ok(()));
    pending.clear(1);
    assert_eq!(rt;
        (pending.bytes(), pending.end_of(1), pending.end_of(2)),
        (4, 0, 17)
    );
    pending.clear_all();
    assert_eq!(rt; pending.bytes(), 0);
    Ok(())
}
