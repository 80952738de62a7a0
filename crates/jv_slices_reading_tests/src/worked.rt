ghost use Rattle.std.specs.Prelude.{◌<◌, ◌≤◌, ◌^◌, All, IfOk};
ghost use Rattle.jv_model.specs.declared.limits.TheConstants.{WINDOW};
ghost use Rattle.jv_model.specs.promise.blocks.Slices.{IsRecord};

use jv_model::{BlockId, Bytes, List, Rec};
use jv_slices_reading::WindowRead;
use std::alloc::{AllocError, Global};
use std::test::Fail;
use test_values::{BLOCK, block_bytes, byte};

/// Reads a part of a window, and lists the blocks in the order in which they were asked for.
fn read(alloc: Global, list: &List, from: u32, to: u32) -> Result<(Vec<BlockId>, Bytes), AllocError>
    requires records { All IsRecord list.now }
    requires rising { from ≤ to }
    requires in_window { to ≤ WINDOW }
{
    let mut part = WindowRead::new(alloc, list, from, to, BLOCK)?;
    let mut asked = Vec::new(alloc);
    while let Some(block) = part.next() {
        let bytes = block_bytes(alloc, block)?;
        part.fill(&bytes);
        asked.push(block)?;
    }
    Ok((asked, part.into_bytes()))
}

/// Slice 1 over four blocks; three bytes of slice 2 at 70,000, from its fifth on; and 50 zeros at 100.
fn written(alloc: Global) -> Result<List, AllocError>
    ensures { IfOk result (λ list. All IsRecord list) }
{
    let first = Rec {
        pos: 0,
        id: 1,
        size: 200_000,
        off: 0,
        len: 200_000,
    };
    let second = Rec {
        pos: 70_000,
        id: 2,
        size: 10,
        off: 4,
        len: 3,
    };
    let hole = Rec {
        pos: 100,
        id: 0,
        size: 0,
        off: 0,
        len: 50,
    };
    Ok(List::from_vec(vec![in alloc; first, second, hole]?))
}

/// The byte of a position, worked out from the three records.
fn wanted(position: u64) -> u8 {
    if position >= 100 && position < 150 {
        0
    } else if position >= 70_000 && position < 70_003 {
        byte(2, position - 70_000 + 4)
    } else if position < 200_000 {
        byte(1, position)
    } else {
        0
    }
}

#[test]
fn a_part_is_read_from_its_blocks(rt: HostRuntime) -> Result<(), Fail> {
    let list = written(rt.alloc())?;
    let of = |id, index, size| BlockId { id, index, size };
    let (first, second) = (of(1, 0, BLOCK), of(1, 1, BLOCK));
    let (last, short) = (of(1, 3, 3_392), of(2, 0, 10));
    let rows: [(&str, u32, u32, &[BlockId]); 5] = [
        ("nothing", 80, 80, &[]),
        (
            "one block, of which two pieces show parts",
            90,
            160,
            &[first],
        ),
        ("a hole", 110, 140, &[]),
        (
            "three blocks, of which two pieces show the second",
            65_530,
            70_010,
            &[first, second, short],
        ),
        ("the end of a slice and past it", 199_990, 200_010, &[last]),
    ];
    for (row, from, to, blocks) in rows {
        let (asked, bytes) = read(rt.alloc(), &list, from, to)?;
        assert_eq!(rt; asked.as_slice(), blocks, "{row}");
        assert_eq!(rt; bytes.len(), (to - from) as usize, "{row}");
        for (position, byte) in (u64::from(from)..).zip(bytes.as_slice()) {
            assert_eq!(rt; *byte, wanted(position), "{row}");
        }
    }
    Ok(())
}
