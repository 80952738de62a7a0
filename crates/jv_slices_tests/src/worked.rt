ghost use Rattle.std.specs.Prelude.{All, IfOk};
ghost use Rattle.jv_model.specs.promise.blocks.Slices.{IsRecord};

use jv_model::{BlockId, List, Piece, Rec, Setting, Spot};
use jv_slices::{block_len, block_name, blocks_of, byte_at, needs, parse_block_name, plan};
use std::alloc::{AllocError, Global};
use std::test::Fail;
use test_values::setting;

fn setting_with(alloc: Global, hash: u8) -> Result<Setting, AllocError> {
    let mut setting = setting(alloc)?;
    setting.hash = hash;
    Ok(setting)
}

#[test]
fn a_name_is_spelled_and_read_again(rt: HostRuntime) -> Result<(), Fail> {
    let rows = [
        (
            "plain",
            0,
            1_234_567,
            1_023,
            1,
            "test/chunks/1/1234/1234567_1023_1",
        ),
        (
            "with hash prefix",
            1,
            1_234_567,
            2,
            300,
            "test/chunks/87/1/1234567_2_300",
        ),
        (
            "greatest id",
            0,
            u64::MAX,
            0,
            5,
            "test/chunks/18446744073709/18446744073709551/18446744073709551615_0_5",
        ),
    ];
    for (row, hash, id, index, size, text) in rows {
        let setting = setting_with(rt.alloc(), hash)?;
        let name = block_name(rt.alloc(), &setting, id, index, size)?;
        assert_eq!(rt; name.as_slice(), text.as_bytes(), "{row}");
        let block = BlockId { id, index, size };
        assert_eq!(rt;
            parse_block_name(&setting, name.as_slice()),
            Some(block),
            "{row}"
        );
    }
    Ok(())
}

/// Ten bytes at 0, and two at 3 over them.
fn written(alloc: Global) -> Result<List, AllocError>
    ensures { IfOk result (λ list. All IsRecord list) }
{
    let first = Rec {
        pos: 0,
        id: 1,
        size: 10,
        off: 0,
        len: 10,
    };
    let second = Rec {
        pos: 3,
        id: 2,
        size: 2,
        off: 0,
        len: 2,
    };
    Ok(List::from_vec(vec![in alloc; first, second]?))
}

#[test]
fn a_later_record_parts_an_earlier_one(rt: HostRuntime) -> Result<(), Fail> {
    let list = written(rt.alloc())?;
    let pieces = plan(rt.alloc(), &list, 0, 12)?;
    let of = |id, size, at| Spot::Slice { id, size, at };
    let wanted = [
        ("before it", 0, 3, of(1, 10, 0)),
        ("the later one", 3, 2, of(2, 2, 0)),
        ("behind it", 5, 5, of(1, 10, 5)),
        ("past both", 10, 2, Spot::Zero),
    ];
    assert_eq!(rt; pieces.len(), wanted.len());
    for ((name, from, len, spot), piece) in wanted.iter().zip(pieces.as_slice()) {
        let (from, len, spot) = (*from, *len, *spot);
        assert_eq!(rt; *piece, Piece { from, len, spot }, "{name}");
        assert_eq!(rt; byte_at(&list, from), spot, "{name}");
    }
    let keys = needs(rt.alloc(), &pieces, 6)?;
    let wanted = [(1, 0, 6), (2, 0, 2), (1, 1, 4)].map(|(id, index, size)| BlockId {
        id,
        index,
        size,
    });
    assert_eq!(rt; keys.as_slice(), wanted.as_slice());
    assert_eq!(rt; (blocks_of(10, 6), block_len(10, 6, 1)), (2, 4));
    Ok(())
}
