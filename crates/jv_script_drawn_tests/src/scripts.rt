use jv_model::{Bytes, ClientId, Line, Op, Path};
use jv_script_drawn::{FILES, Generator, LINES};
use std::alloc::{AllocError, Global};
use std::test::Fail;

fn create(alloc: Global, i: u32) -> Result<Line, AllocError> {
    let path = format!(in alloc; "/g{i}")?;
    let path = Path::from_vec(path.into_bytes());
    Ok(Line::Do(ClientId(0), Op::Create { path, mode: 0o644 }))
}

fn flush(handle: u64) -> Line {
    Line::Do(ClientId(0), Op::Flush { handle })
}

// A read, or a write of bytes of one value.
fn access(
    alloc: Global,
    handle: u64,
    offset: u64,
    len: u32,
    value: Option<u8>,
) -> Result<Line, AllocError> {
    let Some(value) = value else {
        return Ok(Line::Do(
            ClientId(0),
            Op::Read {
                handle,
                offset,
                len,
            },
        ));
    };
    let bytes = Bytes::from_vec(vec![in alloc; value; len as usize]?);
    Ok(Line::Do(
        ClientId(0),
        Op::Write {
            handle,
            offset,
            bytes,
        },
    ))
}

// Whether a script's next line is this one.
fn is_next(alloc: Global, script: &mut Generator, line: Line) -> Result<bool, AllocError> {
    let next = script.next(alloc)?;
    Ok(next == Some(line))
}

// Whether a script's next lines make its files.
fn makes_files(alloc: Global, script: &mut Generator) -> Result<bool, AllocError> {
    for i in 0..FILES {
        let line = create(alloc, i)?;
        if !is_next(alloc, script, line)? {
            return Ok(false);
        }
    }
    Ok(true)
}

#[test]
fn the_seed_0_draws_these_first_25_lines(rt: HostRuntime) -> Result<(), Fail> {
    let mut script = Generator::new(0);
    let mount = Line::Do(ClientId(0), Op::Mount { writeback: false });
    assert!(rt; is_next(rt.alloc(), &mut script, mount)?);
    assert!(rt; makes_files(rt.alloc(), &mut script)?, "the files");
    let rows = [
        ("1st", 2, 129_494_902, 1_922, Some(79)),
        ("2nd", 2, 115_415_115, 2_670, Some(50)),
        ("3rd", 10, 125_969_127, 642, Some(25)),
        ("4th", 7, 28_219_378, 154, None),
        ("5th", 7, 80_586_274, 1_746, Some(243)),
        ("6th", 9, 133_393_677, 247, Some(6)),
        ("7th", 2, 20_382_970, 3_515, Some(93)),
        ("8th", 6, 125_363_144, 1_639, None),
    ];
    for (row, handle, offset, len, value) in rows {
        let line = access(rt.alloc(), handle, offset, len, value)?;
        assert!(rt; is_next(rt.alloc(), &mut script, line)?, "{row}");
    }
    Ok(())
}

// The script of the seed 0 before its last two lines.
fn near_the_end(alloc: Global) -> Result<Generator, AllocError> {
    let mut script = Generator::new(0);
    for _ in 2..LINES {
        script.next(alloc)?;
    }
    Ok(script)
}

#[test]
fn the_last_two_lines_flush_the_last_files(rt: HostRuntime) -> Result<(), Fail> {
    let mut script = near_the_end(rt.alloc())?;
    for handle in [15, 16] {
        assert!(rt;
            is_next(rt.alloc(), &mut script, flush(handle))?,
            "handle {handle}"
        );
    }
    let end = script.next(rt.alloc())?;
    assert!(rt; end.is_none());
    Ok(())
}
