use jv_model::{
    Attr, BlockId, Busy, Fault, FileKind, Gone, MIN_BLOCK, Reply, Sequence, Setting, copied,
};
use jv_script::print_reply;
use std::alloc::{AllocError, Global};

fn setting(alloc: Global) -> Result<Setting, AllocError> {
    let name = copied(alloc, b"test")?;
    let bucket = copied(alloc, b"b")?;
    Ok(Setting {
        version: 1,
        block: MIN_BLOCK,
        trash_days: 1,
        capacity: 0,
        inodes: 0,
        hash: 0,
        name,
        bucket,
    })
}

/// Whether an answer is printed as this text. It is not where memory runs out.
fn prints(alloc: Global, reply: &Reply, text: &str) -> bool {
    let Ok(setting) = setting(alloc) else {
        return false;
    };
    match print_reply(alloc, &setting, reply) {
        Ok(line) => line.as_slice() == text.as_bytes(),
        Err(_) => false,
    }
}

fn prints_attributes(alloc: Global) -> bool {
    let attr = Attr {
        inode: 2,
        kind: FileKind::Symlink,
        mode: 0o755,
        nlink: 1,
        uid: 3,
        gid: 4,
        size: 5,
        mtime: 6,
        ctime: 7,
    };
    prints(alloc, &Reply::Described(attr), "ok 2 l 0755 1 3 4 5 6 7\n")
}

fn prints_a_block(alloc: Global) -> bool {
    let block = BlockId {
        id: 1_234_567,
        index: 0,
        size: MIN_BLOCK,
    };
    let reply = Reply::Uploaded(Some(block));
    prints(alloc, &reply, "ok test/chunks/1/1234/1234567_0_65536\n")
}

#[test]
fn numbers_are_printed(rt: HostRuntime) {
    let greatest = Reply::Found { inode: u64::MAX };
    assert!(rt; prints(rt.alloc(), &Reply::Done, "ok\n"), "done");
    assert!(rt;
        prints(rt.alloc(), &greatest, "ok 18446744073709551615\n"),
        "the greatest number"
    );
    assert!(rt; prints_attributes(rt.alloc()), "attributes");
    assert!(rt; prints_a_block(rt.alloc()), "a block");
}

fn prints_lists_that_differ(alloc: Global) -> bool {
    let lists = Busy::Lists {
        looked: 2,
        found: 3,
    };
    let reply = Reply::Refused(Fault::Contended(lists));
    prints(alloc, &reply, "err EBUSY list 2 3\n")
}

#[test]
fn refusals_are_printed(rt: HostRuntime) {
    let stale = Reply::Refused(Fault::Stale(Gone::Node(3)));
    assert!(rt;
        prints(rt.alloc(), &stale, "err ESTALE inode 3\n"),
        "a stale inode"
    );
    assert!(rt; prints_lists_that_differ(rt.alloc()), "lists that differ");
}

fn two_entries(alloc: Global) -> Result<Reply, AllocError> {
    let mut entries = Sequence::new(alloc);
    entries.push((copied(alloc, b"a b/")?, 2))?;
    entries.push((copied(alloc, b"Z9._-~\xff")?, 10))?;
    Ok(Reply::Entries(entries))
}

fn a_target(alloc: Global) -> Result<Reply, AllocError> {
    Ok(Reply::Target(copied(alloc, b"/a%\n")?))
}

/// Bytes, and repeats of them.
fn data(alloc: Global) -> Result<Reply, AllocError> {
    Ok(Reply::Data(copied(alloc, b"aaabbaaaaa\0\0")?))
}

/// Whether the answer was made, and is printed as this text.
fn prints_made(alloc: Global, reply: Result<Reply, AllocError>, text: &str) -> bool {
    match reply {
        Ok(reply) => prints(alloc, &reply, text),
        Err(_) => false,
    }
}

#[test]
fn bytes_are_printed(rt: HostRuntime) {
    let alloc = rt.alloc();
    assert!(rt;
        prints_made(alloc, two_entries(alloc), "ok a%20b%2F:2 Z9._-~%FF:10\n"),
        "entries"
    );
    assert!(rt;
        prints_made(alloc, a_target(alloc), "ok /a%25%0A\n"),
        "a target"
    );
    assert!(rt;
        prints_made(alloc, data(alloc), "ok 6161616262+61x5+0000\n"),
        "bytes and repeats"
    );
}

#[test]
fn an_answer_without_bytes_is_a_hyphen(rt: HostRuntime) {
    let entries = Reply::Entries(Sequence::new(rt.alloc()));
    assert!(rt; prints(rt.alloc(), &entries, "ok -\n"), "no entries");
    let data = Reply::Data(Sequence::new(rt.alloc()));
    assert!(rt; prints(rt.alloc(), &data, "ok -\n"), "no bytes");
}
