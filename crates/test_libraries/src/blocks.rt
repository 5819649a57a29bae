//! When groups of bytes go out that are put into a block: at the same bytes as where each is put by itself.

use mp4_ends::ends::ToVec;
use mp4_ends::{Failed, Sink};
use mp4_machine::{BLOCK_BYTES, Block, GROUP_BYTES};
use std::alloc::Global;
use std::test::Fail;

/// Puts groups one by one.
fn put_by_one<W: Sink>(block: &mut Block, w: &mut W, groups: &[u8]) -> Result<(), Failed> {
    for i in 0..groups.len() / GROUP_BYTES {
        let (_, rest) = groups.split_at(i.saturating_mul(GROUP_BYTES).min(groups.len()));
        let (group, _) = rest.split_at(rest.len().min(GROUP_BYTES));
        block.put(w, group)?;
    }
    Ok(())
}

/// What became of groups that were put after bytes that wait.
#[derive(Clone, Copy, Debug, PartialEq, Eq)]
struct Gone {
    /// Whether the sink failed meanwhile.
    failed: bool,
    /// How many bytes had gone out when all were put.
    out: usize,
    /// How many bytes waited then.
    waits: usize,
}

/// So many groups, of which no two that follow one another are alike.
fn groups_of(alloc: Global, count: usize) -> Result<Vec<u8>, Fail> {
    let mut bytes = Vec::new(alloc);
    for i in 0..GROUP_BYTES.saturating_mul(count) {
        bytes.push((i % 251) as u8)?;
    }
    Ok(bytes)
}

/// Puts groups, all at once or one by one, after so many bytes that wait, on their way to a sink with so much room:
/// what became of them, and the bytes that went out in the end.
fn put_groups(
    alloc: Global,
    waiting: usize,
    groups: &[u8],
    room: usize,
    by_one: bool,
) -> Result<(Gone, Vec<u8>), Fail> {
    let mut w = ToVec::new(alloc, room, 1 << 20, true)?;
    let mut block = Block::new();
    let filler = [b'-'; BLOCK_BYTES];
    let (filler, _) = filler.as_slice().split_at(waiting.min(BLOCK_BYTES));
    let _ = block.put(&mut w, filler);
    let failed = if by_one {
        put_by_one(&mut block, &mut w, groups).is_err()
    } else {
        block.put_groups(&mut w, groups).is_err()
    };
    let out = w.bytes().len();
    let _ = block.send(&mut w);
    let waits = w.bytes().len().saturating_sub(out);
    let gone = Gone { failed, out, waits };
    Ok((gone, w.bytes().to_vec(alloc)?))
}

#[test]
fn groups_go_out_as_if_each_was_put_by_itself(rt: HostRuntime) -> Result<(), Fail> {
    let alloc = rt.alloc();
    for count in [0, 1, 2, 255, 256, 1_023, 1_024, 1_025, 2_049] {
        let groups = groups_of(alloc, count)?;
        for waiting in [0, 1, 15, 16, 8_000, 16_352, 16_367, 16_368, 16_369, 16_384] {
            for room in [0, 16_367, 16_384, 32_767, 100_000] {
                let at_once = put_groups(alloc, waiting, groups.as_slice(), room, false)?;
                let by_one = put_groups(alloc, waiting, groups.as_slice(), room, true)?;
                if at_once.0 != by_one.0 || at_once.1.as_slice() != by_one.1.as_slice() {
                    return Err("groups went out elsewhere".into());
                }
            }
        }
    }
    Ok(())
}
